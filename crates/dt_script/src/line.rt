ghost use Rattle.std.specs.Prelude.{◌≢◌, ℕ, IsTrue};
ghost use Rattle.dt_script.specs.Line.{is_in_range, is_short};

use dt_definitions::{Arity, BodyNo, ClassNo, Parents, SelNo, Tuple};
use dt_scratch::Query;

/// A line of a script that means something, with the numbers of its names.
#[derive(Debug, Drop)]
pub enum Line {
    /// `dispatch 1`: the first line of a script.
    Header,
    /// `class CLASS`, or `class CLASS < PARENT PARENT ..`: a new class.
    AddClass {
        /// The class.
        class: ClassNo,
        /// Its parents, however many.
        parents: Parents,
    },
    /// `drop CLASS`: a class goes.
    DropClass {
        /// The class that goes.
        class: ClassNo,
    },
    /// `link CLASS < PARENT`: a class gets one more parent.
    Link {
        /// The class below.
        class: ClassNo,
        /// The class above.
        parent: ClassNo,
    },
    /// `unlink CLASS < PARENT`: a class loses a parent.
    Unlink {
        /// The class below.
        class: ClassNo,
        /// The class above.
        parent: ClassNo,
    },
    /// `selector SELECTOR ARITY`: a new selector.
    AddSelector {
        /// The selector.
        selector: SelNo,
        /// How many arguments it takes.
        arity: Arity,
    },
    /// `forget SELECTOR`: a selector goes.
    DropSelector {
        /// The selector that goes.
        selector: SelNo,
    },
    /// `define SELECTOR CLASS .. -> BODY`: the selector gets this body at these classes.
    Define {
        /// The selector.
        selector: SelNo,
        /// The classes, one for each argument.
        classes: Tuple,
        /// The body that answers there from now on.
        body: BodyNo,
    },
    /// `undefine SELECTOR CLASS ..`: the selector loses its body at these classes.
    Undefine {
        /// The selector.
        selector: SelNo,
        /// The classes, one for each argument.
        classes: Tuple,
    },
    /// `begin`: the edits up to `commit` are one batch.
    Begin,
    /// `commit`: the end of a batch.
    Commit,
    /// `phase`: the next phase begins.
    Phase,
    /// `caller CALLER`: the calls of this caller follow.
    Caller {
        /// The caller, from 1 to 256.
        caller: u16,
    },
    /// `call SELECTOR CLASS ..`: the selector is sent to these classes.
    Call {
        /// What is asked.
        query: Query,
    },
    /// `pin`: the caller keeps the version that it sees.
    Pin,
    /// `unpin`: the caller keeps no version any more.
    Unpin,
    /// `end`: the last line of a script.
    End,
}

impl Line {
    /// What holds of every line: its numbers that are no names have at most 16 bits, and are in range but for a caller's,
    /// which may be any. It does nothing: a caller whose reasoning needs this calls it.
    pub fn law(&self)
        ensures short { IsTrue (is_short self.now) }
        ensures in_range { ((caller : ℕ) → self.now ≢ Line.Caller caller) → IsTrue (is_in_range self.now) }
    {
        match self {
            Line::AddSelector { arity, .. } => {
                let _ = arity.number();
            }
            Line::Define { classes, .. } => {
                let _ = classes.arity();
            }
            Line::Undefine { classes, .. } => {
                let _ = classes.arity();
            }
            Line::Caller { caller } => {
                let _caller = *caller;
            }
            Line::Call { query } => query.law(),
            _ => {}
        }
    }
}

/// A line of a caller.
#[derive(Clone, Copy, Debug)]
pub enum CallerLine {
    /// A call.
    Call {
        /// What is asked.
        query: Query,
    },
    /// The caller keeps the version that it sees.
    Pin,
    /// The caller keeps no version any more.
    Unpin,
}
