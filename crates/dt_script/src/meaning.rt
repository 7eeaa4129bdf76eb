ghost use Rattle.std.specs.Prelude.{◌≡◌};
ghost use Rattle.dt_script.specs.ScriptBuilder.{meaning_of};

use crate::line::{CallerLine, Line};
use dt_definitions::Edit;

/// What a line gives to the script that it is in.
#[derive(Drop)]
pub enum Meaning {
    Edit { edit: Edit },
    Begin,
    Commit,
    Phase,
    Caller { caller: u16 },
    CallerLine { line: CallerLine },
    Nothing,
}

impl Meaning {
    /// What the line gives.
    pub fn of(line: Line) -> Meaning
        ensures { result ≡ meaning_of line }
    {
        match line {
            Line::AddClass { class, parents } => Meaning::Edit {
                edit: Edit::AddClass { class, parents },
            },
            Line::DropClass { class } => Meaning::Edit {
                edit: Edit::DropClass { class },
            },
            Line::Link { class, parent } => Meaning::Edit {
                edit: Edit::Link { class, parent },
            },
            Line::Unlink { class, parent } => Meaning::Edit {
                edit: Edit::Unlink { class, parent },
            },
            Line::AddSelector { selector, arity } => Meaning::Edit {
                edit: Edit::AddSelector { selector, arity },
            },
            Line::DropSelector { selector } => Meaning::Edit {
                edit: Edit::DropSelector { selector },
            },
            Line::Define {
                selector,
                classes,
                body,
            } => Meaning::Edit {
                edit: Edit::Define {
                    selector,
                    classes,
                    body,
                },
            },
            Line::Undefine { selector, classes } => Meaning::Edit {
                edit: Edit::Undefine { selector, classes },
            },
            Line::Begin => Meaning::Begin,
            Line::Commit => Meaning::Commit,
            Line::Phase => Meaning::Phase,
            Line::Caller { caller } => Meaning::Caller { caller },
            Line::Call { query } => Meaning::CallerLine {
                line: CallerLine::Call { query },
            },
            Line::Pin => Meaning::CallerLine {
                line: CallerLine::Pin,
            },
            Line::Unpin => Meaning::CallerLine {
                line: CallerLine::Unpin,
            },
            Line::Header | Line::End => Meaning::Nothing,
        }
    }
}
