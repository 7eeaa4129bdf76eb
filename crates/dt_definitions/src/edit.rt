ghost use Rattle.std.specs.Prelude.{◌≡◌, IfOk};
ghost use Rattle.dt_definitions.specs.Lawful.{IsInRange};

use crate::parents::Parents;
use crate::tuple::Tuple;
use dt_graph::{ClassNo, NoMemory};
use dt_selectors::{Arity, BodyNo, SelNo};

/// A change of a program.
#[derive(Debug, Drop)]
pub enum Edit {
    /// A new class with these parents.
    AddClass {
        /// The class.
        class: ClassNo,
        /// Its parents. More than 16 are refused when the edit is applied.
        parents: Parents,
    },
    /// A class goes.
    DropClass {
        /// The class that goes.
        class: ClassNo,
    },
    /// The class gets one more parent.
    Link {
        /// The class below.
        class: ClassNo,
        /// The class above.
        parent: ClassNo,
    },
    /// The class loses a parent.
    Unlink {
        /// The class below.
        class: ClassNo,
        /// The class above.
        parent: ClassNo,
    },
    /// A new selector with this arity.
    AddSelector {
        /// The selector.
        selector: SelNo,
        /// How many arguments it takes.
        arity: Arity,
    },
    /// A selector goes.
    DropSelector {
        /// The selector that goes.
        selector: SelNo,
    },
    /// The selector gets this body at these classes; the body that it had there is replaced.
    Define {
        /// The selector.
        selector: SelNo,
        /// The classes, one for each argument.
        classes: Tuple,
        /// The body that answers there from now on.
        body: BodyNo,
    },
    /// The selector loses its body at these classes.
    Undefine {
        /// The selector.
        selector: SelNo,
        /// The classes, one for each argument.
        classes: Tuple,
    },
}

impl Edit {
    // An equal edit.
    pub(crate) fn copy(&self) -> Result<Edit, NoMemory>
        ensures { IfOk result (λ edit. edit ≡ self.now) }
    {
        match self {
            Edit::AddClass { class, parents } => {
                let parents = parents.copy()?;
                Ok(Edit::AddClass {
                    class: *class,
                    parents,
                })
            }
            Edit::DropClass { class } => Ok(Edit::DropClass { class: *class }),
            Edit::Link { class, parent } => Ok(Edit::Link {
                class: *class,
                parent: *parent,
            }),
            Edit::Unlink { class, parent } => Ok(Edit::Unlink {
                class: *class,
                parent: *parent,
            }),
            Edit::AddSelector { selector, arity } => Ok(Edit::AddSelector {
                selector: *selector,
                arity: *arity,
            }),
            Edit::DropSelector { selector } => Ok(Edit::DropSelector {
                selector: *selector,
            }),
            Edit::Define {
                selector,
                classes,
                body,
            } => Ok(Edit::Define {
                selector: *selector,
                classes: *classes,
                body: *body,
            }),
            Edit::Undefine { selector, classes } => Ok(Edit::Undefine {
                selector: *selector,
                classes: *classes,
            }),
        }
    }

    /// The numbers of every edit are in range. It does nothing: a caller whose reasoning needs this calls it.
    pub fn law(&self)
        ensures { IsInRange self.now }
    {
        match self {
            Edit::AddClass { class, .. } => {
                let _ = class.number();
            }
            Edit::AddSelector { selector, arity } => {
                let _ = selector.number();
                let _ = arity.number();
            }
            Edit::Define { body, .. } => {
                let _ = body.number();
            }
            _ => {}
        }
    }
}
