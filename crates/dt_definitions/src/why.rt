ghost use Rattle.std.specs.Prelude.{◌≡◌};
ghost use Rattle.dt_definitions.specs.Step.{why_of, fault_at};

use dt_graph::{ClassNo, GraphFault, NoMemory};
use dt_selectors::SelectorFault;

/// Why an edit is refused. Each edit tries its causes in a fixed order, and the first that holds is answered.
#[derive(Clone, Copy, Debug, PartialEq, Eq)]
pub enum Why {
    /// The class is live already.
    ClassExists,
    /// This class isn't live.
    ClassUnknown { class: ClassNo },
    /// This parent is named twice.
    ParentTwice { class: ClassNo },
    /// The class would have more than 16 parents.
    TooManyParents,
    /// The class is a parent of others, of which this is the lowest.
    HasSubclasses { class: ClassNo },
    /// The link is there already.
    LinkExists,
    /// The link isn't there.
    LinkUnknown,
    /// The parent is at or below the class.
    Cycle,
    /// The selector is live already.
    SelectorExists,
    /// The selector isn't live.
    SelectorUnknown,
    /// The selector takes another number of arguments.
    ArityDiffers,
    /// The definition isn't there.
    NoDefinition,
    /// A definition names the class, or defines the selector.
    HasDefinitions,
    /// The program has as many definitions as it may have, and this would be one more.
    DefinitionsFull,
}

/// Why an edit wasn't applied. The program is as it was.
#[derive(Clone, Copy, Debug, PartialEq, Eq)]
pub enum ApplyFault {
    /// The edit is refused.
    Refused { why: Why },
    /// Memory was wanted, and none was found.
    NoMemory,
}

/// Why a batch wasn't applied. The program is as it was.
#[derive(Clone, Copy, Debug, PartialEq, Eq)]
pub enum BatchFault {
    /// The edit at this place, from 1, is the first that is refused.
    Refused { at: u32, why: Why },
    /// Memory was wanted, and none was found.
    NoMemory,
}

impl From<GraphFault> for Why {
    ghost from_gives = { λ fault why. why ≡ why_of fault };

    fn from(fault: GraphFault) -> Why {
        match fault {
            GraphFault::ClassExists => Why::ClassExists,
            GraphFault::ClassUnknown { class } => Why::ClassUnknown { class },
            GraphFault::ParentTwice { class } => Why::ParentTwice { class },
            GraphFault::TooManyParents => Why::TooManyParents,
            GraphFault::HasSubclasses { class } => Why::HasSubclasses { class },
            GraphFault::LinkExists => Why::LinkExists,
            GraphFault::LinkUnknown => Why::LinkUnknown,
            GraphFault::Cycle => Why::Cycle,
        }
    }
}

impl From<Why> for ApplyFault {
    ghost use Rattle.std.specs.Prelude.{◌≡◌};
    ghost use Rattle.dt_definitions.specs.declared.why.ApplyFault.{ApplyFault};

    ghost from_gives = { λ why fault. fault ≡ ApplyFault.Refused why };

    fn from(why: Why) -> ApplyFault {
        ApplyFault::Refused { why }
    }
}

impl From<GraphFault> for ApplyFault {
    ghost use Rattle.std.specs.Prelude.{◌≡◌};
    ghost use Rattle.dt_definitions.specs.declared.why.ApplyFault.{ApplyFault};
    ghost use Rattle.dt_definitions.specs.Step.{why_of};

    ghost from_gives = { λ graph_fault fault. fault ≡ ApplyFault.Refused (why_of graph_fault) };

    fn from(fault: GraphFault) -> ApplyFault {
        ApplyFault::from(Why::from(fault))
    }
}

impl From<SelectorFault> for ApplyFault {
    ghost use Rattle.std.specs.Prelude.{◌≡◌};
    ghost use Rattle.dt_definitions.specs.declared.why.ApplyFault.{ApplyFault};
    ghost use Rattle.dt_definitions.specs.Step.{why_of_selector};

    ghost from_gives = { λ selector_fault fault. fault ≡ ApplyFault.Refused (why_of_selector selector_fault) };

    fn from(fault: SelectorFault) -> ApplyFault {
        match fault {
            SelectorFault::SelectorExists => ApplyFault::from(Why::SelectorExists),
            SelectorFault::SelectorUnknown => ApplyFault::from(Why::SelectorUnknown),
        }
    }
}

impl From<NoMemory> for ApplyFault {
    ghost use Rattle.std.specs.Prelude.{◌≡◌};
    ghost use Rattle.dt_definitions.specs.declared.why.ApplyFault.{ApplyFault};

    ghost from_gives = { λ _ fault. fault ≡ ApplyFault.NoMemory };

    fn from(_: NoMemory) -> ApplyFault {
        ApplyFault::NoMemory
    }
}

impl BatchFault {
    // The fault of a batch whose edit at this place has the fault.
    pub(crate) fn at(place: u32, fault: ApplyFault) -> BatchFault
        ensures { result ≡ fault_at place fault }
    {
        match fault {
            ApplyFault::Refused { why } => BatchFault::Refused { at: place, why },
            ApplyFault::NoMemory => BatchFault::NoMemory,
        }
    }
}
