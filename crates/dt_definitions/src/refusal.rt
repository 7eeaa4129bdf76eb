ghost use Rattle.std.specs.Prelude.{◌≡◌, ◌<◌, ◌≤◌};
ghost use Rattle.dt_definitions.specs.RefusalWords.{number_of, word_of, class_of};

use crate::why::{ApplyFault, BatchFault, Why};
use dt_graph::ClassNo;
use std::error::Error;
use std::fmt;

impl Why {
    /// The number of the refusal, from 1 to 15. 9 is of no edit.
    pub fn number(self) -> u8
        ensures { result ≡ number_of self }
    {
        match self {
            Why::ClassExists => 1,
            Why::ClassUnknown { .. } => 2,
            Why::ParentTwice { .. } => 3,
            Why::TooManyParents => 4,
            Why::HasSubclasses { .. } => 5,
            Why::LinkExists => 6,
            Why::LinkUnknown => 7,
            Why::Cycle => 8,
            Why::SelectorExists => 10,
            Why::SelectorUnknown => 11,
            Why::ArityDiffers => 12,
            Why::NoDefinition => 13,
            Why::HasDefinitions => 14,
            Why::DefinitionsFull => 15,
        }
    }

    /// The word of the refusal, as it is printed.
    pub fn word(&self) -> &'static str
        ensures { result.now ≡ word_of self.now }
    {
        match self {
            Why::ClassExists => "class-exists",
            Why::ClassUnknown { .. } => "class-unknown",
            Why::ParentTwice { .. } => "parent-twice",
            Why::TooManyParents => "too-many-parents",
            Why::HasSubclasses { .. } => "has-subclasses",
            Why::LinkExists => "link-exists",
            Why::LinkUnknown => "link-unknown",
            Why::Cycle => "cycle",
            Why::SelectorExists => "selector-exists",
            Why::SelectorUnknown => "selector-unknown",
            Why::ArityDiffers => "arity-differs",
            Why::NoDefinition => "no-definition",
            Why::HasDefinitions => "has-definitions",
            Why::DefinitionsFull => "definitions-full",
        }
    }

    /// The class that the refusal is about; `None` where its word tells all.
    pub fn class(self) -> Option<ClassNo>
        ensures { result ≡ class_of self }
    {
        match self {
            Why::ClassUnknown { class } => Some(class),
            Why::ParentTwice { class } => Some(class),
            Why::HasSubclasses { class } => Some(class),
            _ => None,
        }
    }
}

impl fmt::Display for Why {
    fn fmt<W: fmt::Write>(&self, f: &mut fmt::Formatter<W>) -> fmt::Result {
        match self.class() {
            Some(class) => write!(f, "{} {}", self.word(), class.number()),
            None => write!(f, "{}", self.word()),
        }
    }
}

impl Error for Why {}

impl fmt::Display for ApplyFault {
    fn fmt<W: fmt::Write>(&self, f: &mut fmt::Formatter<W>) -> fmt::Result {
        match self {
            ApplyFault::Refused { why } => write!(f, "the edit is refused: {why}"),
            ApplyFault::NoMemory => write!(f, "no memory was found"),
        }
    }
}

impl Error for ApplyFault {}

impl fmt::Display for BatchFault {
    fn fmt<W: fmt::Write>(&self, f: &mut fmt::Formatter<W>) -> fmt::Result {
        match self {
            BatchFault::Refused { at, why } => write!(f, "edit {at} is refused: {why}"),
            BatchFault::NoMemory => write!(f, "no memory was found"),
        }
    }
}

impl Error for BatchFault {}
