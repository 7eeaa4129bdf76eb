ghost use Rattle.std.specs.Prelude.{◌<◌};

use crate::edit_kind::EditKind;
use crate::figures::Figure;
use crate::query_kind::QueryKind;
use std::fmt;

/// The unit of a metric's figures.
#[derive(Clone, Copy)]
pub enum Unit {
    /// Thousand-millionths of a second.
    Nanoseconds,
    /// Thousands of nanoseconds.
    Microseconds,
    /// Millions of nanoseconds.
    Milliseconds,
    /// Millions of bytes.
    Megabytes,
    /// So many for each edit.
    Each,
    /// No unit: the figures are whole numbers.
    Number,
}

impl Unit {
    /// The word that is printed.
    pub fn word(self) -> &'static str {
        match self {
            Unit::Nanoseconds => "ns",
            Unit::Microseconds => "us",
            Unit::Milliseconds => "ms",
            Unit::Megabytes => "MB",
            Unit::Each => "each",
            Unit::Number => "number",
        }
    }

    /// The figure of this count: of whole numbers itself, else of thousandths.
    pub fn figure(self, count: u64) -> Figure {
        match self {
            Unit::Number => Figure::Whole { count },
            _ => Figure::Thousandths { count },
        }
    }

    /// How many nanoseconds a unit of time is; 1 where it is no unit of time.
    pub fn nanoseconds(self) -> u32
        ensures { 0 < result }
    {
        match self {
            Unit::Microseconds => 1_000,
            Unit::Milliseconds => 1_000_000,
            Unit::Nanoseconds | Unit::Megabytes | Unit::Each | Unit::Number => 1,
        }
    }
}

/// What is measured.
#[derive(Clone, Copy, PartialEq)]
pub enum Metric {
    /// A look-up from scratch.
    Resolve { kind: QueryKind },
    /// Whether a class is below another.
    IsBelow,
    /// An edit of a program.
    Edit { kind: EditKind },
    /// A batch of which the last edit is refused.
    RefusedBatch,
    /// A batch that is accepted, and then undone.
    TriedBatch,
    /// A copy of the program.
    Copy,
    /// The program is made by its batches.
    Load,
    /// The memory of the process after the first load.
    Memory,
    /// A link of a graph.
    Link,
    /// A link of a graph goes.
    Unlink,
    /// A class of a graph, with its parents.
    Add,
    /// A class of a graph goes.
    Drop,
    /// A class in the middle of a chain goes, where nothing is below it any more.
    DropMiddle,
    /// That class, with its parent.
    AddMiddle,
    /// The classes below a class.
    Descendants,
    /// A look-up over a table.
    Find { kind: QueryKind },
    /// The changes of an edit are found.
    Changes { kind: EditKind },
    /// A batch of one edit is committed: to the program, and to its table.
    Commit { kind: EditKind },
    /// How many cells an edit changes.
    ChangeCount { kind: EditKind },
    /// How many answers are found to find these cells.
    StepCount { kind: EditKind },
    /// The program and its table are made by its batches.
    LoadTables,
    /// The cells of a table for queries of one class that have an answer.
    CellsUsed,
    /// The cells of a table for queries of one class up to the last that has an answer.
    CellsSpanned,
    /// The greatest place of a selector in the part for queries of one class, counted from 1.
    HighestPlace,
    /// The cells of the master array that are not 0.
    MasterUsed,
    /// The cells of the master array up to the last that is not 0.
    MasterSpanned,
    /// The greatest place of a selector in the master array, counted from 1.
    MasterHighest,
    /// What the answers of a round come to, the same in each round.
    Mix,
}

impl Metric {
    // The words that are printed, but for those of a kind.
    fn words(self) -> &'static str {
        match self {
            Metric::Resolve { .. } => "resolve",
            Metric::IsBelow => "is_below",
            Metric::Edit { .. } => "edit",
            Metric::RefusedBatch => "batch of 500 refused at its last",
            Metric::TriedBatch => "batch of 500 tried and undone",
            Metric::Copy => "copy",
            Metric::Load => "load",
            Metric::Memory => "memory after load",
            Metric::Link => "link",
            Metric::Unlink => "unlink",
            Metric::Add => "add",
            Metric::Drop => "drop",
            Metric::DropMiddle => "drop in the middle",
            Metric::AddMiddle => "add in the middle",
            Metric::Descendants => "descendants",
            Metric::Find { .. } => "find",
            Metric::Changes { .. } => "changes",
            Metric::Commit { .. } => "commit",
            Metric::ChangeCount { .. } => "number of changes",
            Metric::StepCount { .. } => "number of steps",
            Metric::LoadTables => "load tables",
            Metric::CellsUsed => "cells used",
            Metric::CellsSpanned => "cells spanned",
            Metric::HighestPlace => "highest place",
            Metric::MasterUsed => "master cells used",
            Metric::MasterSpanned => "master cells spanned",
            Metric::MasterHighest => "master highest place",
            Metric::Mix => "mix",
        }
    }

    // The words of the kind of the look-ups or edits that are measured, where the others don't say it.
    fn kind_words(self) -> Option<&'static str> {
        match self {
            Metric::Resolve { kind } | Metric::Find { kind } => Some(kind.words()),
            Metric::Edit { kind }
            | Metric::Changes { kind }
            | Metric::Commit { kind }
            | Metric::ChangeCount { kind }
            | Metric::StepCount { kind } => Some(kind.words()),
            _ => None,
        }
    }

    /// The unit of the figures.
    pub fn unit(self) -> Unit {
        match self {
            Metric::Resolve { .. } | Metric::Find { .. } | Metric::IsBelow => Unit::Nanoseconds,
            Metric::ChangeCount { .. } | Metric::StepCount { .. } => Unit::Each,
            Metric::Load | Metric::LoadTables => Unit::Milliseconds,
            Metric::Memory => Unit::Megabytes,
            Metric::CellsUsed | Metric::CellsSpanned | Metric::HighestPlace => Unit::Number,
            Metric::MasterUsed | Metric::MasterSpanned | Metric::MasterHighest => Unit::Number,
            Metric::Mix => Unit::Number,
            _ => Unit::Microseconds,
        }
    }
}

impl fmt::Display for Metric {
    fn fmt<W: fmt::Write>(&self, f: &mut fmt::Formatter<W>) -> fmt::Result {
        let words = self.words();
        match self.kind_words() {
            Some(kind) => write!(f, "{words} {kind}"),
            None => f.write_str(words),
        }
    }
}
