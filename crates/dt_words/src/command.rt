use crate::limits::Limits;

/// The least number of classes of a generated script.
pub const LEAST_GENERATED_CLASSES: u16 = 2;

/// The greatest number of classes of a generated script.
pub const GENERATED_CLASSES: u16 = 2_048;

/// The greatest number of selectors of a generated script.
pub const GENERATED_SELECTORS: u16 = 4_096;

/// The kind of table that a run looks calls up in.
#[derive(Clone, Copy, Debug, PartialEq, Eq)]
pub enum Table {
    /// `sti`: selector table indexing.
    Sti,
    /// `colour`: selector colouring.
    Colour,
    /// `row`: row displacement.
    Row,
    /// `mrd`: multiple row displacement.
    Mrd,
}

/// What a command line asks for.
#[derive(Debug, PartialEq, Eq, Drop)]
pub enum Command {
    /// `run`: perform the script on standard input.
    Run {
        /// The kind of table.
        table: Table,
        /// What the run is limited by.
        limits: Limits,
    },
    /// `gen`: make a script, perform it, and print its summary.
    Gen {
        /// The kind of table.
        table: Table,
        /// The number that the script is drawn from, of 32 bits.
        number: u32,
        /// How many classes the script has, from [`LEAST_GENERATED_CLASSES`] to [`GENERATED_CLASSES`].
        classes: u16,
        /// How many selectors the script has, from 1 to [`GENERATED_SELECTORS`].
        selectors: u16,
    },
}
