use crate::arities::Arities;
use crate::image::FIRST_BLOCKS;

/// Where the selectors of one argument are placed.
#[derive(Clone, Copy)]
pub enum Singles {
    /// Their cells are rows in the master array, as those of the others.
    Along,
    /// Each has cells at its own number.
    Indexed,
    /// Each has a place, and so many cells lie between a place and the next: 2,048 where a place is a colour, 1 where it is
    /// a displacement.
    Placed { width: u32 },
}

/// By which rules the words of a kind are placed, and how many programs are played under it.
#[derive(Clone, Copy)]
pub struct Rules {
    /// Where the selectors of one argument are placed.
    pub singles: Singles,
    /// Selectors that take so many arguments or more have rows in the master array.
    pub least: u8,
    /// How many arguments the selectors take.
    pub arities: Arities,
    /// Which blocks of cells are looked at.
    pub blocks: [u32; 16],
    /// How many programs are played.
    pub programs: u16,
}

/// Selector colouring, for queries of one class alone.
pub const COLOURS: Rules = Rules {
    singles: Singles::Placed { width: 2048 },
    least: 5,
    arities: Arities::MostlyOne,
    blocks: FIRST_BLOCKS,
    programs: 40,
};

/// Row displacement, for queries of one class alone.
pub const ROWS: Rules = Rules {
    singles: Singles::Placed { width: 1 },
    least: 5,
    arities: Arities::MostlyOne,
    blocks: FIRST_BLOCKS,
    programs: 40,
};

/// Multiple row displacement for all queries.
pub const ALL_ALONG: Rules = Rules {
    singles: Singles::Along,
    least: 1,
    arities: Arities::OneToFour,
    blocks: FIRST_BLOCKS,
    programs: 8,
};

/// Selector table indexing, and multiple row displacement for queries of two classes and more. The blocks are those of the
/// selectors of a small program, and four others.
pub const BESIDE_INDEXED: Rules = Rules {
    singles: Singles::Indexed,
    least: 2,
    arities: Arities::HalfOne,
    blocks: [
        0, 1, 2, 3, 4, 63, 64, 77, 1000, 2048, 4094, 4095, 5, 62, 65, 4093,
    ],
    programs: 8,
};

/// Selector colouring, and multiple row displacement for queries of two classes and more.
pub const BESIDE_COLOURS: Rules = Rules {
    singles: Singles::Placed { width: 2048 },
    least: 2,
    arities: Arities::HalfOne,
    blocks: FIRST_BLOCKS,
    programs: 8,
};

/// Row displacement, and multiple row displacement for queries of two classes and more.
pub const BESIDE_ROWS: Rules = Rules {
    singles: Singles::Placed { width: 1 },
    least: 2,
    arities: Arities::HalfOne,
    blocks: FIRST_BLOCKS,
    programs: 8,
};
