/// How many cells a program may have that are other than not understood.
pub const CELLS: u32 = 4_194_304;

/// How many rows a program may have: a row is a selector with the first classes, none or more but not all, of one of its
/// understood queries.
pub const ROWS: u32 = 16_384;
