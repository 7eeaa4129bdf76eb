use thiserror::Error;

/// Why the differences of two programs aren't answered. The first of these that holds, in this order, is answered; but
/// want of memory may be answered whatever else holds.
#[derive(Clone, Copy, Debug, PartialEq, Eq, Error)]
pub enum ChangeFault {
    /// The new program has more than [`CELLS`](crate::CELLS) cells that are understood.
    #[error("more cells than a table can have")]
    CellsFull,
    /// The new program has more than [`ROWS`](crate::ROWS) rows.
    #[error("more rows than a table can have")]
    RowsFull,
    /// Memory was wanted, and none was found.
    #[error("no memory")]
    NoMemory,
}
