use dt_scratch::Query;

/// The turn of a row that a batch touches.
#[derive(Clone, Copy, Debug)]
pub(crate) struct Turn {
    // A query that begins with the row's prefix.
    pub(crate) query: Query,
    // How long the prefix is.
    pub(crate) depth: usize,
    // The key under which it was kept, if it was a row.
    pub(crate) old: Option<usize>,
    // The key under which it is kept, if it is a row.
    pub(crate) new: Option<usize>,
}
