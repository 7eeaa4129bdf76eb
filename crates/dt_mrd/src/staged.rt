/// The key of the row of a selector's empty prefix after a batch that is staged; `None` where the selector has no row.
#[derive(Clone, Copy, Debug)]
pub struct StagedRoot {
    /// The number of the selector.
    pub selector: u16,
    /// The key.
    pub key: Option<usize>,
}

/// What a stage leaves: the new keys of the selectors with a change, and the keys of rows that are none any more or were
/// laid anew under other keys.
#[derive(Debug, Drop)]
pub struct MrdStaged {
    /// The new keys.
    pub roots: Vec<StagedRoot>,
    /// The keys that are given up.
    pub gone: Vec<usize>,
}
