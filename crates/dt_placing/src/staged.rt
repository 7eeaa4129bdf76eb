/// The place word of a selector after a batch that is staged: its place + 1, or 0 where it has no place.
#[derive(Clone, Copy, Debug)]
pub struct StagedWord {
    /// The number of the selector.
    pub selector: u16,
    /// Its place word.
    pub word: u32,
}
