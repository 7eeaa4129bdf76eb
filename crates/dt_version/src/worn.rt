/// The current version was entered as often as the limit says, or more; it comes again until the next version is published.
#[derive(Clone, Copy, Debug, PartialEq, Eq)]
pub struct Worn {
    /// How many entries the look found.
    pub entries: u32,
}
