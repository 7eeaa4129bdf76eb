/// Where a root stands, as the author keeps it.
#[derive(Clone, Copy, Debug, PartialEq, Eq)]
pub enum Known {
    /// The root may be laid.
    Free,
    /// The root is current.
    Now,
    /// Another root was published after it, and this many entries were made into it.
    Old(u32),
}
