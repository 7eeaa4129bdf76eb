/// Where the root stands that is not current.
#[derive(Clone, Copy)]
pub enum Known {
    /// It may be laid.
    Free,
    /// It was current, and this many entries were made into it.
    Old(u32),
}
