/// How many selector numbers there are: they go from 0 to 4,095.
pub const SELECTORS: u16 = 4096;

/// How many body numbers there are: every `u16` is one.
pub const BODIES: u32 = 65_536;

/// The greatest limit that a list of names may have.
pub const NAMES: u32 = 65_536;
