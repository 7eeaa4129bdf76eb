/// The greatest number of bytes of a script.
pub const SCRIPT_BYTES: usize = 16_777_216;

/// The greatest number of callers.
pub const CALLERS: u16 = 256;
