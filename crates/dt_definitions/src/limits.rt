/// How many definitions a program may have.
pub const DEFINITIONS: u32 = 65_536;
