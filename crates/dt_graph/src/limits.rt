/// How many class numbers there are: they go from 0 to 2,047.
pub const CLASSES: u16 = 2048;

/// How many parents a class may have at most.
pub const PARENTS: usize = 16;
