ghost use Rattle.std.specs.Prelude.{◌≡◌, ◌<◌, ◌%◌};

// How the tree of a store lies: page 1 is its top, pages 2 to 129 are of the middle level, and from page 130 on come the leaves.

/// How many readers a store is made for.
pub const READERS: u16 = 4;

/// The top page.
pub const TOP: u32 = 1;

/// The first page of the middle level.
pub const MIDDLE: u32 = 2;

/// The first leaf.
pub const LEAF: u32 = 130;

/// How many words lie before those of page 0.
pub const BEFORE: u64 = 19;

/// The place in a page of this address.
pub fn place(address: u64) -> u16
    ensures { result < 512 }
{
    (address % 512) as u16
}

/// The word of a leaf at this place.
pub fn leaf_word(leaf: u32, at: u16) -> u64
    ensures { result < 128 }
{
    (leaf % 64 + u32::from(at) % 64) as u64
}
