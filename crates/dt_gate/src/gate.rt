use crate::meaning::Meaning;
use std::collections::LinkedList;

/// Where a root stands in its life.
pub enum Standing {
    /// No reader is inside, and the author may lay its words.
    Free,
    /// The version word names it.
    Now,
    /// Another root was published after it; this many entries were made into it.
    Old(u64),
}

/// The words of a free root that the author has laid and that are still kept as laid.
pub struct Laid {
    /// How many have left.
    pub exits: Option<u64>,
    /// The version.
    pub version: Option<u64>,
    /// The number of the top page.
    pub top: Option<u64>,
}

/// A root as the author knows it: two of its record words, where it stands, and what is kept as laid.
///
/// Its third record word, the exits, stands beside the author, since readers raise it.
pub struct Root {
    /// The version that it holds.
    pub version: u64,
    /// The number of its top page.
    pub top: u64,
    /// Where it stands in its life.
    pub standing: Standing,
    /// What was laid in it.
    pub laid: Laid,
}

/// What a reader that is inside a root may rely on: the words as it found them.
///
/// Only the words of the pages that the top page reaches are promised to stay.
pub struct Frozen {
    /// The words of all pages, one page behind the other.
    pub words: LinkedList<u64>,
    /// The root's version.
    pub version: u64,
    /// The root's top page.
    pub top: u64,
}

/// Where a seat stands. The first three are the stages of a reader seat.
pub enum Stage {
    /// The reader is outside.
    Out,
    /// The reader has looked, and found room to enter.
    Near,
    /// The reader is inside a root.
    In { root: u64, frozen: Frozen },
    /// The seat is a note, which carries a history and never enters.
    Note,
    /// The seat was given back, and counts for nothing.
    Spent,
}

/// A reader seat or a note, with what it knows.
pub struct Seat<M: Meaning> {
    /// Where it stands.
    pub stage: Stage,
    /// The history that it has seen.
    pub history: LinkedList<M::Item>,
    /// The versions that it entered, in order.
    pub entered: LinkedList<u64>,
    /// Of each look that found the limit reached, the version and the number of entries.
    pub worn: LinkedList<(u64, u64)>,
    /// The two histories of the last seat that was given back to it: its own then, and that seat's.
    pub joined: (LinkedList<M::Item>, LinkedList<M::Item>),
}

/// What the author alone writes, and so knows: all but the entry count and the exits of the roots.
pub struct Author<M: Meaning> {
    /// The root that the version word names.
    pub current: u64,
    /// All roots, by number.
    pub roots: LinkedList<Root>,
    /// The words of all pages, one page behind the other.
    pub words: LinkedList<u64>,
    /// The author's history: all that was published.
    pub history: LinkedList<M::Item>,
    /// How many reader seats are out.
    pub out: u64,
    /// The old roots that the sweep has found held.
    pub held: LinkedList<u64>,
    /// How many reader seats were out as the sweep began.
    pub sweep: u64,
    /// Of each poll, the root and the exits read.
    pub polls: LinkedList<(u64, u64)>,
    /// Of each reader seat that was taken back, the versions that it entered.
    pub taken: LinkedList<LinkedList<u64>>,
    /// Of each reader seat that was taken back, its worn looks.
    pub worn: LinkedList<LinkedList<(u64, u64)>>,
    /// The two histories of the last seat that was given back to the author: the author's then, and that seat's.
    pub joined: (LinkedList<M::Item>, LinkedList<M::Item>),
}

/// The whole machine between two steps: the author, the seats, and what both change.
pub struct Gate<M: Meaning> {
    /// The entry count in the version word.
    pub entries: u64,
    /// How many readers have left each root, by number.
    pub exits: LinkedList<u64>,
    /// The author.
    pub author: Author<M>,
    /// All seats and notes that were ever given out.
    pub seats: LinkedList<Seat<M>>,
}
