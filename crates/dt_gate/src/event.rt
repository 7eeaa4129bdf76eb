use crate::meaning::Meaning;

/// A record word of a root.
pub enum RecordWord {
    /// How many have left.
    Exits,
    /// The version.
    Version,
    /// The number of the top page.
    Top,
}

/// A word that a reader inside a root may read.
pub enum ReadWord {
    /// The root's version.
    Version,
    /// The root's top page.
    Top,
    /// The word at a place of a page that the top page reaches.
    Page {
        /// The number of the page.
        page: u64,
        /// The place in the page, below 512.
        at: u64,
    },
}

/// Who gives a note out or takes one back.
pub enum Holder {
    /// The author.
    Author,
    /// The reader of this seat.
    Reader(u64),
}

/// One atomic step. `Access` says what it does to the words of the store.
pub enum Event<M: Meaning> {
    /// A reader loads the version word, and comes near where the entries are below the limit.
    Look {
        /// The number of the seat.
        seat: u64,
    },
    /// A reader that is near adds 1 to the version word, and is inside the root that it names.
    Enter {
        /// The number of the seat.
        seat: u64,
    },
    /// A reader inside a root loads a word of it.
    Read {
        /// The number of the seat.
        seat: u64,
        /// The word that is read.
        word: ReadWord,
    },
    /// A reader adds 1 to the exits of its root, and is out.
    Leave {
        /// The number of the seat.
        seat: u64,
    },
    /// The author stores a word of a page that no live root reaches.
    Fill {
        /// The number of the page.
        page: u64,
        /// The place in the page, below 512.
        at: u64,
        /// What is stored.
        word: u64,
    },
    /// The author stores a record word of a free root.
    Lay {
        /// The number of the root.
        root: u64,
        /// Which record word.
        word: RecordWord,
        /// What is stored.
        value: u64,
    },
    /// The author swaps the version word to a root that was laid: a new version is current.
    Publish {
        /// The number of the root.
        root: u64,
        /// What is last in the history from now on.
        item: M::Item,
    },
    /// The author loads the exits of an old root, and frees it where all that entered have left.
    Poll {
        /// The number of the root.
        root: u64,
    },
    /// The author gives out a reader seat.
    SeatOut,
    /// The same for a note, which the author or a reader gives out.
    NoteOut {
        /// Who gives it out.
        giver: Holder,
    },
    /// A reader seat that is out is given back to the author.
    SeatBack {
        /// The number of the seat.
        seat: u64,
    },
    /// The same for a note, to the author or a reader.
    NoteBack {
        /// The number of the note.
        note: u64,
        /// Who takes it back.
        taker: Holder,
    },
    /// The taker of a seat or note learns that both histories were prefixes of the one that it has now.
    Tell {
        /// Who is told.
        taker: Holder,
    },
}
