use dt_gate::{Author as AuthorRecord, Meaning, Seat};

/// The numbers that a store is made with, as views have them.
#[derive(Clone, Copy)]
pub struct Size {
    /// How many reader seats may be out.
    pub readers: u64,
    /// How many pages there are.
    pub pages: u64,
    /// At how many entries a look is worn.
    pub entries: u64,
}

/// What a seat at the table of a store knows. No value of it is made.
pub enum View<M: Meaning> {
    /// The author's seat: all that the author alone writes.
    Author {
        /// The store's numbers.
        size: Size,
        /// The author's record in the gate.
        author: AuthorRecord<M>,
    },
    /// A reader seat or a note.
    Reader {
        /// The store's numbers.
        size: Size,
        /// Its seat in the gate.
        seat: Seat<M>,
    },
    /// A seat that was given back.
    Gone,
}
