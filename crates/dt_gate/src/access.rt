/// What one atomic step does to the words of the store. Each is of one word, and sequentially consistent.
pub enum Access {
    /// Finds the word, and leaves it.
    Load {
        /// The number of the word.
        word: u64,
    },
    /// Finds the word, and adds 1 to it.
    Add {
        /// The number of the word.
        word: u64,
    },
    /// Puts a value in the word's place.
    Store {
        /// The number of the word.
        word: u64,
        /// What is stored.
        value: u64,
    },
    /// Finds the word, and puts a value in its place.
    Swap {
        /// The number of the word.
        word: u64,
        /// What is stored.
        value: u64,
    },
}
