//! The words of a command line, and the command that they write.
#![tactic(auto)]

mod arg_words;
mod command;
mod limits;
mod number;
mod options;
mod reading;
mod words_fault;

pub use arg_words::ArgWords;
pub use command::{
    Command, GENERATED_CLASSES, GENERATED_SELECTORS, LEAST_GENERATED_CLASSES, Table,
};
pub use limits::{
    ENTRIES, ENTRIES_UNLESS_GIVEN, LEAST_PAGES, Limits, PAGES, PAGES_UNLESS_GIVEN, READERS,
    READERS_UNLESS_GIVEN, VERSIONS,
};
pub use reading::read_words;
pub use words_fault::WordsFault;
