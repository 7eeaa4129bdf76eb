use thiserror::Error;

/// Why a text gives no script.
#[derive(Clone, Copy, Debug, PartialEq, Eq, Error)]
pub enum ScriptFault {
    /// The source failed.
    #[error("the source failed")]
    ReadFault,
    /// The source gave more bytes than a script may have.
    #[error("the source gave more bytes than a script may have")]
    TooLong,
    /// The first line isn't `dispatch 1`, or there is no line.
    #[error("there is no header")]
    NoHeader,
    /// The line is no line that may stand there.
    #[error("line {line} is malformed")]
    Malformed {
        /// The line's number, from 1.
        line: u32,
    },
    /// The line has a new name, and there are as many names of its kind as there may be.
    #[error("line {line} has a name more than there may be")]
    NamesFull {
        /// The line's number, from 1.
        line: u32,
    },
    /// There is no line `end`.
    #[error("there is no end")]
    NoEnd,
    /// Memory was wanted, and none was found.
    #[error("no memory")]
    NoMemory,
}
