use dt_graph::NoMemory;
use std::io;

/// Why a run ended early.
#[derive(Clone, Copy)]
pub enum Fault {
    /// Memory was wanted, and none was found.
    NoMemory,
    /// The clock or standard output failed.
    Outside,
    /// The store and the plain words came to different answers.
    Differs,
}

impl From<NoMemory> for Fault {
    fn from(_: NoMemory) -> Fault {
        Fault::NoMemory
    }
}

impl From<io::Error> for Fault {
    fn from(error: io::Error) -> Fault {
        if error.kind() == io::ErrorKind::OutOfMemory {
            Fault::NoMemory
        } else {
            Fault::Outside
        }
    }
}
