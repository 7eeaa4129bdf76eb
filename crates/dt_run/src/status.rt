ghost use Rattle.std.specs.Prelude.{◌≡◌};
ghost use Rattle.dt_run.specs.Status.{number_of};

/// How a run ended.
#[derive(Clone, Copy, Debug, PartialEq, Eq)]
pub enum Status {
    /// The script was performed, and its log was printed whole.
    Done,
    /// The words ask for no run. The source wasn't read.
    Usage,
    /// The source's bytes aren't a script.
    Script,
    /// The source failed.
    ReadFault,
    /// The sink failed while the log was printed.
    WriteFault,
    /// Memory was wanted, and none was found.
    NoMemory,
}

impl Status {
    /// The number with which the program ends.
    pub fn number(self) -> u8
        ensures { result ≡ number_of self }
    {
        match self {
            Status::Done => 0,
            Status::Usage => 2,
            Status::Script => 3,
            Status::ReadFault => 4,
            Status::WriteFault => 5,
            Status::NoMemory => 6,
        }
    }
}
