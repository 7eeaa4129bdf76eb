ghost use Rattle.std.specs.Prelude.{◌≡◌};
ghost use Rattle.dt_run.specs.Performing.{stamped};

use crate::log::Stamped;
use dt_definitions::Program;
use dt_scratch::{Query, Reply, resolve};

// A version, and the program at it, without a table.
#[derive(Drop)]
pub(crate) struct Snapshot {
    // How many batches had been accepted.
    pub(crate) version: u64,
    // The program after them.
    pub(crate) program: Program,
}

impl Snapshot {
    // The reply at this version, by look-up from scratch.
    pub(crate) fn answer(&self, query: &Query) -> Stamped
        ensures { result ≡ stamped self.now query.now }
    {
        let reply: Reply = resolve(&self.program, query);
        Stamped {
            version: self.version,
            reply,
        }
    }
}
