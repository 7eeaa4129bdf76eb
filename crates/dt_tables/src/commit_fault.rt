use dt_definitions::{BatchFault, Why};
use dt_graph::NoMemory;
use dt_propagate::ChangeFault;
use thiserror::Error;

/// Why a batch wasn't committed. The program and its table are as they were. The first of these that holds, in this
/// order, is answered; but want of memory may be answered whatever else holds.
#[derive(Clone, Copy, Debug, PartialEq, Eq, Error)]
pub enum CommitFault {
    /// The edit at this place, from 1, is the first that is refused.
    #[error("the edit at place {at} is refused: {why}")]
    Refused { at: u32, why: Why },
    /// The new program has more than [`CELLS`](dt_propagate::CELLS) cells that are understood.
    #[error("more cells than a table can have")]
    CellsFull,
    /// The new program has more than [`ROWS`](dt_propagate::ROWS) rows.
    #[error("more rows than a table can have")]
    RowsFull,
    /// Memory was wanted, and none was found.
    #[error("no memory")]
    NoMemory,
}

impl From<NoMemory> for CommitFault {
    ghost use Rattle.std.specs.Prelude.{◌≡◌};
    ghost use Rattle.dt_tables.specs.declared.commit_fault.CommitFault.{CommitFault};

    ghost from_gives = { λ _ fault. fault ≡ CommitFault.NoMemory };

    fn from(_: NoMemory) -> CommitFault {
        CommitFault::NoMemory
    }
}

impl From<BatchFault> for CommitFault {
    ghost use Rattle.std.specs.Prelude.{◌≡◌};
    ghost use Rattle.dt_tables.specs.Commit.{by_batch};

    ghost from_gives = { λ batch fault. fault ≡ by_batch batch };

    fn from(fault: BatchFault) -> CommitFault {
        match fault {
            BatchFault::Refused { at, why } => CommitFault::Refused { at, why },
            BatchFault::NoMemory => CommitFault::NoMemory,
        }
    }
}

impl From<ChangeFault> for CommitFault {
    ghost use Rattle.std.specs.Prelude.{◌≡◌};
    ghost use Rattle.dt_tables.specs.Commit.{by_change};

    ghost from_gives = { λ change fault. fault ≡ by_change change };

    fn from(fault: ChangeFault) -> CommitFault {
        match fault {
            ChangeFault::CellsFull => CommitFault::CellsFull,
            ChangeFault::RowsFull => CommitFault::RowsFull,
            ChangeFault::NoMemory => CommitFault::NoMemory,
        }
    }
}
