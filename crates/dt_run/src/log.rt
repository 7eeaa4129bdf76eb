use dt_definitions::Why;
use dt_scratch::Reply;
use std::marker::Model;

/// A reply, and the version of the program that gave it.
#[derive(Clone, Copy, Debug, PartialEq, Eq)]
pub struct Stamped {
    /// How many batches had been accepted.
    pub version: u64,
    /// The reply at that version.
    pub reply: Reply,
}

/// What became of a batch of edits.
#[derive(Clone, Copy, Debug, PartialEq, Eq)]
pub enum EditLine {
    /// It was accepted, and made this version.
    Accepted { version: u64 },
    /// The edit in this place, from 1, was refused, and so nothing changed.
    Refused { at: u32, why: Why },
    /// There may be no further version.
    VersionsFull,
    /// The program would have more understood queries than it may have.
    CellsFull,
    /// The program would have more rows than it may have.
    RowsFull,
    /// The version would need more pages than are free; both are counted in pages.
    NoPages { need: u32, free: u32 },
}

/// What became of a line of a caller.
#[derive(Clone, Copy, Debug, PartialEq, Eq)]
pub enum CallLine {
    /// The call was answered.
    Called { stamped: Stamped },
    /// The call found as many entries of its version as there may be.
    CallWorn { entries: u32 },
    /// The caller keeps this version from here on.
    PinnedAt { version: u64 },
    /// The pin found as many entries of its version as there may be.
    PinWorn { entries: u32 },
    /// The caller keeps no version any more.
    Unpinned,
}

/// The lines of a caller in a phase.
#[derive(Debug, Drop)]
pub struct PartLog {
    /// The caller, from 1.
    pub caller: u16,
    /// Its lines, in its order.
    pub lines: Vec<CallLine>,
}

impl Model for PartLog {
    ghost use Rattle.dt_run.specs.Log as shown;

    ghost Value = { shown.PartLog };

    ghost view = { λ p. record { caller = p.caller; lines = p.lines.items } };
}

/// What happened in a phase.
#[derive(Debug, Drop)]
pub struct PhaseLog {
    /// The version before the phase.
    pub from: u64,
    /// The version after it.
    pub to: u64,
    /// A line for each of its batches.
    pub edits: Vec<EditLine>,
    /// The lines of each of its callers.
    pub callers: Vec<PartLog>,
}

impl Model for PhaseLog {
    ghost use Rattle.dt_run.specs.Log as shown;

    ghost Value = { shown.PhaseLog };

    ghost view = { λ p. record { from = p.from; to = p.to; edits = p.edits.items; callers = p.callers.items } };
}

/// What happened when a script was performed.
#[derive(Debug, Drop)]
pub struct Log {
    /// What happened in each phase.
    pub phases: Vec<PhaseLog>,
    /// The last version.
    pub last: u64,
}

impl Model for Log {
    ghost use Rattle.dt_run.specs.Log as shown;

    ghost Value = { shown.Log };

    ghost view = { λ l. record { phases = l.phases.items; last = l.last } };
}
