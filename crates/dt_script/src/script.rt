use crate::line::CallerLine;
use crate::name_book::NameBook;
use dt_definitions::Batch;
use std::marker::Model;

/// A caller in a phase, and its lines.
#[derive(Debug, Drop)]
pub struct Part {
    /// The caller, from 1 to 256.
    pub caller: u16,
    /// Its lines, in its order.
    pub lines: Vec<CallerLine>,
}

impl Model for Part {
    ghost use Rattle.dt_script.specs.Script as shown;

    ghost Value = { shown.Part };

    ghost view = { λ p. record { caller = p.caller; lines = p.lines.items } };
}

/// A phase of a script: its batches of edits, which come first, and its callers.
#[derive(Debug, Drop)]
pub struct Phase {
    /// Its batches, in their order; an edit outside a batch is a batch of its own.
    pub edits: Vec<Batch>,
    /// Its callers, each once, in their order.
    pub callers: Vec<Part>,
}

impl Model for Phase {
    ghost use Rattle.dt_script.specs.Script as shown;

    ghost Value = { shown.Phase };

    ghost view = { λ p. record { edits = p.edits.items; callers = p.callers.items } };
}

/// A script: the names in it, and its phases.
#[derive(Drop)]
pub struct Script {
    /// The names of its classes, selectors and bodies, whose numbers its lines have.
    pub names: NameBook,
    /// Its phases, in their order; there is at least one.
    pub phases: Vec<Phase>,
}

impl Model for Script {
    ghost use Rattle.dt_script.specs.Script as shown;

    ghost Value = { shown.Script };

    ghost view = { λ s. record { names = s.names; phases = s.phases.items } };
}
