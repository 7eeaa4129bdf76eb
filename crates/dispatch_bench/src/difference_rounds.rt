ghost use Rattle.std.specs.Prelude.{◌<◌};

use crate::edit_kind::EditKind;
use crate::figures::cost;
use crate::metric::Metric;
use crate::single_edits::SingleEdits;
use crate::sized_programs::{Difference, SizedPrograms};
use crate::stopwatch::{Stopwatch, put_cost};
use crate::table::Table;
use dt_definitions::{Batch, NoMemory};
use dt_trials::Fault;
use std::rt::Clock;

/// What the changes of some edits come to.
#[derive(Clone, Copy)]
pub struct Found {
    /// How many edits there are.
    pub edits: u32,
    /// How many cells they change.
    pub changes: u64,
    /// How many steps it took to find them.
    pub steps: u64,
    // How many nanoseconds.
    nanoseconds: u64,
}

impl Found {
    /// Nothing is found.
    pub fn none() -> Found {
        Found {
            edits: 0,
            changes: 0,
            steps: 0,
            nanoseconds: 0,
        }
    }

    // Counts one more edit.
    fn add(&mut self, difference: &Difference, nanoseconds: u64) {
        self.edits = self.edits.saturating_add(1);
        self.changes = self.changes.saturating_add(difference.changes.len() as u64);
        self.steps = self.steps.saturating_add(difference.steps);
        self.nanoseconds = self.nanoseconds.saturating_add(nanoseconds);
    }
}

// Applies the batch, and counts what it changes.
fn count_changes(
    programs: &mut SizedPrograms,
    batch: &Batch,
    found: &mut Found,
) -> Result<(), NoMemory> {
    if !programs.try_batch(batch)? {
        return Ok(());
    }
    if let Some(difference) = programs.difference(batch)? {
        found.add(&difference, 0);
        programs.accept(difference.sizes);
    }
    Ok(())
}

// Applies the batch, counts what it changes, and times the finding of these changes alone.
fn time_changes(
    rt: &impl Clock,
    programs: &mut SizedPrograms,
    batch: &Batch,
    found: &mut Found,
) -> Result<(), Fault> {
    if !programs.try_batch(batch)? {
        return Ok(());
    }
    let watch = Stopwatch::start(rt);
    if let Some(difference) = programs.difference(batch)? {
        found.add(&difference, watch.nanoseconds(rt)?);
        programs.accept(difference.sizes);
    }
    Ok(())
}

// Puts what was found into the table, for each edit, and into the mix.
fn put_found(table: &mut Table, kind: EditKind, found: Found) {
    if found.edits == 0 {
        return;
    }
    table.mix.add((found.changes % (1 << 32)) as u32);
    table.mix.add((found.steps % (1 << 32)) as u32);
    put_cost(
        table,
        Metric::Changes { kind },
        found.nanoseconds,
        found.edits,
    );
    table.put(
        Metric::ChangeCount { kind },
        cost(found.changes, 1, found.edits),
    );
    table.put(
        Metric::StepCount { kind },
        cost(found.steps, 1, found.edits),
    );
}

// Times the changes of the batches into what was found.
fn time_each(
    rt: &impl Clock,
    programs: &mut SizedPrograms,
    batches: &[Batch],
    found: &mut Found,
) -> Result<(), Fault> {
    for batch in batches {
        time_changes(rt, programs, batch, found)?;
    }
    Ok(())
}

// Times the changes of the batches.
fn time_batches(
    rt: &impl Clock,
    table: &mut Table,
    programs: &mut SizedPrograms,
    kind: EditKind,
    batches: &[Batch],
) {
    let mut found = Found::none();
    let timed = time_each(rt, programs, batches, &mut found);
    table.keep(timed);
    put_found(table, kind, found);
}

/// Applies the batches, and counts what they change.
pub fn count_all_changes(
    programs: &mut SizedPrograms,
    batches: &[Batch],
    found: &mut Found,
) -> Result<(), NoMemory> {
    for batch in batches {
        count_changes(programs, batch, found)?;
    }
    Ok(())
}

/// Applies the batches, and counts nothing.
pub fn apply_sized(programs: &mut SizedPrograms, batches: &[Batch]) -> Result<(), Fault> {
    count_all_changes(programs, batches, &mut Found::none())?;
    Ok(())
}

/// Times the changes of edits, and undoes the edits.
pub fn time_differences(
    rt: &impl Clock,
    table: &mut Table,
    programs: &mut SizedPrograms,
    edits: &SingleEdits,
) {
    time_batches(rt, table, programs, edits.kind, &edits.batches);
    match edits.kind.undone_by() {
        Some(kind) => time_batches(rt, table, programs, kind, &edits.undo),
        None => table.keep(apply_sized(programs, &edits.undo)),
    }
}
