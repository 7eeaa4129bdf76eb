use crate::edits::redefining_batch;
use crate::generated::Generated;
use crate::metric::Metric;
use crate::program_rounds::ROUNDS;
use crate::stopwatch::Stopwatch;
use crate::table::Table;
use dt_definitions::{Batch, BatchFault, TwoPrograms};
use dt_trials::{Chance, Fault};
use std::rt::Clock;

// Tries the batch. Where it is refused nothing is tried.
fn try_batch(two: &mut TwoPrograms, batch: Batch) -> Result<(), Fault> {
    two.refuse();
    match two.try_batch(batch) {
        Ok(()) | Err(BatchFault::Refused { .. }) => Ok(()),
        Err(BatchFault::NoMemory) => Err(Fault::NoMemory),
    }
}

// Applies a batch to both programs.
fn apply_to_both(two: &mut TwoPrograms, batch: &Batch) -> Result<(), Fault> {
    let copy = batch.copy()?;
    try_batch(two, copy)?;
    two.accept();
    Ok(())
}

// Applies the batches to both programs.
fn apply_each(two: &mut TwoPrograms, batches: &[Batch]) -> Result<(), Fault> {
    for batch in batches {
        apply_to_both(two, batch)?;
    }
    Ok(())
}

// Times a batch that is tried and then refused, so that the program is as it was.
fn time_tried(rt: &impl Clock, table: &mut Table, two: &mut TwoPrograms, batch: Batch) {
    let watch = Stopwatch::start(rt);
    let tried = try_batch(two, batch);
    two.refuse();
    watch.stop(rt, table, Metric::TriedBatch, 1);
    table.keep(tried);
}

// Times batches of 500 other bodies, each drawn anew.
fn time_rounds<R: Clock + AllocGlobal>(
    rt: &R,
    table: &mut Table,
    two: &mut TwoPrograms,
    chance: &mut Chance,
    generated: &Generated,
) -> Result<(), Fault> {
    for _ in 0..ROUNDS {
        let batch = redefining_batch(rt.alloc(), chance, generated)?;
        time_tried(rt, table, two, batch);
    }
    Ok(())
}

// Makes the two programs, and times such batches on them.
fn time_loaded<R: Clock + AllocGlobal>(
    rt: &R,
    table: &mut Table,
    two: &mut TwoPrograms,
    chance: &mut Chance,
    generated: &Generated,
) -> Result<(), Fault> {
    apply_each(two, &generated.batches)?;
    time_rounds(rt, table, two, chance, generated)
}

/// Times such batches on the two programs of this number and size.
pub fn time_trials<R: Clock + AllocGlobal>(
    rt: &R,
    table: &mut Table,
    chance: &mut Chance,
    generated: &Generated,
) -> Result<(), Fault> {
    let mut two = TwoPrograms::new(rt.alloc())?;
    time_loaded(rt, table, &mut two, chance, generated)
}
