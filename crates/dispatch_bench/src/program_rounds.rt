use crate::edit_kind::EditKind;
use crate::edits::{Trial, draw_trials, refused_batch};
use crate::generated::Generated;
use crate::metric::Metric;
use crate::queries::{Queries, draw_all_queries, random_pairs};
use crate::stopwatch::Stopwatch;
use crate::table::Table;
use crate::trial_rounds::time_trials;
use crate::work::{apply_all, count_below, load, resolve_all};
use dt_definitions::{Batch, BatchFault, ClassGraph, ClassNo, Edit, Program};
use dt_trials::{Chance, Fault};
use std::alloc::Global;
use std::fs;
use std::rt::{Clock, Files};

/// How many rounds are timed.
pub const ROUNDS: u32 = 21;

// How often a round tries the batch that is refused.
const BATCHES: u32 = 4;

// How many bytes a page of the process has.
const PAGE: u64 = 4096;

// What each round asks.
#[derive(Drop)]
struct Asked {
    queries: Vec<Queries>,
    pairs: Vec<(ClassNo, ClassNo)>,
}

// What each round edits.
#[derive(Drop)]
struct Edited {
    trials: Vec<Trial>,
    refused: Batch,
}

// Draws what is asked of this program.
fn draw_asked(
    alloc: Global,
    chance: &mut Chance,
    generated: &Generated,
    program: &Program,
) -> Result<Asked, Fault> {
    let size = generated.size;
    let pairs = random_pairs(alloc, chance, size.classes)?;
    let queries = draw_all_queries(alloc, chance, size, program)?;
    Ok(Asked { queries, pairs })
}

// Draws the edits for this program, which is left as it is found.
fn draw_edited(
    alloc: Global,
    chance: &mut Chance,
    generated: &Generated,
    program: &mut Program,
) -> Result<Edited, Fault> {
    let trials = draw_trials(alloc, chance, generated, program)?;
    let refused = refused_batch(alloc, chance, generated)?;
    Ok(Edited { trials, refused })
}

/// How many operations a list has.
pub fn operations<T>(list: &Vec<T>) -> u32 {
    u32::try_from(list.len()).unwrap_or(u32::MAX)
}

// How many pages are resident, the second number of the text.
fn resident_pages(text: &str) -> Option<u64> {
    text.split_whitespace().nth(1)?.parse::<u64>().ok()
}

// The resident memory of the process in thousandths of a million bytes.
fn memory<R: Files + AllocGlobal>(rt: &R) -> Result<u64, Fault> {
    let text = fs::read_to_string(rt, "/proc/self/statm")?;
    match resident_pages(text.as_str()) {
        Some(pages) => Ok(pages.saturating_mul(PAGE) / 1000),
        None => Err(Fault::Outside),
    }
}

/// Times the queries, each found from scratch.
pub fn time_queries(rt: &impl Clock, table: &mut Table, program: &Program, queries: &Queries) {
    let kind = queries.kind;
    let watch = Stopwatch::start(rt);
    resolve_all(program, &queries.calls, &mut table.mix);
    watch.stop(
        rt,
        table,
        Metric::Resolve { kind },
        operations(&queries.calls),
    );
}

// Times the edits, if there are any.
fn time_edits(
    rt: &impl Clock,
    table: &mut Table,
    kind: EditKind,
    program: &mut Program,
    edits: &Vec<Edit>,
) {
    let count = operations(edits);
    if count == 0 {
        return;
    }
    let watch = Stopwatch::start(rt);
    let accepted = apply_all(program, edits);
    watch.stop(rt, table, Metric::Edit { kind }, count);
    table.add(accepted);
}

// Times the edits, and undoes them.
fn time_trial(rt: &impl Clock, table: &mut Table, program: &mut Program, trial: &Trial) {
    time_edits(rt, table, trial.kind, program, &trial.edits);
    match trial.kind.undone_by() {
        Some(kind) => time_edits(rt, table, kind, program, &trial.undo),
        None => table.add(apply_all(program, &trial.undo)),
    }
}

// How many definitions the program has, if there is one. It goes.
fn definitions_of(program: Result<Program, Fault>) -> Result<u32, Fault> {
    match program {
        Ok(program) => Ok(program.definitions()),
        Err(fault) => Err(fault),
    }
}

// A copy of the program.
fn copy_of(program: &Program) -> Result<Program, Fault> {
    Ok(program.copy()?)
}

// Times the load of a program by its batches.
fn time_load<R: Clock + AllocGlobal>(rt: &R, table: &mut Table, batches: &[Batch]) {
    let watch = Stopwatch::start(rt);
    let program = load(rt.alloc(), batches);
    watch.stop(rt, table, Metric::Load, 1);
    table.add(definitions_of(program));
}

// Times a copy of the program.
fn time_copy(rt: &impl Clock, table: &mut Table, program: &Program) {
    let watch = Stopwatch::start(rt);
    let copy = copy_of(program);
    watch.stop(rt, table, Metric::Copy, 1);
    table.add(definitions_of(copy));
}

// Applies the batch, and answers the number of the edit that is refused; 0 where none is.
fn refused_at(program: &mut Program, batch: &Batch) -> Result<u32, Fault> {
    match program.apply_batch(batch) {
        Ok(()) => Ok(0),
        Err(BatchFault::Refused { at, .. }) => Ok(at),
        Err(BatchFault::NoMemory) => Err(Fault::NoMemory),
    }
}

// Times a batch that is refused, which leaves the program as it is.
fn time_refused(rt: &impl Clock, table: &mut Table, program: &mut Program, batch: &Batch) {
    let watch = Stopwatch::start(rt);
    for _ in 0..BATCHES {
        table.add(refused_at(program, batch));
    }
    watch.stop(rt, table, Metric::RefusedBatch, BATCHES);
}

/// Times the pairs of classes, if there are any.
pub fn time_pairs(
    rt: &impl Clock,
    table: &mut Table,
    graph: &ClassGraph,
    pairs: &Vec<(ClassNo, ClassNo)>,
) {
    let count = operations(pairs);
    if count == 0 {
        return;
    }
    let watch = Stopwatch::start(rt);
    let below = count_below(graph, pairs);
    watch.stop(rt, table, Metric::IsBelow, count);
    table.mix.add(u32::try_from(below).unwrap_or(u32::MAX));
}

// Times the look-ups of a round.
fn time_asked(rt: &impl Clock, table: &mut Table, program: &Program, asked: &Asked) {
    for queries in &asked.queries {
        time_queries(rt, table, program, queries);
    }
    time_pairs(rt, table, program.graph(), &asked.pairs);
}

// Times the edits of a round, each kind on the program as it was.
fn time_edited(rt: &impl Clock, table: &mut Table, program: &mut Program, edited: &Edited) {
    for trial in &edited.trials {
        time_trial(rt, table, program, trial);
    }
    time_refused(rt, table, program, &edited.refused);
}

// Times a round.
fn time_round<R: Clock + AllocGlobal>(
    rt: &R,
    table: &mut Table,
    program: &mut Program,
    batches: &[Batch],
    asked: &Asked,
    edited: &Edited,
) {
    time_asked(rt, table, program, asked);
    time_edited(rt, table, program, edited);
    time_load(rt, table, batches);
    time_copy(rt, table, program);
    table.end_round();
}

// Times the rounds of a program.
fn time_rounds<R: Clock + AllocGlobal>(
    rt: &R,
    table: &mut Table,
    program: &mut Program,
    batches: &[Batch],
    asked: &Asked,
    edited: &Edited,
) {
    for _ in 0..ROUNDS {
        time_round(rt, table, program, batches, asked, edited);
    }
}

// Draws the edits for a program, and times its rounds.
fn time_drawn<R: Clock + AllocGlobal>(
    rt: &R,
    table: &mut Table,
    chance: &mut Chance,
    generated: &Generated,
    program: &mut Program,
    asked: &Asked,
) -> Result<(), Fault> {
    let edited = draw_edited(rt.alloc(), chance, generated, program)?;
    time_rounds(rt, table, program, &generated.batches, asked, &edited);
    Ok(())
}

// Draws the work for a program, and times it.
fn time_loaded<R: Clock + AllocGlobal>(
    rt: &R,
    table: &mut Table,
    chance: &mut Chance,
    generated: &Generated,
    program: &mut Program,
) -> Result<(), Fault> {
    let asked = draw_asked(rt.alloc(), chance, generated, program)?;
    time_drawn(rt, table, chance, generated, program, &asked)
}

// Times a program that was just loaded, after its memory is taken.
fn time_resident<R: Clock + Files + AllocGlobal>(
    rt: &R,
    table: &mut Table,
    chance: &mut Chance,
    generated: &Generated,
    program: &mut Program,
) -> Result<(), Fault> {
    let memory = memory(rt)?;
    time_loaded(rt, table, chance, generated, program)?;
    table.put(Metric::Memory, memory);
    Ok(())
}

// Loads a program by its batches, and times it.
fn time_batches<R: Clock + Files + AllocGlobal>(
    rt: &R,
    table: &mut Table,
    chance: &mut Chance,
    generated: &Generated,
) -> Result<(), Fault> {
    let mut program = load(rt.alloc(), &generated.batches)?;
    time_resident(rt, table, chance, generated, &mut program)
}

/// Times the generated program of this number.
pub fn time_program<R: Clock + Files + AllocGlobal>(
    rt: &R,
    table: &mut Table,
    number: u32,
    generated: &Generated,
) -> Result<(), Fault> {
    let mut chance = Chance::new(u64::from(number));
    time_batches(rt, table, &mut chance, generated)?;
    time_trials(rt, table, &mut chance, generated)
}
