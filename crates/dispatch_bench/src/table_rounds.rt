ghost use Rattle.std.specs.Prelude.{◌≤◌};

use crate::difference_rounds::{apply_sized, time_differences};
use crate::edit_kind::EditKind;
use crate::generated::Generated;
use crate::metric::Metric;
use crate::mix::{Mix, code_of};
use crate::program_rounds::{ROUNDS, operations, time_queries};
use crate::queries::{Queries, draw_all_queries};
use crate::single_edits::{SingleEdits, draw_single_edits};
use crate::sized_programs::SizedPrograms;
use crate::stopwatch::Stopwatch;
use crate::table::Table;
use crate::table_space::Space;
use crate::work::load;
use dt_cells::TableKind;
use dt_definitions::{Batch, Program};
use dt_scratch::Query;
use dt_tables::{CommitFault, Tabled};
use dt_trials::{Chance, Fault};
use std::alloc::Global;
use std::rt::Clock;

/// What each round finds and commits.
#[derive(Drop)]
pub struct TableWork {
    queries: Vec<Queries>,
    edits: Vec<SingleEdits>,
}

// Draws the work for this program, which is left as it is found.
fn draw_for(
    alloc: Global,
    chance: &mut Chance,
    generated: &Generated,
    program: &mut Program,
) -> Result<TableWork, Fault> {
    let queries = draw_all_queries(alloc, chance, generated.size, program)?;
    let edits = draw_single_edits(alloc, chance, generated, program)?;
    Ok(TableWork { queries, edits })
}

/// Draws the work for the generated program of this number.
pub fn draw_work(alloc: Global, number: u32, generated: &Generated) -> Result<TableWork, Fault> {
    let mut program = load(alloc, &generated.batches)?;
    draw_for(
        alloc,
        &mut Chance::new(u64::from(number)),
        generated,
        &mut program,
    )
}

// Commits the batch, and tells whether it was accepted. Where it wasn't the program and its table are as they were.
fn commit_batch<K: TableKind>(tabled: &mut Tabled<K>, batch: &Batch) -> Result<bool, Fault> {
    match tabled.commit(batch) {
        Ok(()) => Ok(true),
        Err(CommitFault::NoMemory) => Err(Fault::NoMemory),
        Err(_) => Ok(false),
    }
}

/// Commits the batches in order, and answers how many were accepted.
pub fn commit_all<K: TableKind>(tabled: &mut Tabled<K>, batches: &[Batch]) -> Result<u32, Fault> {
    let mut accepted: u32 = 0;
    for batch in batches {
        if commit_batch(tabled, batch)? {
            accepted = accepted.saturating_add(1);
        }
    }
    Ok(accepted)
}

// Commits the batches, which ends the load that began with the watch.
fn time_committed<K: TableKind>(
    rt: &impl Clock,
    table: &mut Table,
    watch: Stopwatch,
    tabled: &mut Tabled<K>,
    batches: &[Batch],
) {
    let accepted = commit_all(tabled, batches);
    watch.stop(rt, table, Metric::LoadTables, 1);
    match accepted {
        Ok(_) => table.mix.add(tabled.program().definitions()),
        Err(fault) => table.fail(fault),
    }
}

// Times the load of a program and its table by its batches.
fn time_load<R: Clock + AllocGlobal, K: TableKind>(rt: &R, table: &mut Table, batches: &[Batch])
    requires { 1 ≤ K.kind.most_low }
{
    let watch = Stopwatch::start(rt);
    match Tabled::<K>::new(rt.alloc()) {
        Ok(mut tabled) => time_committed(rt, table, watch, &mut tabled, batches),
        Err(_) => table.fail(Fault::NoMemory),
    }
}

// Finds the queries in order; the mix takes each reply in.
fn find_all<K: TableKind>(tabled: &mut Tabled<K>, queries: &[Query], mix: &mut Mix) {
    for query in queries {
        mix.add(code_of(tabled.reply(query)));
    }
}

// Times the queries.
fn time_finds<K: TableKind>(
    rt: &impl Clock,
    table: &mut Table,
    tabled: &mut Tabled<K>,
    queries: &Queries,
) {
    let kind = queries.kind;
    let watch = Stopwatch::start(rt);
    find_all(tabled, &queries.calls, &mut table.mix);
    watch.stop(rt, table, Metric::Find { kind }, operations(&queries.calls));
}

// Times the batches, if there are any, each committed by itself.
fn time_commits<K: TableKind>(
    rt: &impl Clock,
    table: &mut Table,
    kind: EditKind,
    tabled: &mut Tabled<K>,
    batches: &Vec<Batch>,
) {
    let count = operations(batches);
    if count == 0 {
        return;
    }
    let watch = Stopwatch::start(rt);
    let accepted = commit_all(tabled, batches);
    watch.stop(rt, table, Metric::Commit { kind }, count);
    table.add(accepted);
}

// Times edits that are committed, and undoes them.
fn time_edits<K: TableKind>(
    rt: &impl Clock,
    table: &mut Table,
    tabled: &mut Tabled<K>,
    edits: &SingleEdits,
) {
    time_commits(rt, table, edits.kind, tabled, &edits.batches);
    match edits.kind.undone_by() {
        Some(kind) => time_commits(rt, table, kind, tabled, &edits.undo),
        None => table.add(commit_all(tabled, &edits.undo)),
    }
}

// Times the look-ups of a round, each kind from scratch and over the table in turn.
fn time_lookups<K: TableKind>(
    rt: &impl Clock,
    table: &mut Table,
    tabled: &mut Tabled<K>,
    all: &[Queries],
) {
    for queries in all {
        time_queries(rt, table, tabled.program(), queries);
        time_finds(rt, table, tabled, queries);
    }
}

// Times the edits of a round: the finding of their changes, and that they are committed.
fn time_all_edits<K: TableKind>(
    rt: &impl Clock,
    table: &mut Table,
    tabled: &mut Tabled<K>,
    programs: &mut SizedPrograms,
    all: &[SingleEdits],
) {
    for edits in all {
        time_differences(rt, table, programs, edits);
        time_edits(rt, table, tabled, edits);
    }
}

// Times a round.
fn time_round<R: Clock + AllocGlobal, K: TableKind>(
    rt: &R,
    table: &mut Table,
    batches: &[Batch],
    tabled: &mut Tabled<K>,
    programs: &mut SizedPrograms,
    work: &TableWork,
)
    requires { 1 ≤ K.kind.most_low }
{
    time_lookups(rt, table, tabled, &work.queries);
    time_all_edits(rt, table, tabled, programs, &work.edits);
    time_load::<R, K>(rt, table, batches);
    table.end_round();
}

// Times the rounds.
fn time_rounds<R: Clock + AllocGlobal, K: TableKind>(
    rt: &R,
    table: &mut Table,
    batches: &[Batch],
    tabled: &mut Tabled<K>,
    programs: &mut SizedPrograms,
    work: &TableWork,
)
    requires { 1 ≤ K.kind.most_low }
{
    for _ in 0..ROUNDS {
        time_round(rt, table, batches, tabled, programs, work);
    }
}

// Applies the batches to the two programs, and times the work.
fn time_sized<R: Clock + AllocGlobal, K: TableKind>(
    rt: &R,
    table: &mut Table,
    batches: &[Batch],
    tabled: &mut Tabled<K>,
    programs: &mut SizedPrograms,
    work: &TableWork,
) -> Result<(), Fault>
    requires { 1 ≤ K.kind.most_low }
{
    apply_sized(programs, batches)?;
    time_rounds(rt, table, batches, tabled, programs, work);
    Ok(())
}

// Loads the two programs, and times the work.
fn time_tabled<R: Clock + AllocGlobal, K: TableKind>(
    rt: &R,
    table: &mut Table,
    batches: &[Batch],
    tabled: &mut Tabled<K>,
    work: &TableWork,
) -> Result<(), Fault>
    requires { 1 ≤ K.kind.most_low }
{
    commit_all(tabled, batches)?;
    Space::of(tabled.program(), tabled.tree()).put(table);
    let mut programs = SizedPrograms::new(rt.alloc())?;
    time_sized(rt, table, batches, tabled, &mut programs, work)
}

/// Times the program that these batches make, with tables of this kind.
pub fn time_tables<R: Clock + AllocGlobal, K: TableKind>(
    rt: &R,
    table: &mut Table,
    batches: &[Batch],
    work: &TableWork,
) -> Result<(), Fault>
    requires { 1 ≤ K.kind.most_low }
{
    let mut tabled = Tabled::<K>::new(rt.alloc())?;
    time_tabled(rt, table, batches, &mut tabled, work)
}
