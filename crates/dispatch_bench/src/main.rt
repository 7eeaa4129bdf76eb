//! The program `dispatch_bench`: what look-ups and edits cost, on generated programs and on graphs of a few shapes.
//!
//! With no words it prints what tiny programs and small graphs come to, and times nothing. `bench N C S` times the
//! generated program of the number N with C classes and S selectors, from scratch and with tables, `graph SHAPE C` a
//! graph of C classes that is a `chain`, a `star` or `diamonds`, and `selector D` a selector of two arguments with D
//! definitions, at most 3,600. Each line of figures is `NAME SIZE | METRIC | UNIT | MEDIAN | LEAST | GREATEST`, over 21
//! rounds. `occupancy N C S` times nothing: of the table of each kind it prints for every 2,048 cells how many have an
//! answer, `NAME SIZE | BLOCK | CELLS`, up to the last block in use. The generated program is the one that the script of
//! these numbers makes before its calls (`dt_script::make_script`).
#![tactic(auto)]

ghost use Rattle.std.specs.Prelude.{◌≤◌};

mod difference_rounds;
mod drawing;
mod edit_kind;
mod edits;
mod figures;
mod generated;
mod graph_rounds;
mod metric;
mod mix;
mod occupancy;
mod program_rounds;
mod queries;
mod query_kind;
mod selector_rounds;
mod shape;
mod single_edits;
mod size;
mod sized_programs;
mod stopwatch;
mod table;
mod table_rounds;
mod table_space;
mod tiny;
mod trial_rounds;
mod words;
mod work;

use dt_cells::{Pair, TableKind};
use dt_colour::Colour;
use dt_mrd::Mrd;
use dt_row::Row;
use dt_sti::Sti;
use dt_trials::Fault;
use generated::Generated;
use graph_rounds::{GraphPlan, time_graph};
use occupancy::print_occupancy;
use program_rounds::time_program;
use selector_rounds::time_selector;
use size::Size;
use std::alloc::Global;
use std::env;
use std::process::ExitCode;
use std::rt::{Clock, Env, Files};
use table::Table;
use table_rounds::{TableWork, draw_work, time_tables};
use table_space::Region;
use tiny::print_counts;
use words::{Command, read_command};

// Puts the words after the program's name last.
fn put_words<R: Env + AllocGlobal>(rt: &R, words: &mut Vec<String>) -> Result<(), Fault> {
    for word in env::args(rt)?.skip(1) {
        words.push(word)?;
    }
    Ok(())
}

// The words after the program's name.
fn given_words<R: Env + AllocGlobal>(rt: &R) -> Result<Vec<String>, Fault> {
    let mut words = Vec::new(rt.alloc());
    put_words(rt, &mut words)?;
    Ok(words)
}

// The name of the figures of a generated program, after the word for how its calls are answered.
fn program_name(alloc: Global, word: &str, size: Size) -> Result<String, Fault> {
    let Size {
        classes,
        selectors,
        ..
    } = size;
    Ok(format!(in alloc; "engine-{word} {classes}/{selectors}")?)
}

// Times a generated program from scratch, and prints the figures under this name.
fn print_scratch<R: Print + Clock + Files + AllocGlobal>(
    rt: &R,
    name: &str,
    number: u32,
    generated: &Generated,
) -> Result<(), Fault> {
    let mut table = Table::new(rt.alloc());
    time_program(rt, &mut table, number, generated)?;
    table.print(rt, name)
}

// Times a generated program with tables of this kind, and prints the figures under this name.
fn print_tables<R: Print + Clock + AllocGlobal, K: TableKind>(
    rt: &R,
    name: &str,
    generated: &Generated,
    work: &TableWork,
) -> Result<(), Fault>
    requires { 1 ≤ K.kind.most_low }
{
    let mut table = Table::new(rt.alloc());
    time_tables::<R, K>(rt, &mut table, &generated.batches, work)?;
    table.print(rt, name)
}

// Times a generated program with tables of this kind, and prints the figures under a name of this word.
fn print_kind<R: Print + Clock + AllocGlobal, K: TableKind>(
    rt: &R,
    word: &str,
    generated: &Generated,
    work: &TableWork,
) -> Result<(), Fault>
    requires { 1 ≤ K.kind.most_low }
{
    let name = program_name(rt.alloc(), word, generated.size)?;
    print_tables::<R, K>(rt, name.as_str(), generated, work)
}

// Times a generated program with tables of each kind for queries of one class, alone: the others are looked up from scratch.
fn print_single_kinds<R: Print + Clock + AllocGlobal>(
    rt: &R,
    generated: &Generated,
    work: &TableWork,
) -> Result<(), Fault> {
    print_kind::<R, Sti>(rt, "sti-alone", generated, work)?;
    print_kind::<R, Colour>(rt, "colour-alone", generated, work)?;
    print_kind::<R, Row>(rt, "row-alone", generated, work)
}

// Times a generated program with tables of each kind.
fn print_kinds<R: Print + Clock + AllocGlobal>(
    rt: &R,
    generated: &Generated,
    work: &TableWork,
) -> Result<(), Fault> {
    print_single_kinds(rt, generated, work)?;
    print_kind::<R, Pair<Sti, Mrd>>(rt, "sti", generated, work)?;
    print_kind::<R, Pair<Colour, Mrd>>(rt, "colour", generated, work)?;
    print_kind::<R, Pair<Row, Mrd>>(rt, "row", generated, work)?;
    print_kind::<R, Mrd>(rt, "mrd", generated, work)
}

// Times a generated program, from scratch and with tables.
fn print_program<R: Print + Clock + Files + AllocGlobal>(
    rt: &R,
    number: u32,
    generated: &Generated,
) -> Result<(), Fault> {
    let name = program_name(rt.alloc(), "scratch", generated.size)?;
    print_scratch(rt, name.as_str(), number, generated)?;
    let work = draw_work(rt.alloc(), number, generated)?;
    print_kinds(rt, generated, &work)
}

// Prints the occupancy of a part of the table of this kind.
fn print_occupied<R: Print + AllocGlobal, K: TableKind>(
    rt: &R,
    word: &str,
    region: Region,
    generated: &Generated,
) -> Result<(), Fault>
    requires { 1 ≤ K.kind.most_low }
{
    let name = program_name(rt.alloc(), word, generated.size)?;
    print_occupancy::<R, K>(rt, name.as_str(), region, &generated.batches)
}

// Prints the occupancy of the table of each kind: of the master array where it has the selectors of two arguments alone,
// as it stands beside each other kind, and where it has all.
fn print_occupancies<R: Print + AllocGlobal>(rt: &R, generated: &Generated) -> Result<(), Fault> {
    print_occupied::<R, Sti>(rt, "sti", Region::Single, generated)?;
    print_occupied::<R, Colour>(rt, "colour", Region::Single, generated)?;
    print_occupied::<R, Row>(rt, "row", Region::Single, generated)?;
    print_occupied::<R, Pair<Row, Mrd>>(rt, "mrd-beside", Region::Master, generated)?;
    print_occupied::<R, Mrd>(rt, "mrd", Region::Master, generated)
}

// Makes the generated program of this number and size, and times it.
fn print_figures<R: Print + Clock + Files + AllocGlobal>(
    rt: &R,
    number: u32,
    size: Size,
) -> Result<(), Fault> {
    let generated = Generated::new(rt.alloc(), number, size)?;
    print_program(rt, number, &generated)
}

// Makes the generated program of this number and size, and prints the occupancy of its tables.
fn print_blocks<R: Print + AllocGlobal>(rt: &R, number: u32, size: Size) -> Result<(), Fault> {
    let generated = Generated::new(rt.alloc(), number, size)?;
    print_occupancies(rt, &generated)
}

// Times a graph, and prints the figures under this name.
fn print_graph<R: Print + Clock + AllocGlobal>(
    rt: &R,
    name: &str,
    plan: GraphPlan,
) -> Result<(), Fault> {
    let mut table = Table::new(rt.alloc());
    time_graph(rt, &mut table, plan)?;
    table.print(rt, name)
}

// Times a selector with so many definitions, and prints the figures under this name.
fn print_selector<R: Print + Clock + AllocGlobal>(
    rt: &R,
    name: &str,
    definitions: u16,
) -> Result<(), Fault> {
    let mut table = Table::new(rt.alloc());
    time_selector(rt, &mut table, definitions)?;
    table.print(rt, name)
}

// The name of the figures of a graph.
fn graph_name(alloc: Global, plan: GraphPlan) -> Result<String, Fault> {
    let word = plan.shape.word();
    let classes = plan.classes;
    Ok(format!(in alloc; "graph-{word} {classes}")?)
}

// The name of the figures of a selector.
fn selector_name(alloc: Global, definitions: u16) -> Result<String, Fault> {
    Ok(format!(in alloc; "selector {definitions}")?)
}

// Times a graph.
fn print_plan<R: Print + Clock + AllocGlobal>(rt: &R, plan: GraphPlan) -> Result<(), Fault> {
    let name = graph_name(rt.alloc(), plan)?;
    print_graph(rt, name.as_str(), plan)
}

// Times a selector with so many definitions.
fn print_definitions<R: Print + Clock + AllocGlobal>(
    rt: &R,
    definitions: u16,
) -> Result<(), Fault> {
    let name = selector_name(rt.alloc(), definitions)?;
    print_selector(rt, name.as_str(), definitions)
}

// Does what the command asks for.
fn obey<R: Print + Clock + Files + AllocGlobal>(rt: &R, command: Command) -> Result<(), Fault> {
    match command {
        Command::Count => print_counts(rt),
        Command::Program { number, size } => print_figures(rt, number, size),
        Command::Occupancy { number, size } => print_blocks(rt, number, size),
        Command::Graph { plan } => print_plan(rt, plan),
        Command::Selector { definitions } => print_definitions(rt, definitions),
    }
}

// The command that the words after the program's name are.
fn given_command<R: Env + AllocGlobal>(rt: &R) -> Result<Option<Command>, Fault> {
    let words = given_words(rt)?;
    Ok(read_command(&words))
}

// Does what the words ask for, and answers whether they ask for anything.
fn run<R: Print + Clock + Files + Env + AllocGlobal>(rt: &R) -> Result<bool, Fault> {
    if let Some(command) = given_command(rt)? {
        obey(rt, command)?;
        return Ok(true);
    }
    println!(rt;
        "usage: dispatch_bench\n       dispatch_bench bench N C S\n       dispatch_bench occupancy N C S\n       dispatch_bench graph chain|star|diamonds C\n       dispatch_bench selector D"
    )?;
    Ok(false)
}

fn main(rt: HostRuntime) -> ExitCode {
    ExitCode::from(match run(&rt) {
        Ok(true) => 0,
        Ok(false) => 2,
        Err(Fault::Outside) => 5,
        Err(Fault::NoMemory) => 6,
    })
}
