use crate::difference_rounds::{Found, apply_sized, count_all_changes};
use crate::edits::{Trial, draw_trials};
use crate::figures::Figure;
use crate::generated::Generated;
use crate::mix::{Mix, code_of};
use crate::queries::{Queries, draw_all_queries, is_hit};
use crate::shape::Shape;
use crate::single_edits::{SingleEdits, draw_single_edits};
use crate::size::Size;
use crate::sized_programs::SizedPrograms;
use crate::work::load;
use dt_definitions::{Batch, ClassGraph, Program};
use dt_scratch::resolve;
use dt_trials::{Chance, Fault};
use std::alloc::Global;
use std::io;

// What a generated program comes to, with nothing timed.
#[derive(Clone, Copy)]
struct Counts {
    // The definitions.
    definitions: u32,
    // How many of the edits that are drawn are accepted.
    edits: usize,
    // How many of the calls that are drawn a method answers.
    hits: u32,
    // What the replies to the calls come to.
    mix: u32,
}

// Makes calls of the program: how many of them a method answers goes into `hits`, and the replies into the mix.
fn call(program: &Program, queries: &Queries, hits: &mut u32, mix: &mut Mix) {
    for query in &queries.calls {
        mix.add(code_of(resolve(program, query)));
        if is_hit(program, query) {
            *hits = hits.saturating_add(1);
        }
    }
}

// Makes calls of each kind.
fn call_all(program: &Program, all: &[Queries]) -> (u32, Mix) {
    let mut hits: u32 = 0;
    let mut mix = Mix::new();
    for queries in all {
        call(program, queries, &mut hits, &mut mix);
    }
    (hits, mix)
}

// Draws calls of the program, and makes them.
fn draw_and_call(
    alloc: Global,
    chance: &mut Chance,
    generated: &Generated,
    program: &Program,
) -> Result<(u32, Mix), Fault> {
    let all = draw_all_queries(alloc, chance, generated.size, program)?;
    Ok(call_all(program, &all))
}

// How many edits there are.
fn count_edits(trials: &[Trial]) -> usize {
    let mut edits: usize = 0;
    for trial in trials {
        edits = edits.saturating_add(trial.edits.len());
    }
    edits
}

// Counts what a loaded program comes to.
fn count_loaded(
    alloc: Global,
    chance: &mut Chance,
    generated: &Generated,
    program: &mut Program,
) -> Result<Counts, Fault> {
    let (hits, mix) = draw_and_call(alloc, chance, generated, program)?;
    let trials = draw_trials(alloc, chance, generated, program)?;
    Ok(Counts {
        definitions: program.definitions(),
        edits: count_edits(&trials),
        hits,
        mix: mix.number(),
    })
}

// Counts what a generated program comes to.
fn count(alloc: Global, generated: &Generated) -> Result<Counts, Fault> {
    let mut program = load(alloc, &generated.batches)?;
    count_loaded(alloc, &mut Chance::new(1), generated, &mut program)
}

// Draws edits of each kind for the program.
fn draw_edits(alloc: Global, generated: &Generated) -> Result<Vec<SingleEdits>, Fault> {
    let mut program = load(alloc, &generated.batches)?;
    draw_single_edits(alloc, &mut Chance::new(1), generated, &mut program)
}

// Finds what these edits change, and what undoes them.
fn count_each(
    programs: &mut SizedPrograms,
    all: &[SingleEdits],
    found: &mut Found,
) -> Result<(), Fault> {
    for edits in all {
        count_all_changes(programs, &edits.batches, found)?;
        count_all_changes(programs, &edits.undo, found)?;
    }
    Ok(())
}

// Finds what these edits change, after these batches.
fn count_after(
    programs: &mut SizedPrograms,
    batches: &[Batch],
    all: &[SingleEdits],
) -> Result<Found, Fault> {
    let mut found = Found::none();
    apply_sized(programs, batches)?;
    count_each(programs, all, &mut found)?;
    Ok(found)
}

// Finds what these edits of the program of these batches change, and what undoes them.
fn find_changes(alloc: Global, batches: &[Batch], all: &[SingleEdits]) -> Result<Found, Fault> {
    let mut programs = SizedPrograms::new(alloc)?;
    count_after(&mut programs, batches, all)
}

// Finds what edits that are drawn change in a generated program.
fn draw_changes(alloc: Global, generated: &Generated) -> Result<Found, Fault> {
    let edits = draw_edits(alloc, generated)?;
    find_changes(alloc, &generated.batches, &edits)
}

// The first draws from 1.
fn first_draws() -> (u16, u16, u16, u16, u16) {
    let mut chance = Chance::new(1);
    let (first, second, third) = (chance.below(100), chance.below(4), chance.below(4096));
    let (fourth, fifth) = (chance.below(2048), chance.below(7));
    (first, second, third, fourth, fifth)
}

// Prints the first draws from 1.
fn print_draws(rt: &impl Print) -> io::Result<()> {
    let (first, second, third, fourth, fifth) = first_draws();
    println!(rt; "draws from 1 | {first} {second} {third} {fourth} {fifth}")
}

// Prints how figures are written.
fn print_written(rt: &impl Print) -> io::Result<()> {
    let (zero, small) = (
        Figure::Thousandths { count: 0 },
        Figure::Thousandths { count: 7 },
    );
    let large = Figure::Thousandths { count: 1_234_567 };
    println!(rt; "figures | {zero} {small} {large}")
}

// Prints what a tiny program comes to.
fn print_counted<R: Print + AllocGlobal>(
    rt: &R,
    number: u32,
    generated: &Generated,
) -> Result<(), Fault> {
    let Counts {
        definitions,
        edits,
        hits,
        mix,
    } = count(rt.alloc(), generated)?;
    let Size {
        classes,
        selectors,
        ..
    } = generated.size;
    println!(rt;
        "program {number} {classes}/{selectors} | definitions {definitions} | edits accepted {edits} | hits {hits} | mix {mix}"
    )?;
    Ok(())
}

// Prints what edits of a tiny program change.
fn print_changes<R: Print + AllocGlobal>(
    rt: &R,
    number: u32,
    generated: &Generated,
) -> Result<(), Fault> {
    let found = draw_changes(rt.alloc(), generated)?;
    let (edits, changes, steps) = (found.edits, found.changes, found.steps);
    println!(rt;
        "changes of program {number} | edits {edits} | changes {changes} | steps {steps}"
    )?;
    Ok(())
}

// Prints what a tiny program and edits of it come to.
fn print_generated<R: Print + AllocGlobal>(
    rt: &R,
    number: u32,
    generated: &Generated,
) -> Result<(), Fault> {
    print_counted(rt, number, generated)?;
    print_changes(rt, number, generated)
}

// Prints the tiny program of this number and size.
fn print_program<R: Print + AllocGlobal>(rt: &R, number: u32, size: Size) -> Result<(), Fault> {
    let generated = Generated::new(rt.alloc(), number, size)?;
    print_generated(rt, number, &generated)
}

// Prints what a graph of this shape with 100 classes comes to: how many classes are at or below the one in the middle, and
// whether its link in the middle is there.
fn print_middle(rt: &impl Print, shape: Shape, graph: &ClassGraph) -> Result<(), Fault> {
    let Some((class, parent)) = shape.middle_link(100) else {
        return Ok(());
    };
    let (below, is_there) = (graph.below_count(class), graph.is_below(class, parent));
    let word = shape.word();
    println!(rt; "graph {word} 100 | below the middle {below} | link in the middle {is_there}")?;
    Ok(())
}

// Prints what a small graph comes to.
fn print_graph<R: Print + AllocGlobal>(rt: &R, shape: Shape) -> Result<(), Fault> {
    let graph = shape.graph(rt.alloc(), 100)?;
    print_middle(rt, shape, &graph)
}

// Prints the programs of this number and size, where they are in range.
fn print_programs<R: Print + AllocGlobal>(rt: &R) -> Result<(), Fault> {
    for (number, classes, selectors) in [(1, 20, 10), (7, 60, 120)] {
        if let Some(size) = Size::new(classes, selectors) {
            print_program(rt, number, size)?;
        }
    }
    Ok(())
}

/// Prints what a run of nothing timed comes to.
pub fn print_counts<R: Print + AllocGlobal>(rt: &R) -> Result<(), Fault> {
    print_draws(rt)?;
    print_written(rt)?;
    print_programs(rt)?;
    for shape in [Shape::Chain, Shape::Star, Shape::Diamonds] {
        print_graph(rt, shape)?;
    }
    Ok(())
}
