use crate::edit_kind::EditKind;
use crate::metric::Metric;
use crate::mix::{Mix, code_of};
use crate::program_rounds::ROUNDS;
use crate::query_kind::QueryKind;
use crate::stopwatch::Stopwatch;
use crate::table::Table;
use crate::work::load;
use dt_definitions::{
    Arity, Batch, BodyNo, ClassNo, Edit, NoMemory, Parents, Program, SelNo, Tuple,
};
use dt_scratch::{Query, resolve};
use dt_trials::{Fault, is_applied, put};
use std::alloc::Global;
use std::rt::Clock;

// How many classes stand below the first one.
const LEAVES: u16 = 60;

/// How many definitions the selector has at most: one at each pair of leaves.
pub const MOST: u16 = LEAVES * LEAVES;

// How often a round makes each change.
const CHANGES: u32 = 16;

// The class of this number.
fn class_of(number: u16) -> ClassNo {
    ClassNo::new(number).unwrap_or_default()
}

// The selector, which has the number 0 and takes two arguments.
fn selector() -> SelNo {
    SelNo::new(0).unwrap_or_default()
}

// The leaves at which the definition of this number stands.
fn leaves(number: u16) -> (u16, u16) {
    (1 + number / LEAVES % LEAVES, 1 + number % LEAVES)
}

// The definition of the selector at these classes.
fn define(first: u16, second: u16, body: u16) -> Option<Edit> {
    Some(Edit::Define {
        selector: selector(),
        classes: Tuple::new(&[class_of(first), class_of(second)])?,
        body: BodyNo::new(body),
    })
}

// The edit that adds the class of this number, below the first one, which has no parent.
fn add_class(alloc: Global, number: u16) -> Result<Edit, NoMemory> {
    let class = class_of(number);
    let parents = if number == 0 {
        Parents::new(alloc, &[])?
    } else {
        Parents::new(alloc, &[class_of(0)])?
    };
    Ok(Edit::AddClass { class, parents })
}

// Puts the edit that adds the selector.
fn put_selector(batch: &mut Batch) -> Result<(), Fault> {
    let Some(arity) = Arity::new(2) else {
        return Ok(());
    };
    let selector = selector();
    put(batch, Edit::AddSelector { selector, arity })
}

// The edits that make a class with its leaves, and the selector.
fn ground(alloc: Global) -> Result<Batch, Fault> {
    let mut batch = Batch::new(alloc);
    for number in 0..=LEAVES {
        put(&mut batch, add_class(alloc, number)?)?;
    }
    put_selector(&mut batch)?;
    Ok(batch)
}

// The batch of so many definitions.
fn definitions(alloc: Global, count: u16) -> Result<Batch, Fault> {
    let mut batch = Batch::new(alloc);
    for number in 0..count {
        let (first, second) = leaves(number);
        if let Some(edit) = define(first, second, number) {
            put(&mut batch, edit)?;
        }
    }
    Ok(batch)
}

// The program of a selector with so many definitions.
fn program(alloc: Global, count: u16) -> Result<Program, Fault> {
    let mut batches = Vec::new(alloc);
    batches.push(ground(alloc)?)?;
    batches.push(definitions(alloc, count)?)?;
    load(alloc, &batches)
}

// Times an edit of the kind.
fn time_edit(
    rt: &impl Clock,
    table: &mut Table,
    kind: EditKind,
    program: &mut Program,
    edit: &Edit,
) {
    let watch = Stopwatch::start(rt);
    let accepted = is_applied(program, edit);
    watch.stop(rt, table, Metric::Edit { kind }, 1);
    match accepted {
        Ok(accepted) => table.mix.add(u32::from(accepted)),
        Err(fault) => table.fail(fault),
    }
}

// Times a definition that comes and goes again, some times.
fn time_pair(rt: &impl Clock, table: &mut Table, program: &mut Program, edit: &Edit, undo: &Edit) {
    for _ in 0..CHANGES {
        time_edit(rt, table, EditKind::Define, program, edit);
        time_edit(rt, table, EditKind::Undefine, program, undo);
    }
}

// The end of the definition of the selector at these classes.
fn undefine(first: u16, second: u16) -> Option<Edit> {
    Some(Edit::Undefine {
        selector: selector(),
        classes: Tuple::new(&[class_of(first), class_of(second)])?,
    })
}

// Times a definition that comes among the others, and goes again.
fn time_definition(rt: &impl Clock, table: &mut Table, program: &mut Program, count: u16) {
    let (first, _) = leaves(count / 2);
    if let Some(edit) = define(first, 0, count)
        && let Some(undo) = undefine(first, 0)
    {
        time_pair(rt, table, program, &edit, &undo);
    }
}

// Calls the selector at the classes of each definition; the mix takes each reply in.
fn call_each(program: &Program, count: u16, mix: &mut Mix) {
    for number in 0..count {
        let (first, second) = leaves(number);
        if let Some(query) = Query::new(0, &[first, second]) {
            mix.add(code_of(resolve(program, &query)));
        }
    }
}

// Times a call at the classes of each definition.
fn time_calls(rt: &impl Clock, table: &mut Table, program: &Program, count: u16) {
    let kind = QueryKind::HitsOfTwo;
    let watch = Stopwatch::start(rt);
    call_each(program, count, &mut table.mix);
    watch.stop(rt, table, Metric::Resolve { kind }, u32::from(count).max(1));
}

// Times a round.
fn time_round(rt: &impl Clock, table: &mut Table, program: &mut Program, count: u16) {
    time_calls(rt, table, program, count);
    time_definition(rt, table, program, count);
    table.end_round();
}

/// Times a selector with so many definitions, at most [`MOST`].
pub fn time_selector<R: Clock + AllocGlobal>(
    rt: &R,
    table: &mut Table,
    count: u16,
) -> Result<(), Fault> {
    let mut program = program(rt.alloc(), count)?;
    for _ in 0..ROUNDS {
        time_round(rt, table, &mut program, count);
    }
    Ok(())
}
