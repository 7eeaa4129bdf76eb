ghost use Rattle.std.specs.Prelude.{◌≡◌, ◌||◌, ℕ, ◌+◌, ◌<◌, ◌≤◌, [], length};
ghost use Rattle.std.specs.List.{list_any};
ghost use Rattle.dt_graph.specs.Graph.{has_number};
ghost use Rattle.dt_propagate.specs.Begun.{arity_or_none, goes_begun, row_lengths, told_begun, told_cell, told_part, told_row, up_to};
ghost use Rattle.dt_propagate.specs.Boxes.{in_turn};
ghost use Rattle.dt_propagate.specs.GoneThrough.{all_arities, all_selectors, told_after, told_of};
ghost use Rattle.dt_definitions.specs.Program.{definitions_of};

use crate::part::Part;
use arrayvec::ArrayVec;
use dt_definitions::{Defined, Program};
use dt_graph::{ClassGraph, ClassNo, ClassSet};
use dt_selectors::{SELECTORS, SelNo};

// The classes that go on from the prefix below these are in the set from now on.
fn insert_begun(graph: &ClassGraph, highs: &[ClassNo], prefix: &[ClassNo], next: &mut ClassSet)
    ensures { (n : ℕ) → has_number next.new n
        ≡ (has_number next.old n || goes_begun graph.now.links highs.now prefix.now n) }
{
    let [high, highs @ ..] = highs else {
        return;
    };
    let [class, prefix @ ..] = prefix else {
        return next.insert_all(graph.below(*high));
    };
    if graph.is_below(*class, *high) {
        insert_begun(graph, highs, prefix, next);
    }
}

// The classes that go on from the prefix below one of the definitions.
fn begun_classes(graph: &ClassGraph, definitions: &[Defined], prefix: &[ClassNo]) -> ClassSet
    ensures { (n : ℕ) → has_number result n
        ≡ list_any (λ d. goes_begun graph.now.links d.classes prefix.now n) definitions.now }
{
    let mut next = ClassSet::new();
    for defined in definitions {
        insert_begun(graph, defined.classes.classes(), prefix, &mut next);
    }
    next
}

// The number, if it is at most this.
fn up_to(most: u32, count: u32) -> Option<u32>
    ensures { result ≡ up_to most count }
{
    if count <= most { Some(count) } else { None }
}

// How many lists of so many classes more begin with the prefix below the selector's definitions; `None` where they are
// more than `most`.
fn count_after(
    program: &Program,
    selector: SelNo,
    more: usize,
    prefix: &mut ArrayVec<ClassNo, 4>,
    most: u32,
) -> Option<u32>
    requires some { 0 < more }
    requires room { length prefix.old.items + more ≤ 4 }
    ensures count { result ≡ up_to most (length (told_after (told_begun program.now) selector more prefix.old.items)) }
    ensures prefix { prefix.new.items ≡ prefix.old.items }
{
    let next = begun_classes(program.graph(), program.definitions_of(selector), prefix);
    next.law();
    if more == 1 {
        return up_to(most, next.len() as u32);
    }
    let mut count = 0;
    let classes = next.classes();
    for class in classes.as_slice() {
        prefix.push(*class);
        let after = count_after(program, selector, more - 1, prefix, most - count);
        prefix.pop();
        count += after?;
    }
    Some(count)
}

// 1 where the selector has a definition, so that the list with no class begins below it, and else 0.
fn begun_alone(program: &Program, selector: SelNo) -> u32
    ensures { result ≡ length (told_after (told_begun program.now) selector 0 []) }
{
    match program.definitions_of(selector) {
        [] => 0,
        [_first, ..] => 1,
    }
}

// How many lists of so many classes begin below the selector's definitions; `None` where they are more than `most`.
fn count_begun(program: &Program, selector: SelNo, count: usize, most: u32) -> Option<u32>
    requires { count ≤ 4 }
    ensures { result ≡ up_to most (length (told_after (told_begun program.now) selector count [])) }
{
    if count == 0 {
        return up_to(most, begun_alone(program, selector));
    }
    let mut prefix = ArrayVec::new();
    count_after(program, selector, count, &mut prefix, most)
}

// How many arguments the selector takes; 0 where it isn't live.
fn arity_or_none(program: &Program, selector: SelNo) -> usize
    ensures value { result ≡ arity_or_none program.now selector }
    ensures few { result ≤ 4 }
{
    match program.arity(selector) {
        Some(arity) => usize::from(arity.number()),
        None => 0,
    }
}

// How many cells of the selector are understood; `None` where they are more than `most`.
fn cells_of(program: &Program, selector: SelNo, most: u32) -> Option<u32>
    ensures { result ≡ up_to most (length (told_of (told_cell program.now) all_arities selector)) }
{
    program.law();
    let arity = arity_or_none(program, selector);
    if arity == 0 {
        return up_to(most, 0);
    }
    count_begun(program, selector, arity, most)
}

// How many rows the selector has; `None` where they are more than `most`.
fn rows_of(program: &Program, selector: SelNo, most: u32) -> Option<u32>
    ensures { result ≡ up_to most (length (told_of (told_row program.now) row_lengths selector)) }
{
    program.law();
    let mut rows = 0;
    for count in 0..arity_or_none(program, selector) {
        rows += count_begun(program, selector, count, most - rows)?;
    }
    Some(rows)
}

// How many the selector has of the part; `None` where they are more than `most`.
fn part_of(program: &Program, selector: SelNo, part: Part, most: u32) -> Option<u32>
    ensures { result ≡ up_to most (length (told_part program.now part selector)) }
{
    match part {
        Part::Cells => cells_of(program, selector, most),
        Part::Rows => rows_of(program, selector, most),
    }
}

// How many the program has of the part; `None` where they are more than `most`.
pub(crate) fn count_part(program: &Program, part: Part, most: u32) -> Option<u32>
    ensures { result ≡ up_to most (length (in_turn (told_part program.now part) all_selectors)) }
{
    let mut count = 0;
    for number in 0..SELECTORS {
        let Some(selector) = SelNo::new(number) else {
            unreachable!();
        };
        count += part_of(program, selector, part, most - count)?;
    }
    Some(count)
}
