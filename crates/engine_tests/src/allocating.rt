//! The calls of the graph, the names and the selectors that take memory, where there is enough.
use crate::edits::class;
use dt_graph::{ClassGraph, ClassNo};
use dt_selectors::{Arity, NameFault, Names, SelNo, Selectors};
use std::alloc::Global;
use std::test::Fail;

// Adds a few classes: 3 below 2, 2 below 5, and 7 alone.
fn fill(graph: &mut ClassGraph) -> bool {
    graph.add(class(5), &[]).is_ok()
        && graph.add(class(2), &[class(5)]).is_ok()
        && graph.add(class(3), &[class(2)]).is_ok()
        && graph.add(class(7), &[]).is_ok()
}

// Whether the classes below are listed behind what was listed.
fn lists(graph: &ClassGraph, below: ClassNo, listed: &mut Vec<ClassNo>, all: &[ClassNo]) -> bool {
    graph.descendants_into(below, listed).is_ok() && listed.as_slice() == all
}

fn lists_below_2(alloc: Global, graph: &ClassGraph, all: &[ClassNo]) -> bool {
    let mut listed = Vec::new(alloc);
    listed.push(class(9)).is_ok() && lists(graph, class(2), &mut listed, all)
}

// Whether a copy keeps what it has where a class is dropped.
fn copy_is_apart(alloc: Global, graph: &mut ClassGraph) -> Option<bool> {
    let copy = graph.copy().ok()?;
    let is_dropped = graph.drop_class(class(3)).is_ok();
    Some(
        is_dropped
            && lists_below_2(alloc, &copy, &[class(9), class(2), class(3)])
            && lists_below_2(alloc, graph, &[class(9), class(2)]),
    )
}

fn graphs_hold(alloc: Global) -> Option<bool> {
    let mut graph = ClassGraph::new(alloc).ok()?;
    let is_filled = fill(&mut graph);
    Some(is_filled && copy_is_apart(alloc, &mut graph)?)
}

// Whether the name gets this number.
fn is_numbered(names: &mut Names, text: &str, number: u32) -> bool {
    Names::is_name(text.as_bytes()) && names.number(text.as_bytes()) == Ok(number)
}

fn are_full(names: &mut Names) -> bool {
    Names::is_name(b"Square") && names.number(b"Square") == Err(NameFault::NamesFull)
}

fn is_text(names: &Names, number: u32, text: &str) -> bool {
    match names.text(number) {
        Some(found) => found == text.as_bytes(),
        None => false,
    }
}

fn are_kept(names: &mut Names) -> bool {
    is_numbered(names, "Shape", 0)
        && is_numbered(names, "Circle", 1)
        && is_numbered(names, "Shape", 0)
        && are_full(names)
        && is_numbered(names, "Circle", 1)
        && is_text(names, 0, "Shape")
        && is_text(names, 1, "Circle")
        && names.text(2).is_none()
}

fn names_hold(alloc: Global) -> Option<bool> {
    let mut names = Names::new(alloc, 2).ok()?;
    Some(are_kept(&mut names))
}

fn arity_of(selectors: &Selectors, number: u16) -> Option<u8> {
    selectors.arity(SelNo::new(number)?).map(Arity::number)
}

fn adds(selectors: &mut Selectors, number: u16, arity: u8) -> Option<bool> {
    Some(
        selectors
            .add(SelNo::new(number)?, Arity::new(arity)?)
            .is_ok(),
    )
}

fn drops(selectors: &mut Selectors, number: u16) -> Option<bool> {
    Some(selectors.drop_sel(SelNo::new(number)?).is_ok())
}

fn are_changed(selectors: &mut Selectors) -> bool {
    adds(selectors, 0, 1) == Some(true)
        && adds(selectors, 4095, 4) == Some(true)
        && adds(selectors, 0, 3) == Some(false)
        && drops(selectors, 7) == Some(false)
        && drops(selectors, 0) == Some(true)
        && drops(selectors, 0) == Some(false)
        && adds(selectors, 0, 2) == Some(true)
}

fn are_as_changed(selectors: &Selectors) -> bool {
    arity_of(selectors, 0) == Some(2)
        && arity_of(selectors, 1).is_none()
        && arity_of(selectors, 4094).is_none()
        && arity_of(selectors, 4095) == Some(4)
}

fn copy_is_as_changed(selectors: &Selectors) -> Option<bool> {
    let copy = selectors.copy().ok()?;
    Some(are_as_changed(&copy))
}

fn selectors_hold(alloc: Global) -> Option<bool> {
    let mut selectors = Selectors::new(alloc).ok()?;
    let is_right = are_changed(&mut selectors) && are_as_changed(&selectors);
    Some(is_right && copy_is_as_changed(&selectors)?)
}

#[test]
fn graphs(rt: HostRuntime) -> Result<(), Fail> {
    assert!(rt; graphs_hold(rt.alloc()) == Some(true));
    Ok(())
}

#[test]
fn names(rt: HostRuntime) -> Result<(), Fail> {
    assert!(rt; names_hold(rt.alloc()) == Some(true));
    Ok(())
}

#[test]
fn selectors(rt: HostRuntime) -> Result<(), Fail> {
    assert!(rt; selectors_hold(rt.alloc()) == Some(true));
    Ok(())
}
