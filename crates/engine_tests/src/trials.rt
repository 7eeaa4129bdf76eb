//! Batches that are tried, and then accepted or refused, beside a program to which only the accepted ones are applied.
use crate::edits::{batch, class, selector};
use dt_definitions::{Batch, Program, TwoPrograms};
use std::alloc::Global;
use std::test::Fail;

// Each batch of the history, and whether it is accepted. The second undefines and defines in a list that others share,
// and changes classes and selectors on the way; the last is itself refused.
const HISTORY: [(&str, bool); 6] = [
    (
        "class 0; class 1 0; class 2 0; class 3 1 2; selector 5 1; define 5 20 2; define 5 10 1",
        true,
    ),
    (
        "undefine 5 2; undefine 5 1; define 5 7 3; unlink 3 2; class 8 3; selector 6 2; define 6 1 8 8; undefine 5 3; forget 5; selector 5 2; define 5 1 8 8",
        false,
    ),
    ("define 5 30 3; unlink 3 2; selector 6 1", true),
    ("undefine 5 3; undefine 5 2; undefine 5 1", false),
    ("undefine 5 3; drop 3", true),
    ("undefine 5 2; drop 3", false),
];

fn has_same_class(one: &Program, other: &Program, number: u16) -> bool {
    let class = class(number);
    one.is_live(class) == other.is_live(class)
        && one.graph().parents(class) == other.graph().parents(class)
}

fn has_same_selector(one: &Program, other: &Program, number: u16) -> bool {
    let selector = selector(number);
    one.arity(selector) == other.arity(selector)
        && one.definitions_of(selector) == other.definitions_of(selector)
}

fn is_same(one: &Program, other: &Program) -> bool {
    (0..10).all(|number| has_same_class(one, other, number))
        && (0..10).all(|number| has_same_selector(one, other, number))
}

// Tries the batch on both, and tells whether both answer alike and come to the same.
fn is_tried_alike(two: &mut TwoPrograms, wanted: &mut Program, batch: Batch) -> bool {
    let is_accepted = wanted.apply_batch(&batch).is_ok();
    two.refuse();
    two.try_batch(batch).is_ok() == is_accepted && is_same(two.tried(), wanted)
}

// The batch is accepted, and this program stands from now on; or it is refused.
fn decide(two: &mut TwoPrograms, stands: &mut Program, tried: Program, is_accepted: bool) {
    if is_accepted {
        two.accept();
        *stands = tried;
    } else {
        two.refuse();
    }
}

// A batch of the history; what stands is this program before it.
fn is_batch_alike(
    two: &mut TwoPrograms,
    stands: &mut Program,
    batch: Batch,
    is_accepted: bool,
) -> Option<bool> {
    let mut tried = stands.copy().ok()?;
    let is_alike = is_tried_alike(two, &mut tried, batch) && is_same(two.stands(), stands);
    decide(two, stands, tried, is_accepted);
    Some(is_alike && is_same(two.stands(), stands) && is_same(two.tried(), stands))
}

// One batch of the history, in words.
fn is_alike(
    alloc: Global,
    two: &mut TwoPrograms,
    stands: &mut Program,
    words: &str,
    is_accepted: bool,
) -> Option<bool> {
    let batch = batch(alloc, words)?;
    is_batch_alike(two, stands, batch, is_accepted)
}

// Whether the two never differ, along the history.
fn all_alike(alloc: Global, two: &mut TwoPrograms, stands: &mut Program) -> bool {
    for (words, is_accepted) in HISTORY {
        if is_alike(alloc, two, stands, words, is_accepted) != Some(true) {
            return false;
        }
    }
    true
}

fn all_alike_from(alloc: Global, two: &mut TwoPrograms) -> Option<bool> {
    let mut stands = Program::new(alloc).ok()?;
    Some(all_alike(alloc, two, &mut stands))
}

fn all_are_alike(alloc: Global) -> Option<bool> {
    let mut two = TwoPrograms::new(alloc).ok()?;
    all_alike_from(alloc, &mut two)
}

#[test]
fn batches_are_tried(rt: HostRuntime) -> Result<(), Fail> {
    assert!(rt; all_are_alike(rt.alloc()) == Some(true));
    Ok(())
}
