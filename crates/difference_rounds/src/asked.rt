ghost use Rattle.std.specs.Prelude.{◌≤◌, ◌<◌};

use crate::small::{CLASS_NUMBERS, SELECTOR_NUMBERS};
use dt_definitions::Program;
use dt_scratch::{Answer, Change, Query, Reply, resolve};

// How many classes a small program has.
const CLASSES: u16 = 6;

// The cell of a query: its answer, where it is answered.
fn cell(program: &Program, query: &Query) -> Answer {
    match resolve(program, query) {
        Reply::Answered { answer } => answer,
        _ => Answer::NotUnderstood,
    }
}

// Whether the query has the same cell in both programs and isn't the next change, or is the next change with its new
// cell; then the next one comes after it.
fn is_told_rightly(
    old: &Program,
    new: &Program,
    query: &Query,
    changes: &[Change],
    next: &mut usize,
) -> bool {
    let before = cell(old, query);
    let now = cell(new, query);
    if before == now {
        return true;
    }
    let Some(change) = changes.get(*next) else {
        return false;
    };
    *next = next.saturating_add(1);
    change.query == *query && change.answer == now
}

// The number of the class at the place that is this digit of the number, to the base of how many classes there are.
fn class_at(number: u16, base: u16) -> u16 {
    let digit = usize::from(number.checked_div(base).unwrap_or(0) % CLASSES);
    CLASS_NUMBERS.get(digit).copied().unwrap_or(0)
}

// The query with this number, in the order of class lists, of those with so many classes.
fn query_at(selector: u16, arity: usize, number: u16) -> Option<Query> {
    let classes = [
        class_at(number, 216),
        class_at(number, 36),
        class_at(number, 6),
        class_at(number, 1),
    ];
    Query::new(selector, classes.get(4usize.saturating_sub(arity)..)?)
}

// How many lists of so many classes there are.
fn lists(arity: usize) -> u16 {
    match arity {
        1 => 6,
        2 => 36,
        3 => 216,
        _ => 1296,
    }
}

// How many queries of this selector and arity are told wrongly.
fn wrong_of(
    old: &Program,
    new: &Program,
    selector: u16,
    arity: usize,
    changes: &[Change],
    next: &mut usize,
) -> u32 {
    let mut wrong: u32 = 0;
    for number in 0..lists(arity) {
        let is_right = match query_at(selector, arity, number) {
            Some(query) => is_told_rightly(old, new, &query, changes, next),
            None => false,
        };
        if !is_right {
            wrong = wrong.saturating_add(1);
        }
    }
    wrong
}

/// How many queries are told wrongly, where every query of a small program is asked in both; and how many changes are
/// left that no query meets in its turn.
pub fn wrong_changes(old: &Program, new: &Program, changes: &[Change]) -> u32 {
    let mut next: usize = 0;
    let mut wrong: u32 = 0;
    for selector in SELECTOR_NUMBERS {
        for arity in 1..5 {
            wrong = wrong.saturating_add(wrong_of(old, new, selector, arity, changes, &mut next));
        }
    }
    let left = changes.len().saturating_sub(next);
    wrong.saturating_add(u32::try_from(left).unwrap_or(u32::MAX))
}
