use crate::small::{class, selector};
use arrayvec::ArrayVec;
use dt_definitions::{Arity, Batch, BodyNo, ClassNo, Edit, Parents, Tuple};
use dt_scratch::Query;
use dt_trials::{Fault, put};
use std::alloc::Global;

// The digit at this place of digits that are parted by spaces.
fn digit(digits: &str, place: usize) -> Option<u16> {
    let byte = digits.as_bytes().get(place.saturating_mul(2))?;
    Some(u16::from(byte.saturating_sub(b'0')))
}

// The classes of the digits from this place on, four of them at most.
fn classes_from(digits: &str, first: usize) -> ArrayVec<ClassNo, 4> {
    let mut listed = ArrayVec::new();
    for place in first..first.saturating_add(4) {
        if let Some(number) = digit(digits, place) {
            let _ = listed.try_push(class(number));
        }
    }
    listed
}

// The parents of the digits from the second on.
fn parents_of(alloc: Global, digits: &str) -> Result<Parents, Fault> {
    let listed = classes_from(digits, 1);
    Ok(Parents::new(alloc, listed.as_slice())?)
}

// Puts last that a class comes.
fn put_class(alloc: Global, batch: &mut Batch, digits: &str) -> Result<(), Fault> {
    let class = class(digit(digits, 0).unwrap_or_default());
    let parents = parents_of(alloc, digits)?;
    put(batch, Edit::AddClass { class, parents })
}

// A selector that comes, with how many arguments it takes.
fn selector_edit(digits: &str) -> Option<Edit> {
    let selector = selector(digit(digits, 0)?);
    let arity = Arity::new(u8::try_from(digit(digits, 1)?).ok()?)?;
    Some(Edit::AddSelector { selector, arity })
}

// A selector that goes.
fn forget_edit(digits: &str) -> Option<Edit> {
    let selector = selector(digit(digits, 0)?);
    Some(Edit::DropSelector { selector })
}

// A definition that comes: its selector, its body and its classes.
fn define_edit(digits: &str) -> Option<Edit> {
    let selector = selector(digit(digits, 0)?);
    let body = BodyNo::new(digit(digits, 1)?);
    let classes = Tuple::new(classes_from(digits, 2).as_slice())?;
    Some(Edit::Define {
        selector,
        classes,
        body,
    })
}

// A definition that goes: its selector and its classes.
fn undefine_edit(digits: &str) -> Option<Edit> {
    let selector = selector(digit(digits, 0)?);
    let classes = Tuple::new(classes_from(digits, 1).as_slice())?;
    Some(Edit::Undefine { selector, classes })
}

// The edit, where it brings no class.
fn edit_of(word: &str, digits: &str) -> Option<Edit> {
    if word == "selector" {
        return selector_edit(digits);
    }
    if word == "forget" {
        return forget_edit(digits);
    }
    if word == "define" {
        return define_edit(digits);
    }
    undefine_edit(digits)
}

// Puts the edit last, where it brings no class.
fn put_other(batch: &mut Batch, word: &str, digits: &str) -> Result<(), Fault> {
    match edit_of(word, digits) {
        Some(edit) => put(batch, edit),
        None => Ok(()),
    }
}

// Puts the edit last.
fn put_words(alloc: Global, batch: &mut Batch, words: &str) -> Result<(), Fault> {
    let (word, digits) = words.split_once(' ').unwrap_or((words, ""));
    if word == "class" {
        return put_class(alloc, batch, digits);
    }
    put_other(batch, word, digits)
}

// Puts each of the edits last.
fn put_each(alloc: Global, batch: &mut Batch, edits: &str) -> Result<(), Fault> {
    for words in edits.split("; ") {
        put_words(alloc, batch, words)?;
    }
    Ok(())
}

/// The batch of these edits, which are parted by `; `. Each is a word and digits: `class`, the class and its parents;
/// `selector`, the selector and how many arguments it takes; `define`, the selector, the body and the classes; `undefine`,
/// the selector and the classes; or `forget` and the selector.
pub fn batch_of(alloc: Global, edits: &str) -> Result<Batch, Fault> {
    let mut batch = Batch::new(alloc);
    put_each(alloc, &mut batch, edits)?;
    Ok(batch)
}

/// The query of a selector and one class or two, each a digit.
pub fn query_of(digits: &str) -> Option<Query> {
    let (selector, first) = (digit(digits, 0)?, digit(digits, 1)?);
    match digit(digits, 2) {
        Some(second) => Query::new(selector, &[first, second]),
        None => Query::new(selector, &[first]),
    }
}
