//! What a program answers, against a line of a table.
use crate::edits::{batch, cause, class, classes, number, numbers};
use dt_definitions::{Batch, BatchFault, BodyNo, ClassNo, Program, Why};
use dt_scratch::{Answer, Query, Reply, resolve};
use std::alloc::Global;

// The reply of these words.
fn reply(words: &str) -> Option<Reply> {
    let (word, rest) = words.split_once(' ').unwrap_or((words, "0"));
    let number = number(rest)?;
    let body = BodyNo::new(number);
    let place = u8::try_from(number).ok()?;
    let answer = match word {
        "no-selector" => return Some(Reply::NoSelector),
        "wrong-arity" => return Some(Reply::WrongArity),
        "no-class" => return Some(Reply::NoClass { place }),
        "method" => Answer::Method { body },
        "not-understood" => Answer::NotUnderstood,
        "ambiguous" => Answer::Ambiguous,
        _ => return None,
    };
    Some(Reply::Answered { answer })
}

// The query of these numbers: the selector's, and those of the classes.
fn query(numbers: &[u16]) -> Option<Query> {
    let [selector, rest @ ..] = numbers else {
        return None;
    };
    Query::new(*selector, rest)
}

fn is_reply(program: &Program, query: &Query, reply: Reply) -> bool {
    resolve(program, query) == reply
}

// Whether the call gets this reply.
fn is_replied(alloc: Global, program: &Program, words: &str, told: &str) -> Option<bool> {
    let query = query(&numbers(alloc, words)?)?;
    match reply(told) {
        Some(reply) => Some(is_reply(program, &query, reply)),
        None => None,
    }
}

// Whether the classes at and below the class are these.
fn is_above(alloc: Global, program: &Program, of: &str, words: &str) -> Option<bool> {
    let mut found = Vec::new(alloc);
    program
        .graph()
        .descendants_into(class(number(of)?), &mut found)
        .ok()?;
    is_listed(alloc, &found, words)
}

// Whether the classes are these.
fn is_listed(alloc: Global, found: &[ClassNo], words: &str) -> Option<bool> {
    let wanted: Vec<ClassNo> = classes(alloc, words)?;
    Some(found == wanted.as_slice())
}

// Whether the batch is refused at this place and for this cause.
fn is_refused(program: &mut Program, batch: &Batch, told: &str) -> Option<bool> {
    let (place, name) = told.split_once(' ')?;
    let at = u32::from(number(place)?);
    let why: Why = cause(name)?;
    Some(program.apply_batch(batch) == Err(BatchFault::Refused { at, why }))
}

fn is_accepted(program: &mut Program, batch: &Batch) -> bool {
    program.apply_batch(batch).is_ok()
}

// Whether a copy of the batch gets this answer: `ok`, or the place and the cause.
fn is_answered(program: &mut Program, batch: &Batch, told: &str) -> Option<bool> {
    let copy = batch.copy().ok()?;
    if told == "ok" {
        return Some(is_accepted(program, &copy));
    }
    is_refused(program, &copy, told)
}

// Whether the batch of these words gets this answer.
fn is_applied(alloc: Global, program: &mut Program, words: &str, told: &str) -> Option<bool> {
    let batch = batch(alloc, words)?;
    is_answered(program, &batch, told)
}

// A program without anything takes the place of this one.
fn begin(alloc: Global, program: &mut Program) -> Option<bool> {
    *program = Program::new(alloc).ok()?;
    Some(true)
}

// A copy of this program takes its place.
fn copy(program: &mut Program) -> Option<bool> {
    *program = program.copy().ok()?;
    Some(true)
}

// Whether the line holds of the program: a call and its reply, as `call 5 0 1 : no-class 2`; the classes at and below
// one, as `below 2 : 2 3`; or a batch and its answer, as `drop 9; drop 9 : 1 class-unknown 9`. The program is as the
// batch leaves it. At `begin` a new program takes its place, and at `copy` a copy of it.
fn holds(alloc: Global, program: &mut Program, line: &str) -> Option<bool> {
    let (left, right) = line.split_once(" : ").unwrap_or((line, ""));
    let (word, rest) = left.split_once(' ').unwrap_or((left, ""));
    match word {
        "begin" => begin(alloc, program),
        "copy" => copy(program),
        "call" => is_replied(alloc, program, rest, right),
        "below" => is_above(alloc, program, rest, right),
        _ => is_applied(alloc, program, left, right),
    }
}

// The number of the first line, from 1, that doesn't hold; 0 where all do.
pub(crate) fn first_wrong(alloc: Global, program: &mut Program, lines: &str) -> u32 {
    let mut place: u32 = 0;
    for line in lines.split('\n') {
        place = place.saturating_add(1);
        if holds(alloc, program, line) != Some(true) {
            return place;
        }
    }
    0
}
