ghost use Rattle.std.specs.Prelude.{◌<◌};

use crate::drawing::draw_class;
use crate::query_kind::QueryKind;
use crate::size::Size;
use dt_definitions::{ClassGraph, ClassNo, Program, Tuple};
use dt_scratch::{Answer, Query, Reply, resolve};
use dt_selectors::SelNo;
use dt_trials::{Chance, Fault};
use std::alloc::Global;

// How many queries of a kind, or pairs of classes, a round asks.
const QUERIES: usize = 1024;

// How many calls are drawn at most to find those queries.
const TRIES: u32 = 262_144;

/// Queries of a kind.
#[derive(Drop)]
pub struct Queries {
    /// The kind.
    pub kind: QueryKind,
    /// The queries.
    pub calls: Vec<Query>,
}

/// Whether a method answers the query.
pub fn is_hit(program: &Program, query: &Query) -> bool {
    match resolve(program, query) {
        Reply::Answered { answer } => match answer {
            Answer::Method { .. } => true,
            Answer::NotUnderstood | Answer::Ambiguous => false,
        },
        Reply::NoSelector | Reply::WrongArity | Reply::NoClass { .. } => false,
    }
}

/// Whether the selector of this number takes so many arguments.
pub fn takes(program: &Program, selector: u16, arguments: u8) -> bool {
    match SelNo::new(selector) {
        Some(selector) => match program.arity(selector) {
            Some(arity) => arity.number() == arguments,
            None => false,
        },
        None => false,
    }
}

// The numbers of the selectors that take so many arguments.
fn selectors_taking(
    alloc: Global,
    size: Size,
    program: &Program,
    arguments: u8,
) -> Result<Vec<u16>, Fault> {
    let mut selectors = Vec::new(alloc);
    for selector in 0..size.selectors {
        if takes(program, selector, arguments) {
            selectors.push(selector)?;
        }
    }
    Ok(selectors)
}

// Draws one of the things.
fn draw_one<T: Copy>(chance: &mut Chance, things: &[T]) -> Option<T> {
    let count = u16::try_from(things.len()).unwrap_or(u16::MAX);
    if count == 0 {
        return None;
    }
    things.get(usize::from(chance.below(count))).copied()
}

// Draws a call of one of the selectors, which take so many arguments, at any classes.
fn draw_call(chance: &mut Chance, size: Size, selectors: &[u16], arguments: u8) -> Option<Query> {
    let selector = draw_one(chance, selectors)?;
    let first = chance.below(size.classes);
    if arguments == 1 {
        return Query::new(selector, &[first]);
    }
    let second = chance.below(size.classes);
    Query::new(selector, &[first, second])
}

// Draws a class at or below this one.
fn draw_below(
    alloc: Global,
    chance: &mut Chance,
    graph: &ClassGraph,
    class: ClassNo,
) -> Result<u16, Fault> {
    let mut below = Vec::new(alloc);
    graph.descendants_into(class, &mut below)?;
    Ok(draw_one(chance, below.as_slice()).unwrap_or(class).number())
}

// Draws the classes of one of the selector's definitions.
fn draw_defined(chance: &mut Chance, program: &Program, selector: u16) -> Option<Tuple> {
    let definitions = program.definitions_of(SelNo::new(selector)?);
    let defined = draw_one(chance, definitions)?;
    Some(defined.classes)
}

// Draws a call of one of the selectors, which take two arguments, at classes at or below those of one of its definitions.
fn draw_call_below(
    alloc: Global,
    chance: &mut Chance,
    program: &Program,
    selectors: &[u16],
) -> Result<Option<Query>, Fault> {
    let Some(selector) = draw_one(chance, selectors) else {
        return Ok(None);
    };
    let Some(classes) = draw_defined(chance, program, selector) else {
        return Ok(None);
    };
    let [first, second] = *classes.classes() else {
        return Ok(None);
    };
    let first = draw_below(alloc, chance, program.graph(), first)?;
    let second = draw_below(alloc, chance, program.graph(), second)?;
    Ok(Query::new(selector, &[first, second]))
}

// Draws a call of one of the selectors, which take as many arguments as the kind has.
fn draw_query(
    alloc: Global,
    chance: &mut Chance,
    size: Size,
    program: &Program,
    kind: QueryKind,
    selectors: &[u16],
) -> Result<Option<Query>, Fault> {
    match kind {
        QueryKind::HitsOfOne | QueryKind::RandomOfOne | QueryKind::RandomOfTwo => {
            Ok(draw_call(chance, size, selectors, kind.arguments()))
        }
        QueryKind::HitsOfTwo => draw_call_below(alloc, chance, program, selectors),
    }
}

// Whether a query that is drawn is one of the kind.
fn is_of_kind(program: &Program, query: &Query, kind: QueryKind) -> bool {
    match kind {
        QueryKind::HitsOfOne | QueryKind::HitsOfTwo => is_hit(program, query),
        QueryKind::RandomOfOne | QueryKind::RandomOfTwo => true,
    }
}

// Draws calls of the selectors until there are enough of the kind.
fn draw_calls(
    alloc: Global,
    chance: &mut Chance,
    size: Size,
    program: &Program,
    kind: QueryKind,
    selectors: &[u16],
) -> Result<Vec<Query>, Fault> {
    let mut calls = Vec::new(alloc);
    for _ in 0..TRIES {
        if calls.len() == QUERIES || selectors.is_empty() {
            break;
        }
        if let Some(call) = draw_query(alloc, chance, size, program, kind, selectors)?
            && is_of_kind(program, &call, kind)
        {
            calls.push(call)?;
        }
    }
    Ok(calls)
}

// Draws queries of the kind.
fn draw_queries(
    alloc: Global,
    chance: &mut Chance,
    size: Size,
    program: &Program,
    kind: QueryKind,
) -> Result<Queries, Fault> {
    let selectors = selectors_taking(alloc, size, program, kind.arguments())?;
    let calls = draw_calls(alloc, chance, size, program, kind, &selectors)?;
    Ok(Queries { kind, calls })
}

/// Draws queries of each kind: 1,024 of each, or fewer where the program has too few.
pub fn draw_all_queries(
    alloc: Global,
    chance: &mut Chance,
    size: Size,
    program: &Program,
) -> Result<Vec<Queries>, Fault> {
    let mut all = Vec::new(alloc);
    for kind in [
        QueryKind::HitsOfOne,
        QueryKind::RandomOfOne,
        QueryKind::HitsOfTwo,
        QueryKind::RandomOfTwo,
    ] {
        all.push(draw_queries(alloc, chance, size, program, kind)?)?;
    }
    Ok(all)
}

/// Pairs of classes.
pub fn random_pairs(
    alloc: Global,
    chance: &mut Chance,
    classes: u16,
) -> Result<Vec<(ClassNo, ClassNo)>, Fault>
    requires { 0 < classes }
{
    let mut pairs = Vec::with_capacity(alloc, QUERIES)?;
    for _ in 0..QUERIES {
        let low = draw_class(chance, classes);
        let high = draw_class(chance, classes);
        pairs.push((low, high))?;
    }
    Ok(pairs)
}
