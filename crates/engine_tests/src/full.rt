//! A program with as many definitions as there may be.
use crate::edits::{class, is_applied, parents, selector};
use crate::lines::first_wrong;
use dt_definitions::{Arity, BodyNo, CLASSES, DEFINITIONS, Edit, Program, Tuple};
use std::alloc::Global;
use std::test::Fail;

// The selectors from 0 to 31 are defined at each class, and those from 32 to 34 aren't.
const FULL: &str = "define 32 1 0 : 1 definitions-full
define 32 1 2047 : 1 definitions-full
define 31 1 2047 : ok
call 31 2047 : method 1
define 34 1 0 : 1 selector-unknown
undefine 31 2047; define 32 1 2047; define 31 1 2047 : 3 definitions-full
undefine 31 2047; define 32 1 2047 : ok
define 31 1 2047 : 1 definitions-full
call 32 2047 : method 1
call 31 2047 : not-understood";

fn adds_class(alloc: Global, program: &mut Program, number: u16) -> bool {
    let class = class(number);
    match parents(alloc, &[]) {
        Some(parents) => is_applied(program, &Edit::AddClass { class, parents }),
        None => false,
    }
}

fn adds_selector(program: &mut Program, number: u16) -> bool {
    let selector = selector(number);
    match Arity::new(1) {
        Some(arity) => is_applied(program, &Edit::AddSelector { selector, arity }),
        None => false,
    }
}

fn defines(program: &mut Program, number: u16, at: u16) -> bool {
    let Some(classes) = Tuple::new(&[class(at)]) else {
        return false;
    };
    let selector = selector(number);
    let body = BodyNo::new(number);
    let edit = Edit::Define {
        selector,
        classes,
        body,
    };
    is_applied(program, &edit)
}

fn fill(alloc: Global, program: &mut Program) -> bool {
    (0..CLASSES).all(|number| adds_class(alloc, program, number))
        && (0..33).all(|number| adds_selector(program, number))
        && (0..32).all(|number| (0..CLASSES).all(|at| defines(program, number, at)))
}

fn first_wrong_when_full(alloc: Global) -> Option<(u32, u32)> {
    let mut program = Program::new(alloc).ok()?;
    if !fill(alloc, &mut program) {
        return None;
    }
    let wrong = first_wrong(alloc, &mut program, FULL);
    Some((wrong, program.definitions()))
}

#[test]
fn full(rt: HostRuntime) -> Result<(), Fail> {
    assert!(rt; first_wrong_when_full(rt.alloc()) == Some((0, DEFINITIONS)));
    Ok(())
}
