//! Worked rows: programs, their replies, and the replies after each change.
use crate::lines::first_wrong;
use dt_definitions::Program;
use std::alloc::Global;
use std::test::Fail;

// In the order of their parts: a class with two below it and one below both, under one selector; the same with a
// definition at the lowest, and without one of its links; an undefine; cycles; every refusal; two arguments; drops; the
// order of replies; a refused batch; a full class; a copied batch and a copied program.
const ROWS: &str = "begin
class 0; class 1 0; class 2 0; class 3 1 2; selector 4 1; define 4 10 1; define 4 20 2 : ok
below 1 : 1 3
call 4 0 : not-understood
call 4 1 : method 10
call 4 3 : ambiguous
define 4 30 3 : ok
call 4 3 : method 30
define 4 31 3 : ok
call 4 3 : method 31
undefine 4 3 : ok
call 4 3 : ambiguous
unlink 3 2 : ok
call 4 3 : method 10
call 4 2 : method 20
below 2 : 2
link 1 2 : ok
call 4 3 : method 10
below 2 : 1 2 3
undefine 4 1 : ok
call 4 3 : method 20
drop 3 : ok
call 4 3 : no-class 1
class 3 : ok
call 4 3 : not-understood
undefine 4 2; forget 4 : ok
call 4 3 : no-selector
begin
class 0; class 1 0; selector 5 1; define 5 1 0; define 5 2 1 : ok
call 5 1 : method 2
undefine 5 1 : ok
undefine 5 1 : 1 no-definition
call 5 1 : method 1
begin
class 0; class 1 0; class 2 1 : ok
link 0 0 : 1 cycle
link 0 2 : 1 cycle
link 2 0 : ok
begin
class 0 : ok
class 0 : 1 class-exists
class 1 9 : 1 class-unknown 9
class 1 0 0 : 1 parent-twice 0
class 1 0 0 0 0 0 0 0 0 0 0 0 0 0 0 0 0 0 : 1 too-many-parents
selector 4 1 : ok
selector 4 2 : 1 selector-exists
forget 6 : 1 selector-unknown
define 4 7 0 0 : 1 arity-differs
define 4 7 0 : ok
forget 4 : 1 has-definitions
drop 0 : 1 has-definitions
class 1 0 : ok
link 1 0 : 1 link-exists
unlink 0 1 : 1 link-unknown
define 4 8 0 : ok
call 4 1 : method 8
begin
class 0; class 1 0; class 2 0; selector 7 2; define 7 30 0 2; define 7 40 2 0 : ok
call 7 2 2 : ambiguous
call 7 1 2 : method 30
call 7 2 1 : method 40
call 7 1 1 : not-understood
begin
class 0; class 1 0; class 9; selector 5 1; define 5 1 0 : ok
drop 0 : 1 has-subclasses 1
drop 1 : ok
class 1 9 : ok
call 5 1 : not-understood
call 5 0 : method 1
begin
class 0; selector 5 2 : ok
call 5 0 1 : no-class 2
call 5 0 : wrong-arity
call 5 0 0 0 1 : wrong-arity
call 6 1 : no-selector
call 5 1 1 : no-class 1
call 5 0 0 : not-understood
call 4096 0 0 : no-selector
call 65535 65535 : no-selector
call 5 0 2048 : no-class 2
call 5 65535 2048 : no-class 1
begin
selector 5 1 : ok
class 8; class 8; class 9 : 2 class-exists
call 5 8 : no-class 1
begin
class 0; class 1; class 2; class 3; class 4; class 5; class 6; class 7; class 8; class 9; class 10; class 11; class 12; class 13; class 14; class 15; class 16; class 17 : ok
class 18 0 1 2 3 4 5 6 7 8 9 10 11 12 13 14 15 : ok
link 18 15 : 1 link-exists
link 18 16 : 1 too-many-parents
link 18 18 : 1 too-many-parents
begin
class 0; class 1 0; class 2 0; class 3 1 2; selector 4 1; define 4 10 1; define 4 20 2 : ok
copy
below 1 : 1 3
call 4 0 : not-understood
call 4 1 : method 10
call 4 3 : ambiguous
unlink 3 1 : ok
call 4 3 : method 20";

// A program, and then what changes it; what its copy shows that was made in between; and what it shows itself once the
// copy is changed, too.
const COPIED: &str =
    "class 0; class 1 0; class 2 0; class 3 1 2; selector 5 1; define 5 20 2; define 5 10 1 : ok
call 5 3 : ambiguous";

const CHANGED: &str = "define 5 30 3; unlink 3 2; selector 6 1 : ok
below 2 : 2
call 5 3 : method 30";

const COPY: &str = "below 2 : 2 3
call 5 3 : ambiguous
call 6 3 : no-selector
selector 6 1; undefine 5 1; drop 3 : ok
below 2 : 2
call 5 2 : method 20";

const STILL_CHANGED: &str = "below 1 : 1 3
call 5 3 : method 30
call 5 1 : method 10";

fn first_wrong_row(alloc: Global) -> Option<u32> {
    let mut program = Program::new(alloc).ok()?;
    Some(first_wrong(alloc, &mut program, ROWS))
}

fn is_apart(alloc: Global, program: &mut Program, copy: &mut Program) -> bool {
    first_wrong(alloc, program, CHANGED) == 0
        && first_wrong(alloc, copy, COPY) == 0
        && first_wrong(alloc, program, STILL_CHANGED) == 0
}

fn copy_is_apart(alloc: Global, program: &mut Program) -> Option<bool> {
    let mut copy = program.copy().ok()?;
    Some(is_apart(alloc, program, &mut copy))
}

fn copies_are_apart(alloc: Global) -> Option<bool> {
    let mut program = Program::new(alloc).ok()?;
    if first_wrong(alloc, &mut program, COPIED) != 0 {
        return Some(false);
    }
    copy_is_apart(alloc, &mut program)
}

#[test]
fn rows(rt: HostRuntime) -> Result<(), Fail> {
    assert_eq!(rt; first_wrong_row(rt.alloc()), Some(0));
    Ok(())
}

#[test]
fn copies(rt: HostRuntime) -> Result<(), Fail> {
    assert!(rt; copies_are_apart(rt.alloc()) == Some(true));
    Ok(())
}
