use arrayvec::ArrayVec;
use dt_definitions::{Arity, Batch, BodyNo, ClassNo, Edit, Parents, SelNo, Tuple};
use dt_trials::{Fault, put};
use std::alloc::Global;

// The class of this number.
fn class(number: u16) -> ClassNo {
    ClassNo::new(number).unwrap_or_default()
}

// The selector of this number.
fn selector(number: u16) -> SelNo {
    SelNo::new(number).unwrap_or_default()
}

// The classes of these numbers, the first four of them.
fn classes_of(numbers: &[u16]) -> ArrayVec<ClassNo, 4> {
    let mut listed = ArrayVec::new();
    for number in numbers {
        let _ = listed.try_push(class(*number));
    }
    listed
}

/// Puts a new class last, with these parents.
pub fn put_class(
    alloc: Global,
    batch: &mut Batch,
    number: u16,
    parents: &[u16],
) -> Result<(), Fault> {
    let parents = Parents::new(alloc, classes_of(parents).as_slice())?;
    put(
        batch,
        Edit::AddClass {
            class: class(number),
            parents,
        },
    )
}

/// Puts a new selector last, which takes so many arguments.
pub fn put_selector(batch: &mut Batch, number: u16, arity: u8) -> Result<(), Fault> {
    let Some(arity) = Arity::new(arity) else {
        return Ok(());
    };
    put(
        batch,
        Edit::AddSelector {
            selector: selector(number),
            arity,
        },
    )
}

/// Puts a definition last.
pub fn put_define(batch: &mut Batch, number: u16, classes: &[u16], body: u16) -> Result<(), Fault> {
    let Some(classes) = Tuple::new(classes_of(classes).as_slice()) else {
        return Ok(());
    };
    put(
        batch,
        Edit::Define {
            selector: selector(number),
            classes,
            body: BodyNo::new(body),
        },
    )
}

/// Puts last that a definition goes.
pub fn put_undefine(batch: &mut Batch, number: u16, classes: &[u16]) -> Result<(), Fault> {
    let Some(classes) = Tuple::new(classes_of(classes).as_slice()) else {
        return Ok(());
    };
    put(
        batch,
        Edit::Undefine {
            selector: selector(number),
            classes,
        },
    )
}

/// Puts a link last.
pub fn put_link(batch: &mut Batch, low: u16, high: u16) -> Result<(), Fault> {
    put(
        batch,
        Edit::Link {
            class: class(low),
            parent: class(high),
        },
    )
}

/// Puts last that a link goes.
pub fn put_unlink(batch: &mut Batch, low: u16, high: u16) -> Result<(), Fault> {
    put(
        batch,
        Edit::Unlink {
            class: class(low),
            parent: class(high),
        },
    )
}
