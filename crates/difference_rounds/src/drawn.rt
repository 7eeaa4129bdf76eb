use crate::small::{CLASS_NUMBERS, SELECTOR_NUMBERS, draw_class, draw_selector};
use arrayvec::ArrayVec;
use dt_definitions::{Arity, Batch, BodyNo, ClassNo, Edit, Parents, Program, SelNo, Tuple};
use dt_trials::{Chance, Fault, is_applied, put};
use std::alloc::Global;

// How many bodies there are.
const BODIES: u16 = 5;

// Whether the class is to come below this one.
fn is_drawn(chance: &mut Chance, program: &Program, class: ClassNo, parent: ClassNo) -> bool {
    parent != class && program.is_live(parent) && chance.below(3) == 0
}

// Lists some of the other classes that are live.
fn list_some(
    chance: &mut Chance,
    program: &Program,
    class: ClassNo,
    listed: &mut ArrayVec<ClassNo, 8>,
) {
    for number in &CLASS_NUMBERS {
        let parent = ClassNo::new(*number).unwrap_or_default();
        if is_drawn(chance, program, class, parent) {
            let _ = listed.try_push(parent);
        }
    }
}

// The class comes below some of the others that are live.
fn draw_below(
    alloc: Global,
    chance: &mut Chance,
    program: &Program,
    class: ClassNo,
) -> Result<Edit, Fault> {
    let mut listed: ArrayVec<ClassNo, 8> = ArrayVec::new();
    list_some(chance, program, class, &mut listed);
    let parents = Parents::new(alloc, listed.as_slice())?;
    Ok(Edit::AddClass { class, parents })
}

// A link that comes.
fn draw_link(chance: &mut Chance) -> Edit {
    let class = draw_class(chance);
    let parent = draw_class(chance);
    Edit::Link { class, parent }
}

// A link that goes, of those that there are where the class has any.
fn draw_unlink(chance: &mut Chance, program: &Program) -> Edit {
    let class = draw_class(chance);
    let place = usize::from(chance.below(3));
    let parent = match program.graph().parents(class).get(place) {
        Some(parent) => *parent,
        None => draw_class(chance),
    };
    Edit::Unlink { class, parent }
}

// The selector comes.
fn draw_arity(chance: &mut Chance, selector: SelNo) -> Option<Edit> {
    let arity = Arity::new(chance.below(4) as u8 + 1)?;
    Some(Edit::AddSelector { selector, arity })
}

// As many classes as the selector takes, or one where it isn't live.
fn draw_tuple(chance: &mut Chance, program: &Program, selector: SelNo) -> Option<Tuple> {
    let count = program.arity(selector).map_or(1, Arity::number);
    let mut listed: ArrayVec<ClassNo, 4> = ArrayVec::new();
    for _ in 0..count {
        let _ = listed.try_push(draw_class(chance));
    }
    Tuple::new(listed.as_slice())
}

// A definition that comes, often at classes that have one.
fn draw_define(chance: &mut Chance, program: &Program) -> Option<Edit> {
    let selector = draw_selector(chance);
    let classes = draw_tuple(chance, program, selector)?;
    let body = BodyNo::new(chance.below(BODIES));
    Some(Edit::Define {
        selector,
        classes,
        body,
    })
}

// A definition that goes, of those that there are where the selector has enough.
fn draw_undefine(chance: &mut Chance, program: &Program) -> Option<Edit> {
    let selector = draw_selector(chance);
    let place = u32::from(chance.below(6)) + 1;
    let classes = match program.of_selector(selector, place) {
        Some((classes, _body)) => *classes,
        None => draw_tuple(chance, program, selector)?,
    };
    Some(Edit::Undefine { selector, classes })
}

// An edit of this kind that brings no class, definitions and links more often.
fn draw_other(
    chance: &mut Chance,
    program: &Program,
    class: ClassNo,
    selector: SelNo,
    kind: u16,
) -> Option<Edit> {
    match kind {
        1 => Some(Edit::DropClass { class }),
        2..=5 => Some(draw_link(chance)),
        6 | 7 => Some(draw_unlink(chance, program)),
        8 => draw_arity(chance, selector),
        9 => Some(Edit::DropSelector { selector }),
        10..=13 => draw_define(chance, program),
        _ => draw_undefine(chance, program),
    }
}

// Whether the program, to which the edit is applied, accepts it; one in sixteen of those that it refuses is wanted, too.
fn is_wanted(chance: &mut Chance, trial: &mut Program, edit: &Edit) -> Result<bool, Fault> {
    let is_accepted = is_applied(trial, edit)?;
    Ok(is_accepted || chance.below(16) == 0)
}

// Puts the edit last where it is wanted.
fn push_edit(
    chance: &mut Chance,
    trial: &mut Program,
    batch: &mut Batch,
    edit: Edit,
) -> Result<(), Fault> {
    match is_wanted(chance, trial, &edit) {
        Ok(true) => put(batch, edit),
        Ok(false) => Ok(()),
        Err(fault) => Err(fault),
    }
}

// Draws that a class comes.
fn push_below(
    alloc: Global,
    chance: &mut Chance,
    trial: &mut Program,
    batch: &mut Batch,
    class: ClassNo,
) -> Result<(), Fault> {
    let edit = draw_below(alloc, chance, trial, class)?;
    push_edit(chance, trial, batch, edit)
}

// Draws an edit of this kind that brings no class.
fn push_other(
    chance: &mut Chance,
    trial: &mut Program,
    batch: &mut Batch,
    numbers: (ClassNo, SelNo),
    kind: u16,
) -> Result<(), Fault> {
    let (class, selector) = numbers;
    match draw_other(chance, trial, class, selector, kind) {
        Some(edit) => push_edit(chance, trial, batch, edit),
        None => Ok(()),
    }
}

// Draws an edit of any kind.
fn push_drawn(
    alloc: Global,
    chance: &mut Chance,
    trial: &mut Program,
    batch: &mut Batch,
) -> Result<(), Fault> {
    let (class, selector) = (draw_class(chance), draw_selector(chance));
    match chance.below(16) {
        0 => push_below(alloc, chance, trial, batch, class),
        kind => push_other(chance, trial, batch, (class, selector), kind),
    }
}

// The class comes last.
fn push_class(
    alloc: Global,
    chance: &mut Chance,
    trial: &mut Program,
    batch: &mut Batch,
    class: ClassNo,
) -> Result<(), Fault> {
    let edit = draw_below(alloc, chance, trial, class)?;
    is_applied(trial, &edit)?;
    put(batch, edit)
}

// All classes come last.
fn push_classes(
    alloc: Global,
    chance: &mut Chance,
    trial: &mut Program,
    batch: &mut Batch,
) -> Result<(), Fault> {
    for number in CLASS_NUMBERS {
        let class = ClassNo::new(number).unwrap_or_default();
        push_class(alloc, chance, trial, batch, class)?;
    }
    Ok(())
}

// All selectors come last.
fn push_selectors(chance: &mut Chance, batch: &mut Batch) -> Result<(), Fault> {
    for number in SELECTOR_NUMBERS {
        let selector = SelNo::new(number).unwrap_or_default();
        if let Some(edit) = draw_arity(chance, selector) {
            put(batch, edit)?;
        }
    }
    Ok(())
}

// Puts all classes and all selectors last.
fn fill_first(
    alloc: Global,
    chance: &mut Chance,
    trial: &mut Program,
    batch: &mut Batch,
) -> Result<(), Fault> {
    push_classes(alloc, chance, trial, batch)?;
    push_selectors(chance, batch)
}

// The first batch, which is tried on the empty program.
fn first_on(alloc: Global, chance: &mut Chance, trial: &mut Program) -> Result<Batch, Fault> {
    let mut batch = Batch::new(alloc);
    fill_first(alloc, chance, trial, &mut batch)?;
    Ok(batch)
}

/// The first batch of a program: all classes and all selectors.
pub fn first_batch(alloc: Global, chance: &mut Chance) -> Result<Batch, Fault> {
    let mut trial = Program::new(alloc)?;
    first_on(alloc, chance, &mut trial)
}

// Draws up to six edits.
fn fill(
    alloc: Global,
    chance: &mut Chance,
    trial: &mut Program,
    batch: &mut Batch,
) -> Result<(), Fault> {
    for _ in 0..=chance.below(6) {
        push_drawn(alloc, chance, trial, batch)?;
    }
    Ok(())
}

// A batch by chance, which is tried on this program.
fn draw_on(alloc: Global, chance: &mut Chance, trial: &mut Program) -> Result<Batch, Fault> {
    let mut batch = Batch::new(alloc);
    fill(alloc, chance, trial, &mut batch)?;
    Ok(batch)
}

/// A batch of at most six edits by chance, most of which the program accepts.
pub fn draw_batch(alloc: Global, chance: &mut Chance, program: &Program) -> Result<Batch, Fault> {
    let mut trial = program.copy()?;
    draw_on(alloc, chance, &mut trial)
}
