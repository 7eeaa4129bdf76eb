use crate::arities::Arities;
use crate::small::{CLASS_NUMBERS, SELECTOR_NUMBERS, class, draw_class, draw_selector, selector};
use arrayvec::ArrayVec;
use dt_definitions::{Arity, Batch, BodyNo, ClassNo, Edit, Parents, Program, SelNo, Tuple};
use dt_trials::{Chance, Fault, is_applied, put};
use std::alloc::Global;

// How many bodies there are.
const BODIES: u16 = 5;

// So many definitions are taken away at most for one selector or class.
const MANY: u16 = 200;

// Whether the program, to which the edit is applied, accepts it; one in sixteen of those that it refuses is wanted, too.
fn is_wanted(chance: &mut Chance, trial: &mut Program, edit: &Edit) -> Result<bool, Fault> {
    let is_accepted = is_applied(trial, edit)?;
    Ok(is_accepted || chance.below(16) == 0)
}

// Puts the edit last where the program, to which it is applied, accepts it; one in sixteen of those that it refuses comes
// too.
fn push_edit(
    chance: &mut Chance,
    trial: &mut Program,
    batch: &mut Batch,
    edit: Edit,
) -> Result<(), Fault> {
    match is_wanted(chance, trial, &edit) {
        Ok(true) => put(batch, edit),
        Ok(false) => Ok(()),
        Err(fault) => Err(fault),
    }
}

// Whether the class is to come below this one.
fn is_drawn(chance: &mut Chance, program: &Program, class_no: ClassNo, parent: ClassNo) -> bool {
    parent != class_no && program.is_live(parent) && chance.below(8) == 0
}

// Lists some of the other classes that are live.
fn list_some(
    chance: &mut Chance,
    program: &Program,
    class_no: ClassNo,
    listed: &mut ArrayVec<ClassNo, 12>,
) {
    for number in &CLASS_NUMBERS {
        let parent = class(*number);
        if is_drawn(chance, program, class_no, parent) {
            let _ = listed.try_push(parent);
        }
    }
}

// The class comes below some of the others that are live.
fn draw_below(
    alloc: Global,
    chance: &mut Chance,
    program: &Program,
    class_no: ClassNo,
) -> Result<Edit, Fault> {
    let mut listed: ArrayVec<ClassNo, 12> = ArrayVec::new();
    list_some(chance, program, class_no, &mut listed);
    let parents = Parents::new(alloc, listed.as_slice())?;
    Ok(Edit::AddClass {
        class: class_no,
        parents,
    })
}

// A link that comes.
fn draw_link(chance: &mut Chance) -> Edit {
    let class = draw_class(chance);
    let parent = draw_class(chance);
    Edit::Link { class, parent }
}

// A link that goes, of those that there are where the class has any.
fn draw_unlink(chance: &mut Chance, program: &Program) -> Edit {
    let class = draw_class(chance);
    let place = usize::from(chance.below(3));
    let parents = program.graph().parents(class);
    let parent = match (parents.get(place), parents.first()) {
        (Some(parent), _) => *parent,
        (None, Some(parent)) => *parent,
        (None, None) => draw_class(chance),
    };
    Edit::Unlink { class, parent }
}

// The selector comes.
fn draw_arity(chance: &mut Chance, arities: Arities, selector: SelNo) -> Option<Edit> {
    let arity = Arity::new(arities.draw(chance))?;
    Some(Edit::AddSelector { selector, arity })
}

// As many classes as the selector takes, or one where it isn't live.
fn draw_tuple(chance: &mut Chance, program: &Program, selector: SelNo) -> Option<Tuple> {
    let count = program.arity(selector).map_or(1, Arity::number);
    let mut listed: ArrayVec<ClassNo, 4> = ArrayVec::new();
    for _ in 0..count {
        let _ = listed.try_push(draw_class(chance));
    }
    Tuple::new(listed.as_slice())
}

// A definition of the selector that comes, sometimes at classes that have one.
fn draw_define(chance: &mut Chance, program: &Program, selector: SelNo) -> Option<Edit> {
    let classes = draw_tuple(chance, program, selector)?;
    let body = BodyNo::new(chance.below(BODIES));
    Some(Edit::Define {
        selector,
        classes,
        body,
    })
}

// A definition of the selector that goes, of those that there are where it has enough.
fn draw_undefine(chance: &mut Chance, program: &Program, selector: SelNo) -> Option<Edit> {
    let place = u32::from(chance.below(4)) + 1;
    let classes = match program.of_selector(selector, place) {
        Some((classes, _body)) => *classes,
        None => draw_tuple(chance, program, selector)?,
    };
    Some(Edit::Undefine { selector, classes })
}

// An edit of one link or one definition.
fn draw_edit(chance: &mut Chance, program: &Program) -> Option<Edit> {
    let selector = draw_selector(chance);
    match chance.below(14) {
        0..=3 => Some(draw_link(chance)),
        4..=6 => Some(draw_unlink(chance, program)),
        7..=10 => draw_define(chance, program, selector),
        _ => draw_undefine(chance, program, selector),
    }
}

// Some definitions of the selector come.
fn push_defines(
    chance: &mut Chance,
    trial: &mut Program,
    batch: &mut Batch,
    selector: SelNo,
) -> Result<(), Fault> {
    for _ in 0..chance.below(4) {
        if let Some(edit) = draw_define(chance, trial, selector) {
            push_edit(chance, trial, batch, edit)?;
        }
    }
    Ok(())
}

// The first definition of the selector goes, where it has any.
fn push_undefine(
    chance: &mut Chance,
    trial: &mut Program,
    batch: &mut Batch,
    selector: SelNo,
) -> Result<bool, Fault> {
    let Some((classes, _body)) = trial.of_selector(selector, 1) else {
        return Ok(false);
    };
    let classes = *classes;
    push_edit(chance, trial, batch, Edit::Undefine { selector, classes })?;
    Ok(true)
}

// The selector goes with its definitions.
fn push_forget(
    chance: &mut Chance,
    trial: &mut Program,
    batch: &mut Batch,
    selector: SelNo,
) -> Result<(), Fault> {
    for _ in 0..MANY {
        if !push_undefine(chance, trial, batch, selector)? {
            break;
        }
    }
    push_edit(chance, trial, batch, Edit::DropSelector { selector })
}

// The selector comes with some definitions.
fn push_selector(
    chance: &mut Chance,
    arities: Arities,
    trial: &mut Program,
    batch: &mut Batch,
    selector: SelNo,
) -> Result<(), Fault> {
    if let Some(edit) = draw_arity(chance, arities, selector) {
        push_edit(chance, trial, batch, edit)?;
    }
    push_defines(chance, trial, batch, selector)
}

// A selector goes where it is live; it comes, where it wasn't live or, one time in two, where it went.
fn push_renewed(
    chance: &mut Chance,
    arities: Arities,
    trial: &mut Program,
    batch: &mut Batch,
) -> Result<(), Fault> {
    let selector = draw_selector(chance);
    let is_live = trial.arity(selector).is_some();
    if is_live {
        push_forget(chance, trial, batch, selector)?;
    }
    if !is_live || chance.below(2) == 0 {
        push_selector(chance, arities, trial, batch, selector)?;
    }
    Ok(())
}

// The first definition that names the class goes, where there is any.
fn push_unnamed(
    chance: &mut Chance,
    trial: &mut Program,
    batch: &mut Batch,
    class: ClassNo,
) -> Result<bool, Fault> {
    let Some(key) = trial.naming(class).first() else {
        return Ok(false);
    };
    let (selector, classes) = (key.selector, key.classes);
    push_edit(chance, trial, batch, Edit::Undefine { selector, classes })?;
    Ok(true)
}

// A class goes, with the definitions that name it.
fn push_dropped(
    chance: &mut Chance,
    trial: &mut Program,
    batch: &mut Batch,
    class: ClassNo,
) -> Result<(), Fault> {
    for _ in 0..MANY {
        if !push_unnamed(chance, trial, batch, class)? {
            break;
        }
    }
    push_edit(chance, trial, batch, Edit::DropClass { class })
}

// A class comes.
fn push_new(
    alloc: Global,
    chance: &mut Chance,
    trial: &mut Program,
    batch: &mut Batch,
    class: ClassNo,
) -> Result<(), Fault> {
    let edit = draw_below(alloc, chance, trial, class)?;
    push_edit(chance, trial, batch, edit)
}

// A class comes where it isn't live. Where it is, and no class is below it, it goes.
fn push_class(
    alloc: Global,
    chance: &mut Chance,
    trial: &mut Program,
    batch: &mut Batch,
) -> Result<(), Fault> {
    let class = draw_class(chance);
    if !trial.is_live(class) {
        return push_new(alloc, chance, trial, batch, class);
    }
    if trial.graph().below_count(class) == 1 {
        return push_dropped(chance, trial, batch, class);
    }
    Ok(())
}

// Draws an edit of one link or one definition.
fn push_one(chance: &mut Chance, trial: &mut Program, batch: &mut Batch) -> Result<(), Fault> {
    match draw_edit(chance, trial) {
        Some(edit) => push_edit(chance, trial, batch, edit),
        None => Ok(()),
    }
}

// Draws an edit, or some that belong together.
fn push_drawn(
    alloc: Global,
    chance: &mut Chance,
    arities: Arities,
    trial: &mut Program,
    batch: &mut Batch,
) -> Result<(), Fault> {
    match chance.below(14) {
        0 | 1 => push_renewed(chance, arities, trial, batch),
        2 => push_class(alloc, chance, trial, batch),
        _ => push_one(chance, trial, batch),
    }
}

// All classes come.
fn fill_classes(
    alloc: Global,
    chance: &mut Chance,
    trial: &mut Program,
    batch: &mut Batch,
) -> Result<(), Fault> {
    for number in CLASS_NUMBERS {
        push_new(alloc, chance, trial, batch, class(number))?;
    }
    Ok(())
}

// All selectors come.
fn fill_selectors(
    chance: &mut Chance,
    arities: Arities,
    trial: &mut Program,
    batch: &mut Batch,
) -> Result<(), Fault> {
    for number in SELECTOR_NUMBERS {
        push_selector(chance, arities, trial, batch, selector(number))?;
    }
    Ok(())
}

// Draws once, or up to eight times.
fn fill(
    alloc: Global,
    chance: &mut Chance,
    arities: Arities,
    trial: &mut Program,
    batch: &mut Batch,
) -> Result<(), Fault> {
    let more = if chance.below(2) == 0 {
        0
    } else {
        chance.below(8)
    };
    for _ in 0..=more {
        push_drawn(alloc, chance, arities, trial, batch)?;
    }
    Ok(())
}

// All classes come, and all selectors.
fn fill_first(
    alloc: Global,
    chance: &mut Chance,
    arities: Arities,
    trial: &mut Program,
    batch: &mut Batch,
) -> Result<(), Fault> {
    fill_classes(alloc, chance, trial, batch)?;
    fill_selectors(chance, arities, trial, batch)
}

/// The first batch of the empty program, to which it is applied: all classes and all selectors, with some definitions.
pub fn first_batch(
    alloc: Global,
    chance: &mut Chance,
    arities: Arities,
    trial: &mut Program,
) -> Result<Batch, Fault> {
    let mut batch = Batch::new(alloc);
    fill_first(alloc, chance, arities, trial, &mut batch)?;
    Ok(batch)
}

/// A batch by chance, of one edit or several, which are applied to the program where it accepts them. Some batches have an
/// edit that it refuses.
pub fn draw_batch(
    alloc: Global,
    chance: &mut Chance,
    arities: Arities,
    trial: &mut Program,
) -> Result<Batch, Fault> {
    let mut batch = Batch::new(alloc);
    fill(alloc, chance, arities, trial, &mut batch)?;
    Ok(batch)
}
