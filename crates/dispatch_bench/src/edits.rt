ghost use Rattle.std.specs.Prelude.{◌<◌};

use crate::drawing::draw_class;
use crate::edit_kind::EditKind;
use crate::generated::Generated;
use crate::size::Size;
use crate::work::apply_all;
use dt_definitions::{
    Batch, BodyNo, ClassGraph, ClassNo, Edit, NoMemory, Parents, Program, SelNo, Tuple,
};
use dt_trials::{Chance, Fault, is_applied, put};
use std::alloc::Global;

// How many edits of a kind are drawn.
const EDITS: u16 = 50;

// How many definitions are drawn at most to find one at classes with none below them.
const TRIES: u32 = 64;

// How many edits a batch has that is refused or undone.
const BATCH: u16 = 500;

// The first body that no definition of a generated program has.
const NEW_BODY: u16 = 16_384;

/// Edits of a kind that are accepted one after another, and the edits that undo them.
#[derive(Drop)]
pub struct Trial {
    /// The kind.
    pub kind: EditKind,
    /// The edits.
    pub edits: Vec<Edit>,
    /// What undoes them, that of the last edit first.
    pub undo: Vec<Edit>,
}

// What undoes a definition: the one that it replaces, or that it goes.
fn undo_of_define(program: &Program, selector: SelNo, classes: Tuple) -> Edit {
    match program.body(selector, classes.classes()) {
        Some(body) => Edit::Define {
            selector,
            classes,
            body,
        },
        None => Edit::Undefine { selector, classes },
    }
}

// What undoes the end of a definition, if there is one.
fn undo_of_undefine(program: &Program, selector: SelNo, classes: Tuple) -> Option<Edit> {
    let body = program.body(selector, classes.classes())?;
    Some(Edit::Define {
        selector,
        classes,
        body,
    })
}

// The edit that undoes this one, of those that are tried.
fn undo_of(program: &Program, edit: &Edit) -> Option<Edit> {
    match edit {
        Edit::AddClass { class, .. } => Some(Edit::DropClass { class: *class }),
        Edit::Link { class, parent } => Some(Edit::Unlink {
            class: *class,
            parent: *parent,
        }),
        Edit::Unlink { class, parent } => Some(Edit::Link {
            class: *class,
            parent: *parent,
        }),
        Edit::Define {
            selector,
            classes,
            ..
        } => Some(undo_of_define(program, *selector, *classes)),
        Edit::Undefine { selector, classes } => undo_of_undefine(program, *selector, *classes),
        _ => None,
    }
}

// Puts an edit, and what undoes it, behind the others.
fn keep(trial: &mut Trial, edit: Edit, undo: Edit) -> Result<(), Fault> {
    trial.edits.push(edit)?;
    trial.undo.push(undo)?;
    Ok(())
}

// Keeps the edit where it is accepted.
fn keep_if_accepted(program: &mut Program, trial: &mut Trial, edit: Edit) -> Result<(), Fault> {
    let Some(undo) = undo_of(program, &edit) else {
        return Ok(());
    };
    if is_applied(program, &edit)? {
        keep(trial, edit, undo)?;
    }
    Ok(())
}

// Keeps those of the edits that are accepted one after another.
fn keep_accepted(program: &mut Program, trial: &mut Trial, edits: Vec<Edit>) -> Result<(), Fault> {
    for edit in edits {
        keep_if_accepted(program, trial, edit)?;
    }
    trial.undo.reverse();
    Ok(())
}

// Draws one of the definitions.
fn draw_defined(chance: &mut Chance, generated: &Generated) -> Option<(SelNo, Tuple, BodyNo)> {
    let number = chance.below(generated.size.definitions());
    generated.definition(number)
}

// Whether no class is below one of these.
fn are_leaves(graph: &ClassGraph, classes: &Tuple) -> bool {
    classes
        .classes()
        .iter()
        .all(|class| graph.below_count(*class) == 1)
}

// Draws a definition whose classes have none below them.
fn draw_at_leaves(
    chance: &mut Chance,
    generated: &Generated,
    graph: &ClassGraph,
) -> Option<(SelNo, Tuple, BodyNo)> {
    for _ in 0..TRIES {
        if let Some(defined) = draw_defined(chance, generated)
            && are_leaves(graph, &defined.1)
        {
            return Some(defined);
        }
    }
    None
}

// The definition, if there is one, by the new body of this number.
fn redefine(defined: Option<(SelNo, Tuple, BodyNo)>, number: u16) -> Option<Edit> {
    let (selector, classes, _) = defined?;
    Some(Edit::Define {
        selector,
        classes,
        body: BodyNo::new(NEW_BODY.wrapping_add(number)),
    })
}

// Draws a definition that goes.
fn draw_undefine(chance: &mut Chance, generated: &Generated) -> Option<Edit> {
    let (selector, classes, _) = draw_defined(chance, generated)?;
    Some(Edit::Undefine { selector, classes })
}

// Draws a class and a class before it. There are two classes at least.
fn draw_link(chance: &mut Chance, size: Size) -> Option<Edit> {
    let number = 1 + chance.below(size.classes - 1);
    let parent = draw_class(chance, number);
    let class = ClassNo::new(number)?;
    Some(Edit::Link { class, parent })
}

// Draws a class, whose link to its first parent goes.
fn draw_unlink(chance: &mut Chance, generated: &Generated) -> Option<Edit> {
    let number = 1 + chance.below(generated.size.classes - 1);
    let class = ClassNo::new(number)?;
    let parent = generated.first_parent(class)?;
    Some(Edit::Unlink { class, parent })
}

// Draws the parents of a class, one or two that are below the bound.
fn draw_parents(alloc: Global, chance: &mut Chance, bound: u16) -> Result<Parents, NoMemory>
    requires { 0 < bound }
{
    let first = draw_class(chance, bound);
    let second = draw_class(chance, bound);
    if chance.below(4) != 0 || first == second {
        return Parents::new(alloc, &[first]);
    }
    Parents::new(alloc, &[first, second])
}

// Draws the new class of this number, from 0, below classes that are there. `None` where there are no more classes.
fn draw_new_class(
    alloc: Global,
    chance: &mut Chance,
    size: Size,
    number: u16,
) -> Result<Option<Edit>, Fault> {
    let Some(class) = ClassNo::new(size.classes.saturating_add(number)) else {
        return Ok(None);
    };
    let parents = draw_parents(alloc, chance, size.classes)?;
    Ok(Some(Edit::AddClass { class, parents }))
}

// Draws the edit of this number of the kind. What undoes a kind is drawn with it.
fn draw_edit(
    alloc: Global,
    chance: &mut Chance,
    generated: &Generated,
    graph: &ClassGraph,
    kind: EditKind,
    number: u16,
) -> Result<Option<Edit>, Fault> {
    match kind {
        EditKind::LeafRedefine => Ok(redefine(draw_at_leaves(chance, generated, graph), number)),
        EditKind::Redefine => Ok(redefine(draw_defined(chance, generated), number)),
        EditKind::Define | EditKind::Undefine => Ok(draw_undefine(chance, generated)),
        EditKind::Link => Ok(draw_link(chance, generated.size)),
        EditKind::Unlink => Ok(draw_unlink(chance, generated)),
        EditKind::Class | EditKind::Drop => draw_new_class(alloc, chance, generated.size, number),
    }
}

// Draws edits of the kind, and puts them last.
fn put_edits(
    alloc: Global,
    chance: &mut Chance,
    generated: &Generated,
    graph: &ClassGraph,
    kind: EditKind,
    edits: &mut Vec<Edit>,
) -> Result<(), Fault> {
    for number in 0..EDITS {
        if let Some(edit) = draw_edit(alloc, chance, generated, graph, kind, number)? {
            edits.push(edit)?;
        }
    }
    Ok(())
}

// Draws edits of the kind.
fn draw_edits(
    alloc: Global,
    chance: &mut Chance,
    generated: &Generated,
    graph: &ClassGraph,
    kind: EditKind,
) -> Result<Vec<Edit>, Fault> {
    let mut edits = Vec::new(alloc);
    put_edits(alloc, chance, generated, graph, kind, &mut edits)?;
    Ok(edits)
}

// Draws edits of the kind for this program, which is left as it is found.
fn draw_trial(
    alloc: Global,
    chance: &mut Chance,
    generated: &Generated,
    program: &mut Program,
    kind: EditKind,
) -> Result<Trial, Fault> {
    let mut trial = Trial {
        kind,
        edits: Vec::new(alloc),
        undo: Vec::new(alloc),
    };
    let edits = draw_edits(alloc, chance, generated, program.graph(), kind)?;
    keep_accepted(program, &mut trial, edits)?;
    apply_all(program, &trial.undo)?;
    Ok(trial)
}

/// Draws edits of each kind for this program, which is left as it is found: 50 of each, of which those are kept that are
/// accepted.
pub fn draw_trials(
    alloc: Global,
    chance: &mut Chance,
    generated: &Generated,
    program: &mut Program,
) -> Result<Vec<Trial>, Fault> {
    let mut trials = Vec::new(alloc);
    for kind in [
        EditKind::LeafRedefine,
        EditKind::Redefine,
        EditKind::Undefine,
        EditKind::Link,
        EditKind::Unlink,
        EditKind::Class,
    ] {
        trials.push(draw_trial(alloc, chance, generated, program, kind)?)?;
    }
    Ok(trials)
}

// Puts definitions into the batch that are there already, each by the body that it has or by the one that is so much more.
fn put_defined(
    batch: &mut Batch,
    chance: &mut Chance,
    generated: &Generated,
    count: u16,
    added: u16,
) -> Result<(), Fault> {
    for _ in 0..count {
        if let Some((selector, classes, body)) = draw_defined(chance, generated) {
            let body = BodyNo::new(body.number().wrapping_add(added));
            let edit = Edit::Define {
                selector,
                classes,
                body,
            };
            put(batch, edit)?;
        }
    }
    Ok(())
}

/// A batch of definitions that are there already, each by another body.
pub fn redefining_batch(
    alloc: Global,
    chance: &mut Chance,
    generated: &Generated,
) -> Result<Batch, Fault> {
    let mut batch = Batch::new(alloc);
    put_defined(&mut batch, chance, generated, BATCH, NEW_BODY)?;
    Ok(batch)
}

/// A batch of definitions that are there already, and of an edit that is refused: class 0 is live.
pub fn refused_batch(
    alloc: Global,
    chance: &mut Chance,
    generated: &Generated,
) -> Result<Batch, Fault> {
    let mut batch = Batch::new(alloc);
    put_defined(&mut batch, chance, generated, BATCH - 1, 0)?;
    put(&mut batch, class_again(alloc)?)?;
    Ok(batch)
}

// The edit that adds class 0.
fn class_again(alloc: Global) -> Result<Edit, NoMemory> {
    Ok(Edit::AddClass {
        class: ClassNo::default(),
        parents: Parents::new(alloc, &[])?,
    })
}
