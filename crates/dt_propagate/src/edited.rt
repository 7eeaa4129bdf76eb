ghost use Rattle.std.specs.Prelude.{◌≡◌, ◌<◌, ◌∷◌, ◌++◌, [], length, Some, slice_get, IfOk, OnOk, MatchOption};
ghost use Rattle.dt_definitions.specs.Differing.{edited_by, edited_classes, redefined_by, redefined_keys};

use dt_definitions::{Batch, DefinitionKey, Edit};
use dt_graph::{ClassNo, NoMemory};
use std::alloc::Global;

// Where the edit defines or undefines, if it does.
fn key_of(edit: &Edit) -> Option<DefinitionKey>
    ensures { MatchOption result (redefined_by edit.now ≡ []) (λ key. redefined_by edit.now ≡ key ∷ []) }
{
    match edit {
        Edit::Define {
            selector,
            classes,
            ..
        }
        | Edit::Undefine { selector, classes } => Some(DefinitionKey {
            selector: *selector,
            classes: *classes,
        }),
        _ => None,
    }
}

// The class whose links the edit changes, if it changes any.
fn class_of(edit: &Edit) -> Option<ClassNo>
    ensures { MatchOption result (edited_by edit.now ≡ []) (λ class. edited_by edit.now ≡ class ∷ []) }
{
    match edit {
        Edit::AddClass { class, .. }
        | Edit::DropClass { class }
        | Edit::Link { class, .. }
        | Edit::Unlink { class, .. } => Some(*class),
        _ => None,
    }
}

// Where the edit defines or undefines, if it does, goes to the end.
fn push_key(edit: &Edit, keys: &mut Vec<DefinitionKey>) -> Result<(), NoMemory>
    ensures { OnOk result (keys.new.items ≡ keys.old.items ++ redefined_by edit.now) }
{
    if let Some(key) = key_of(edit) {
        keys.push(key)?;
    }
    Ok(())
}

// The class whose links the edit changes, if it changes any, goes to the end.
fn push_class(edit: &Edit, classes: &mut Vec<ClassNo>) -> Result<(), NoMemory>
    ensures { OnOk result (classes.new.items ≡ classes.old.items ++ edited_by edit.now) }
{
    if let Some(class) = class_of(edit) {
        classes.push(class)?;
    }
    Ok(())
}

// The edit at this place, from 0.
fn edit_at(batch: &Batch, place: u32) -> &Edit
    requires { place < length batch.now }
    ensures { slice_get batch.now place ≡ Some result.now }
{
    let _ = batch.law();
    match batch.edit(place + 1) {
        Some(edit) => edit,
        None => unreachable!(),
    }
}

// Where the edits of the batch define or undefine.
#[tactic(auto, using(crate::proofs::EditedLists::more_keys))]
pub(crate) fn redefined_keys(alloc: Global, batch: &Batch) -> Result<Vec<DefinitionKey>, NoMemory>
    ensures { IfOk result (λ keys. keys.items ≡ redefined_keys batch.now) }
{
    let mut keys = Vec::new(alloc);
    for place in 0..batch.len() {
        push_key(edit_at(batch, place), &mut keys)?;
    }
    Ok(keys)
}

// The classes whose links the edits of the batch change.
#[tactic(auto, using(crate::proofs::EditedLists::more_classes))]
pub(crate) fn edited_classes(alloc: Global, batch: &Batch) -> Result<Vec<ClassNo>, NoMemory>
    ensures { IfOk result (λ classes. classes.items ≡ edited_classes batch.now) }
{
    let mut classes = Vec::new(alloc);
    for place in 0..batch.len() {
        push_class(edit_at(batch, place), &mut classes)?;
    }
    Ok(classes)
}
