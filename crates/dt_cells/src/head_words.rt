ghost use Rattle.std.specs.Prelude.{◌≡◌, ◌<◌, ◌+◌, ◌==◌, ◌^◌, ◌&&◌, nat_lt, nat_le, ℕ, length, slice_get, Some, Ok, OnOk, if◌then◌else◌};
ghost use Rattle.dt_pages.specs.Reading.{Reading};
ghost use Rattle.dt_pages.specs.Draft.{laid_over};
ghost use Rattle.dt_cells.specs.Regions.{selector_at};
ghost use Rattle.dt_definitions.specs.Step.{step_batch};
ghost use Rattle.dt_cells.specs.Heads.{HasHeads, class_word, selector_word, sets_head, with_heads};

use crate::regions::selector_address;
use dt_definitions::{Batch, Edit, Program, batches_are_their_edits};
use dt_graph::{CLASSES, ClassNo, NoMemory};
use dt_pages::Draft;
use dt_selectors::{SELECTORS, SelNo};

// A class's word.
fn word_of_class(program: &Program, class: ClassNo) -> u64
    ensures { result ≡ class_word program.now class }
{
    u64::from(program.is_live(class))
}

// A selector's word.
fn word_of_selector(program: &Program, selector: SelNo) -> u64
    ensures { result ≡ selector_word program.now selector }
{
    program
        .arity(selector)
        .map_or(0, |arity| u64::from(arity.number()))
}

// Sets the word at the address, where it is another than before.
fn set_other(draft: &mut Draft, at: u32, before: u64, now: u64) -> Result<(), NoMemory>
    requires { at < 2 ^ 27 }
    ensures { OnOk result ((base : Reading) (address : ℕ) → laid_over draft.new base address
        ≡ (if address == at then (if before == now then laid_over draft.old base address else now) else laid_over draft.old base address)) }
{
    if before == now {
        Ok(())
    } else {
        draft.set(at, now)
    }
}

// Sets the word of the class of this number, where the two programs have different ones.
fn class_head(draft: &mut Draft, old: &Program, new: &Program, number: u16) -> Result<(), NoMemory>
    requires { number < 2048 }
    ensures { OnOk result ((base : Reading) (address : ℕ) → laid_over draft.new base address
        ≡ (if address == number then with_heads old.now new.now (laid_over draft.old base) address else laid_over draft.old base address)) }
{
    match ClassNo::new(number) {
        Some(class) => set_other(
            draft,
            u32::from(number),
            word_of_class(old, class),
            word_of_class(new, class),
        ),
        None => Ok(()),
    }
}

// Sets the word of the selector of this number, where the two programs have different ones.
fn selector_head(
    draft: &mut Draft,
    old: &Program,
    new: &Program,
    number: u16,
) -> Result<(), NoMemory>
    requires { number < 4096 }
    ensures { OnOk result ((base : Reading) (address : ℕ) → laid_over draft.new base address
        ≡ (if address == selector_at number then with_heads old.now new.now (laid_over draft.old base) address else laid_over draft.old base address)) }
{
    match SelNo::new(number) {
        Some(selector) => set_other(
            draft,
            selector_address(number),
            word_of_selector(old, selector),
            word_of_selector(new, selector),
        ),
        None => Ok(()),
    }
}

// Sets the class words in which the two programs differ.
fn class_heads(draft: &mut Draft, old: &Program, new: &Program) -> Result<(), NoMemory>
    ensures { OnOk result ((base : Reading) (address : ℕ) → laid_over draft.new base address
        ≡ (if nat_lt address 2048 then with_heads old.now new.now (laid_over draft.old base) address else laid_over draft.old base address)) }
{
    for number in 0..CLASSES {
        class_head(draft, old, new, number)?;
    }
    Ok(())
}

// Sets the selector words in which the two programs differ.
fn selector_heads(draft: &mut Draft, old: &Program, new: &Program) -> Result<(), NoMemory>
    ensures { OnOk result ((base : Reading) (address : ℕ) → laid_over draft.new base address
        ≡ (if nat_le 4096 address && nat_lt address 8192 then with_heads old.now new.now (laid_over draft.old base) address else laid_over draft.old base address)) }
{
    for number in 0..SELECTORS {
        selector_head(draft, old, new, number)?;
    }
    Ok(())
}

/// Sets in the draft the class words and selector words in which the two programs differ; every other word of the draft
/// stays. So over each tree over which the draft has the heads of the old program it has those of the new one after.
/// After want of memory the draft is to be thrown away. It asks both programs for each class and each selector there
/// can be.
pub fn heads(draft: &mut Draft, old: &Program, new: &Program) -> Result<(), NoMemory>
    ensures words { OnOk result ((base : Reading) (address : ℕ) → laid_over draft.new base address
        ≡ with_heads old.now new.now (laid_over draft.old base) address) }
    ensures heads { OnOk result ((base : Reading) → HasHeads old.now (laid_over draft.old base) → HasHeads new.now (laid_over draft.new base)) }
{
    class_heads(draft, old, new)?;
    selector_heads(draft, old, new)
}

// Sets the word of the class or the selector that the edit adds or drops, where the two programs have different ones.
fn head_of_edit(
    draft: &mut Draft,
    edit: &Edit,
    old: &Program,
    new: &Program,
) -> Result<(), NoMemory>
    ensures { OnOk result ((base : Reading) (address : ℕ) → laid_over draft.new base address
        ≡ (if sets_head address edit.now then with_heads old.now new.now (laid_over draft.old base) address else laid_over draft.old base address)) }
{
    match edit {
        Edit::AddClass { class, .. } | Edit::DropClass { class } => {
            class_head(draft, old, new, class.number())
        }
        Edit::AddSelector { selector, .. } | Edit::DropSelector { selector } => {
            selector_head(draft, old, new, selector.number())
        }
        _ => Ok(()),
    }
}

// The edit at this place, from 0.
fn edit_at(batch: &Batch, place: u32) -> &Edit
    requires { place < length batch.now }
    ensures { slice_get batch.now place ≡ Some result.now }
{
    let _ = batch.law();
    match batch.edit(place + 1) {
        Some(edit) => edit,
        None => unreachable!(),
    }
}

/// As [`heads`], where the new program is the old one after the batch: it asks both programs for the classes and the
/// selectors alone that an edit of the batch adds or drops.
pub fn heads_of_batch(
    draft: &mut Draft,
    old: &Program,
    batch: &Batch,
    new: &Program,
) -> Result<(), NoMemory>
    requires { step_batch old.now batch.now ≡ Ok new.now }
    ensures words { OnOk result ((base : Reading) (address : ℕ) → laid_over draft.new base address
        ≡ with_heads old.now new.now (laid_over draft.old base) address) }
    ensures heads { OnOk result ((base : Reading) → HasHeads old.now (laid_over draft.old base) → HasHeads new.now (laid_over draft.new base)) }
{
    batches_are_their_edits();
    for place in 0..batch.len() {
        head_of_edit(draft, edit_at(batch, place), old, new)?;
    }
    Ok(())
}
