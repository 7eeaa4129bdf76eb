ghost use Rattle.std.specs.Prelude.{◌≡◌, ◌<◌, ◌-◌, ℕ, length, get_or, All, IfOk};
ghost use Rattle.dt_pages.specs.Image.{look_up};
ghost use Rattle.dt_scratch.specs.declared.reply.Change.{Change};
ghost use Rattle.dt_cells.specs.Cell.{cell_word};
ghost use Rattle.dt_cells.specs.Held.{Held, IsStageableChange, held_after};
ghost use Rattle.dt_placing.specs.Rows.{single};
ghost use Rattle.dt_placing.specs.Placing.{place_numbers, tag_of};
ghost use Rattle.dt_placing.specs.Turn.{own_word, used_in_row};

use crate::cell::{only_class, read_own, tag};
use dt_cells::word_of_answer;
use dt_fit::Geometry;
use dt_graph::{CLASSES, NoMemory};
use dt_pages::Tree;
use dt_scratch::Change;
use std::alloc::Global;

// The words of a selector's own cells, by class.
pub(crate) fn old_row(
    alloc: Global,
    tree: &Tree,
    geometry: Geometry,
    selector: u16,
    before: u32,
) -> Result<Vec<u64>, NoMemory>
    requires { before - 1 < place_numbers geometry }
    ensures count { IfOk result (λ row. length row.items ≡ 2048) }
    ensures words { IfOk result (λ row. (class : ℕ) → class < 2048 → get_or row.items class 0 ≡ own_word geometry (look_up tree.now) selector before class) }
{
    let mut row = Vec::new(alloc);
    for class in 0..CLASSES {
        row.push(read_own(tree, geometry, selector, before, class))?;
    }
    Ok(row)
}

// The row has the words of the changes, which are of this selector.
pub(crate) fn change_row(row: &mut Vec<u64>, selector: u16, own: &[Change])
    requires count { length row.old.items ≡ 2048 }
    requires each { All (IsStageableChange 1 1) own.now }
    requires own { All (λ change. change.query.selector ≡ selector) own.now }
    ensures count { length row.new.items ≡ 2048 }
    ensures words { (held : Held) → ((class : ℕ) → class < 2048 → get_or row.old.items class 0 ≡ cell_word (tag_of selector) (held (single selector class)))
        → (class : ℕ) → class < 2048 → get_or row.new.items class 0 ≡ cell_word (tag_of selector) (held_after held own.now (single selector class)) }
{
    // The last change first: where two are of one class, the first stands.
    let mut at = own.len();
    while at > 0 {
        at -= 1;
        let change = &own[at];
        row[usize::from(only_class(&change.query))] = word_of_answer(tag(selector), change.answer);
    }
}

// The words of a selector's cells after its changes, by class.
pub(crate) fn new_row(
    alloc: Global,
    tree: &Tree,
    geometry: Geometry,
    selector: u16,
    before: u32,
    own: &[Change],
) -> Result<Vec<u64>, NoMemory>
    requires word { before - 1 < place_numbers geometry }
    requires each { All (IsStageableChange 1 1) own.now }
    requires own { All (λ change. change.query.selector ≡ selector) own.now }
    ensures count { IfOk result (λ row. length row.items ≡ 2048) }
    ensures words { IfOk result (λ row. (held : Held)
        → ((class : ℕ) → class < 2048 → own_word geometry (look_up tree.now) selector before class ≡ cell_word (tag_of selector) (held (single selector class)))
        → (class : ℕ) → class < 2048 → get_or row.items class 0 ≡ cell_word (tag_of selector) (held_after held own.now (single selector class))) }
{
    let mut row = old_row(alloc, tree, geometry, selector, before)?;
    change_row(&mut row, selector, own);
    Ok(row)
}

// The classes that have a word in a row.
#[tactic(auto, using(crate::proofs::InRow::used_steps))]
pub(crate) fn row_indexes(alloc: Global, row: &[u64]) -> Result<Vec<u16>, NoMemory>
    requires { length row.now ≡ 2048 }
    ensures { IfOk result (λ indexes. indexes.items ≡ used_in_row row.now 2048) }
{
    let mut indexes = Vec::new(alloc);
    for class in 0..CLASSES {
        if row[usize::from(class)] != 0 {
            indexes.push(class)?;
        }
    }
    Ok(indexes)
}
