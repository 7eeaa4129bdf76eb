ghost use Rattle.std.specs.Prelude.{◌≡◌, ◌<◌, ◌-◌, ◌⊎◌, ◌==◌, ◌&&◌, not, ℕ, true, false, All, OnOk, IfOk, if◌then◌else◌};
ghost use Rattle.std.specs.List.{list_all, list_any};
ghost use Rattle.dt_pages.specs.Image.{look_up};
ghost use Rattle.dt_pages.specs.Draft.{laid_over};
ghost use Rattle.dt_cells.specs.Cell.{cell_word};
ghost use Rattle.dt_cells.specs.Held.{IsStageableChange};
ghost use Rattle.dt_fit.specs.Cells.{is_kept, is_tried};
ghost use Rattle.dt_placing.specs.Placing.{cell_at, place_numbers, tag_of};
ghost use Rattle.dt_placing.specs.Turn.{number_at, is_own};
ghost use Rattle.dt_placing.specs.Staying.{class_of, is_open, laid_by, HasCell, IsChangedInPlace};

use crate::cell::{cell_address, cell_number, only_class, read_own, tag};
use crate::laying::set_other;
use dt_cells::{place_address, word_of_answer};
use dt_fit::{Geometry, UsedCells};
use dt_graph::{CLASSES, NoMemory};
use dt_pages::{Draft, Tree};
use dt_scratch::Change;

// Whether the cell of the change's class at the place is the selector's own, or no other's.
fn is_open(
    cells: &UsedCells,
    geometry: Geometry,
    tree: &Tree,
    selector: u16,
    before: u32,
    change: &Change,
) -> bool
    requires word { before - 1 < place_numbers geometry }
    requires change { IsStageableChange 1 1 change.now }
    ensures { result ≡ is_open geometry (look_up tree.now) selector before (is_tried cells.now) change.now }
{
    let class = only_class(&change.query);
    read_own(tree, geometry, selector, before, class) != 0
        || !cells.is_used(cell_number(geometry, before, class))
}

// Whether the selector has a place, where no cell that its changes need is another's.
pub(crate) fn can_stay(
    cells: &UsedCells,
    geometry: Geometry,
    tree: &Tree,
    selector: u16,
    before: u32,
    own: &[Change],
) -> bool
    requires word { before - 1 < place_numbers geometry }
    requires each { All (IsStageableChange 1 1) own.now }
    ensures { result ≡ (not (before == 0) && list_all (is_open geometry (look_up tree.now) selector before (is_tried cells.now)) own.now) }
{
    if before == 0 {
        return false;
    }
    for change in own {
        if !is_open(cells, geometry, tree, selector, before, change) {
            return false;
        }
    }
    true
}

// The cell of the change's class at the place has its word, and is used where that isn't 0.
fn change_cell(
    cells: &mut UsedCells,
    geometry: Geometry,
    tree: &Tree,
    draft: &mut Draft,
    selector: u16,
    before: u32,
    change: &Change,
) -> Result<(), NoMemory>
    requires geometry { cells.old.geometry ≡ geometry }
    requires word { before - 1 < place_numbers geometry }
    requires change { IsStageableChange 1 1 change.now }
    ensures geometry { cells.new.geometry ≡ geometry }
    ensures kept { (cell : ℕ) → is_kept cells.new cell ≡ is_kept cells.old cell }
    ensures tried { OnOk result ((cell : ℕ) → is_tried cells.new cell
        ≡ (if cell == number_at geometry before (class_of change.now) then not (cell_word (tag_of selector) change.now.answer == 0) else is_tried cells.old cell)) }
    ensures words { OnOk result ((address : ℕ) → laid_over draft.new (look_up tree.now) address
        ≡ (if address == cell_at geometry (before - 1) (class_of change.now) then cell_word (tag_of selector) change.now.answer else laid_over draft.old (look_up tree.now) address)) }
{
    let class = only_class(&change.query);
    let word = word_of_answer(tag(selector), change.answer);
    set_other(draft, tree, cell_address(geometry, before, class), word)?;
    let cell = cell_number(geometry, before, class);
    if word == 0 {
        cells.free(cell)
    } else {
        cells.take(cell)
    }
}

// The cells of the changes' classes at the place have their words, and are used where those aren't 0.
fn change_cells(
    cells: &mut UsedCells,
    geometry: Geometry,
    tree: &Tree,
    draft: &mut Draft,
    selector: u16,
    before: u32,
    own: &[Change],
) -> Result<(), NoMemory>
    requires geometry { cells.old.geometry ≡ geometry }
    requires word { before - 1 < place_numbers geometry }
    requires each { All (IsStageableChange 1 1) own.now }
    ensures geometry { cells.new.geometry ≡ geometry }
    ensures kept { (cell : ℕ) → is_kept cells.new cell ≡ is_kept cells.old cell }
    ensures tried { OnOk result ((cell : ℕ) → is_tried cells.new cell
        ≡ laid_by (λ change. number_at geometry before (class_of change)) (λ change. not (cell_word (tag_of selector) change.answer == 0)) own.now (is_tried cells.old) cell) }
    ensures words { OnOk result ((address : ℕ) → laid_over draft.new (look_up tree.now) address
        ≡ laid_by (λ change. cell_at geometry (before - 1) (class_of change)) (λ change. cell_word (tag_of selector) change.answer) own.now (laid_over draft.old (look_up tree.now)) address) }
{
    // The last change first: where two are of one class, the first stands.
    let mut at = own.len();
    while at > 0 {
        at -= 1;
        change_cell(cells, geometry, tree, draft, selector, before, &own[at])?;
    }
    Ok(())
}

// Whether the cell of a change at the place is used.
fn is_changed_used(cells: &UsedCells, geometry: Geometry, before: u32, own: &[Change]) -> bool
    requires word { before - 1 < place_numbers geometry }
    requires each { All (IsStageableChange 1 1) own.now }
    ensures { result ≡ list_any (λ change. is_tried cells.now (number_at geometry before (class_of change))) own.now }
{
    for change in own {
        if cells.is_used(cell_number(geometry, before, only_class(&change.query))) {
            return true;
        }
    }
    false
}

// Whether a cell that was the selector's own is used.
fn is_own_used(
    cells: &UsedCells,
    geometry: Geometry,
    tree: &Tree,
    selector: u16,
    before: u32,
) -> bool
    requires word { before - 1 < place_numbers geometry }
    ensures some { result ≡ true → (class : ℕ) × (class < 2048) × (is_own geometry (look_up tree.now) selector before class ≡ true)
        × (is_tried cells.now (number_at geometry before class) ≡ true) }
    ensures none { result ≡ false → (class : ℕ) → class < 2048 → is_own geometry (look_up tree.now) selector before class ≡ true
        → is_tried cells.now (number_at geometry before class) ≡ false }
{
    for class in 0..CLASSES {
        if cells.is_used(cell_number(geometry, before, class))
            && read_own(tree, geometry, selector, before, class) != 0
        {
            return true;
        }
    }
    false
}

// Whether the selector has a cell at the place, after its changes there.
fn has_cell(
    cells: &UsedCells,
    geometry: Geometry,
    tree: &Tree,
    selector: u16,
    before: u32,
    own: &[Change],
) -> bool
    requires word { before - 1 < place_numbers geometry }
    requires each { All (IsStageableChange 1 1) own.now }
    ensures { HasCell geometry (look_up tree.now) selector before own.now (is_tried cells.now) result }
{
    is_changed_used(cells, geometry, before, own)
        || is_own_used(cells, geometry, tree, selector, before)
}

// The selector stays at its place, and its changes are set there. It answers the place word, 0 where no cell is left.
pub(crate) fn stay(
    cells: &mut UsedCells,
    geometry: Geometry,
    tree: &Tree,
    draft: &mut Draft,
    selector: u16,
    before: u32,
    own: &[Change],
) -> Result<u32, NoMemory>
    requires geometry { cells.old.geometry ≡ geometry }
    requires word { before - 1 < place_numbers geometry }
    requires each { All (IsStageableChange 1 1) own.now }
    requires selector { selector < 4096 }
    ensures geometry { cells.new.geometry ≡ geometry }
    ensures kept { (cell : ℕ) → is_kept cells.new cell ≡ is_kept cells.old cell }
    ensures changed { IfOk result (λ word. IsChangedInPlace geometry (look_up tree.now) selector before own.now word (laid_over draft.old (look_up tree.now))
        (laid_over draft.new (look_up tree.now)) (is_tried cells.old) (is_tried cells.new)) }
{
    change_cells(cells, geometry, tree, draft, selector, before, own)?;
    let has_cell = has_cell(cells, geometry, tree, selector, before, own);
    let word = if has_cell { before } else { 0 };
    set_other(draft, tree, place_address(selector), u64::from(word))?;
    Ok(word)
}
