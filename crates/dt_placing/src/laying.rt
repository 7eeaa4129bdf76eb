ghost use Rattle.std.specs.Prelude.{◌≡◌, ◌<◌, ◌-◌, ◌==◌, ◌^◌, ℕ, false, true, length, get_or, OnOk, if◌then◌else◌};
ghost use Rattle.dt_pages.specs.Image.{look_up};
ghost use Rattle.dt_pages.specs.Draft.{laid_over};
ghost use Rattle.dt_pages.specs.Reading.{addresses};
ghost use Rattle.dt_fit.specs.Cells.{is_kept, is_tried};
ghost use Rattle.dt_placing.specs.Placing.{cell_at, place_numbers};
ghost use Rattle.dt_placing.specs.Turn.{Laid, number_at, is_own, is_in_row, is_cleared, IsLaidAnew};

use crate::cell::{cell_address, cell_number, read_own};
use dt_cells::place_address;
use dt_fit::{Geometry, UsedCells};
use dt_graph::{CLASSES, NoMemory};
use dt_pages::{Draft, Tree};

// The cells that are the selector's own aren't used from now on.
pub(crate) fn free_row(
    cells: &mut UsedCells,
    tree: &Tree,
    geometry: Geometry,
    selector: u16,
    before: u32,
) -> Result<(), NoMemory>
    requires word { before - 1 < place_numbers geometry }
    requires geometry { cells.old.geometry ≡ geometry }
    ensures geometry { cells.new.geometry ≡ geometry }
    ensures kept { (cell : ℕ) → is_kept cells.new cell ≡ is_kept cells.old cell }
    ensures tried { OnOk result (Laid (number_at geometry before) (is_own geometry (look_up tree.now) selector before) (λ class. false) 2048
        (is_tried cells.old) (is_tried cells.new)) }
{
    for class in 0..CLASSES {
        if read_own(tree, geometry, selector, before, class) != 0 {
            cells.free(cell_number(geometry, before, class))?;
        }
    }
    Ok(())
}

// The cells of a row are used from now on.
pub(crate) fn take_row(
    cells: &mut UsedCells,
    geometry: Geometry,
    word: u32,
    row: &[u64],
) -> Result<(), NoMemory>
    requires word { word - 1 < place_numbers geometry }
    requires geometry { cells.old.geometry ≡ geometry }
    requires count { length row.now ≡ 2048 }
    ensures geometry { cells.new.geometry ≡ geometry }
    ensures kept { (cell : ℕ) → is_kept cells.new cell ≡ is_kept cells.old cell }
    ensures tried { OnOk result (Laid (number_at geometry word) (is_in_row row.now) (λ class. true) 2048 (is_tried cells.old) (is_tried cells.new)) }
{
    for class in 0..CLASSES {
        if row[usize::from(class)] != 0 {
            cells.take(cell_number(geometry, word, class))?;
        }
    }
    Ok(())
}

// Sets the word at the address, where it is another than before.
pub(crate) fn set_other(draft: &mut Draft, tree: &Tree, at: u32, word: u64) -> Result<(), NoMemory>
    requires { at < addresses }
    ensures { OnOk result ((address : ℕ) → laid_over draft.new (look_up tree.now) address
        ≡ (if address == at then word else laid_over draft.old (look_up tree.now) address)) }
{
    if draft.word(tree, at) != word {
        draft.set(at, word)?;
    }
    Ok(())
}

// Whether the cell of a class is one of the selector's own that a row with this place word doesn't set anew.
fn is_stale(
    tree: &Tree,
    geometry: Geometry,
    selector: u16,
    before: u32,
    word: u32,
    row: &[u64],
    class: u16,
) -> bool
    requires word { before - 1 < place_numbers geometry }
    requires count { length row.now ≡ 2048 }
    requires class { class < 2048 }
    ensures { result ≡ is_cleared geometry (look_up tree.now) selector before word row.now class }
{
    let own = read_own(tree, geometry, selector, before, class);
    own != 0 && (word != before || row[usize::from(class)] == 0)
}

// The selector's own cells are cleared; where its place stays, those alone that its row doesn't set anew.
pub(crate) fn clear_row(
    draft: &mut Draft,
    tree: &Tree,
    geometry: Geometry,
    selector: u16,
    before: u32,
    word: u32,
    row: &[u64],
) -> Result<(), NoMemory>
    requires word { before - 1 < place_numbers geometry }
    requires count { length row.now ≡ 2048 }
    ensures { OnOk result (Laid (cell_at geometry (before - 1)) (is_cleared geometry (look_up tree.now) selector before word row.now) (λ class. 0) 2048
        (laid_over draft.old (look_up tree.now)) (laid_over draft.new (look_up tree.now))) }
{
    for class in 0..CLASSES {
        if is_stale(tree, geometry, selector, before, word, row, class) {
            set_other(draft, tree, cell_address(geometry, before, class), 0)?;
        }
    }
    Ok(())
}

// The cells of a row are set.
pub(crate) fn lay_row(
    draft: &mut Draft,
    tree: &Tree,
    geometry: Geometry,
    word: u32,
    row: &[u64],
) -> Result<(), NoMemory>
    requires word { word - 1 < place_numbers geometry }
    requires count { length row.now ≡ 2048 }
    ensures { OnOk result (Laid (cell_at geometry (word - 1)) (is_in_row row.now) (λ class. get_or row.now class 0) 2048
        (laid_over draft.old (look_up tree.now)) (laid_over draft.new (look_up tree.now))) }
{
    for class in 0..CLASSES {
        let cell = row[usize::from(class)];
        if cell != 0 {
            set_other(draft, tree, cell_address(geometry, word, class), cell)?;
        }
    }
    Ok(())
}

// The selector's cells and its place word are set anew.
pub(crate) fn lay_turn(
    draft: &mut Draft,
    tree: &Tree,
    geometry: Geometry,
    selector: u16,
    before: u32,
    word: u32,
    row: &[u64],
) -> Result<(), NoMemory>
    requires before { before - 1 < place_numbers geometry }
    requires word { word - 1 < place_numbers geometry }
    requires count { length row.now ≡ 2048 }
    requires selector { selector < 4096 }
    ensures { OnOk result (IsLaidAnew geometry (look_up tree.now) selector before word row.now
        (laid_over draft.old (look_up tree.now)) (laid_over draft.new (look_up tree.now))) }
{
    clear_row(draft, tree, geometry, selector, before, word, row)?;
    lay_row(draft, tree, geometry, word, row)?;
    draft.set(place_address(selector), u64::from(word))?;
    Ok(())
}
