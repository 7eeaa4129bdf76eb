ghost use Rattle.std.specs.Prelude.{◌≡◌, ◌<◌, ◌-◌, ◌+◌, ◌*◌, ◌==◌, ◌^◌, ℕ, Bool, true, false, OnOk, IfOk, is_some, option_copied, if◌then◌else◌};
ghost use Rattle.slab.specs.Slab.{get};
ghost use Rattle.dt_pages.specs.Image.{look_up};
ghost use Rattle.dt_pages.specs.Draft.{laid_over};
ghost use Rattle.dt_pages.specs.Reading.{addresses};
ghost use Rattle.dt_fit.specs.Cells.{is_kept, is_tried};
ghost use Rattle.dt_fit.specs.declared.geometry.Geometry.TheVariants.{Displacements};
ghost use Rattle.dt_placing.specs.Turn.{Laid};
ghost use Rattle.dt_mrd.specs.Reading.{cell_at};
ghost use Rattle.dt_mrd.specs.Placing.{displacements};
ghost use Rattle.dt_mrd.specs.Kept.{next_in, code_in};
ghost use Rattle.dt_mrd.specs.Laying.{is_among, is_met, is_given, number_at, AreClasses};

use crate::cell::{cell_address, cell_number};
use crate::kept_row::{KeptRow, Next, next_in, tag_in};
use dt_fit::UsedCells;
use dt_graph::NoMemory;
use dt_pages::{Draft, Tree};
use slab::Slab;

// Whether the class has a cell in the row, or has none.
fn is_met(stays: bool, row: Option<&KeptRow>, class: u16) -> bool
    ensures { result ≡ is_met stays (option_copied row.entry) class }
{
    let has = next_in(row, class).is_some();
    if stays { has } else { !has }
}

// The cell of the class is free from now on, where the class is met.
fn free_cell(
    cells: &mut UsedCells,
    tag: u32,
    class: u16,
    stays: bool,
    other: Option<&KeptRow>,
) -> Result<(), NoMemory>
    requires tag { tag - 1 < displacements }
    requires class { class < 2048 }
    requires geometry { cells.old.geometry ≡ Displacements }
    ensures geometry { cells.new.geometry ≡ Displacements }
    ensures kept { (cell : ℕ) → is_kept cells.new cell ≡ is_kept cells.old cell }
    ensures tried { OnOk result ((cell : ℕ) → is_tried cells.new cell
        ≡ (if is_met stays (option_copied other.entry) class then (if cell == number_at tag class then false else is_tried cells.old cell) else is_tried cells.old cell)) }
{
    if is_met(stays, other, class) {
        cells.free(cell_number(tag, class))?;
    }
    Ok(())
}

// The cells of the classes are free from now on that have a cell in another row, or have none.
pub(crate) fn free_cells(
    cells: &mut UsedCells,
    tag: u32,
    indexes: &[u16],
    stays: bool,
    other: Option<&KeptRow>,
) -> Result<(), NoMemory>
    requires tag { tag - 1 < displacements }
    requires classes { AreClasses indexes.now }
    requires geometry { cells.old.geometry ≡ Displacements }
    ensures geometry { cells.new.geometry ≡ Displacements }
    ensures kept { (cell : ℕ) → is_kept cells.new cell ≡ is_kept cells.old cell }
    ensures tried { OnOk result (Laid (number_at tag) (is_given stays indexes.now (option_copied other.entry)) (λ class. false) 2048
        (is_tried cells.old) (is_tried cells.new)) }
{
    for class in indexes {
        free_cell(cells, tag, *class, stays, other)?;
    }
    Ok(())
}

// Sets the word at the address, where it is another than before.
fn set_other(draft: &mut Draft, tree: &Tree, at: u32, word: u64) -> Result<(), NoMemory>
    requires { at < addresses }
    ensures { OnOk result ((address : ℕ) → laid_over draft.new (look_up tree.now) address
        ≡ (if address == at then word else laid_over draft.old (look_up tree.now) address)) }
{
    if draft.word(tree, at) != word {
        draft.set(at, word)?;
    }
    Ok(())
}

// The word of the cell of the class is cleared, where the class is met.
fn clear_cell(
    draft: &mut Draft,
    tree: &Tree,
    tag: u32,
    class: u16,
    stays: bool,
    other: Option<&KeptRow>,
) -> Result<(), NoMemory>
    requires tag { tag - 1 < displacements }
    requires class { class < 2048 }
    ensures { OnOk result ((address : ℕ) → laid_over draft.new (look_up tree.now) address
        ≡ (if is_met stays (option_copied other.entry) class then (if address == cell_at tag class then 0 else laid_over draft.old (look_up tree.now) address)
        else laid_over draft.old (look_up tree.now) address)) }
{
    if is_met(stays, other, class) {
        set_other(draft, tree, cell_address(tag, class), 0)?;
    }
    Ok(())
}

// The words of the cells of the classes are cleared that have a cell in another row, or have none.
pub(crate) fn clear_cells(
    draft: &mut Draft,
    tree: &Tree,
    tag: u32,
    indexes: &[u16],
    stays: bool,
    other: Option<&KeptRow>,
) -> Result<(), NoMemory>
    requires tag { tag - 1 < displacements }
    requires classes { AreClasses indexes.now }
    ensures { OnOk result (Laid (cell_at tag) (is_given stays indexes.now (option_copied other.entry)) (λ class. 0) 2048
        (laid_over draft.old (look_up tree.now)) (laid_over draft.new (look_up tree.now))) }
{
    for class in indexes {
        clear_cell(draft, tree, tag, *class, stays, other)?;
    }
    Ok(())
}

// The cells of the classes are used from now on.
pub(crate) fn take_cells(cells: &mut UsedCells, tag: u32, indexes: &[u16]) -> Result<(), NoMemory>
    requires tag { tag - 1 < displacements }
    requires classes { AreClasses indexes.now }
    requires geometry { cells.old.geometry ≡ Displacements }
    ensures geometry { cells.new.geometry ≡ Displacements }
    ensures kept { (cell : ℕ) → is_kept cells.new cell ≡ is_kept cells.old cell }
    ensures tried { OnOk result (Laid (number_at tag) (is_among indexes.now) (λ class. true) 2048 (is_tried cells.old) (is_tried cells.new)) }
{
    for class in indexes {
        cells.take(cell_number(tag, *class))?;
    }
    Ok(())
}

// The code of a cell of a row; 0 where it has none.
fn code_in(rows: &Slab<KeptRow>, next: Option<Next>) -> u32
    ensures { result ≡ code_in (get rows.now) next }
{
    match next {
        Some(Next::Answer { code }) => code,
        Some(Next::Row { key }) => tag_in(rows.get(key)),
        None => 0,
    }
}

// The word of a cell with this tag and code.
fn word_of(tag: u32, code: u32) -> u64
    ensures { result ≡ tag * 2 ^ 32 + code }
{
    (u64::from(tag) << 32) + u64::from(code)
}

// The cells of a row are set.
pub(crate) fn lay_cells(
    rows: &Slab<KeptRow>,
    draft: &mut Draft,
    tree: &Tree,
    tag: u32,
    indexes: &[u16],
    row: Option<&KeptRow>,
) -> Result<(), NoMemory>
    requires tag { tag - 1 < displacements }
    requires classes { AreClasses indexes.now }
    ensures { OnOk result (Laid (cell_at tag) (is_among indexes.now) (λ class. tag * 2 ^ 32 + code_in (get rows.now) (next_in (option_copied row.entry) class)) 2048
        (laid_over draft.old (look_up tree.now)) (laid_over draft.new (look_up tree.now))) }
{
    for class in indexes {
        let word = word_of(tag, code_in(rows, next_in(row, *class)));
        set_other(draft, tree, cell_address(tag, *class), word)?;
    }
    Ok(())
}
