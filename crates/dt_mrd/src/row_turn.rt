ghost use Rattle.std.specs.Prelude.{◌≡◌, ◌≢◌, ◌<◌, ◌-◌, ◌==◌, ◌&&◌, ◌||◌, not, ℕ, suc, Bool, true, false, is_some, IfOk, OnOk, option_copied};
ghost use Rattle.slab.specs.Slab.{get};
ghost use Rattle.dt_pages.specs.Image.{look_up};
ghost use Rattle.dt_pages.specs.Draft.{laid_over};
ghost use Rattle.dt_fit.specs.Cells.{is_kept, is_tried};
ghost use Rattle.dt_fit.specs.Fits.{fits};
ghost use Rattle.dt_fit.specs.declared.geometry.Geometry.TheVariants.{Displacements};
ghost use Rattle.dt_placing.specs.Turn.{Laid};
ghost use Rattle.dt_mrd.specs.Reading.{cell_at};
ghost use Rattle.dt_mrd.specs.Placing.{HasRoom, displacements};
ghost use Rattle.dt_mrd.specs.Kept.{row_at, tag_in, next_in, code_in};
ghost use Rattle.dt_mrd.specs.Laying.{is_among, is_given, number_at, has_cell, AreClasses, HasClasses};
ghost use Rattle.dt_mrd.specs.Midway.{IsChosen, IsLowestIn, HasOtherRows, TagChosen, WordsLaid, Turned, given_up};
ghost use Rattle.dt_mrd.specs.Turns.{with_tag, IsOver};

use crate::indexes::indexes_of;
use crate::kept_row::{KeptRow, row_at, tag_in};
use crate::laying::{clear_cells, free_cells, lay_cells, take_cells};
use crate::taking::free_displacement;
use crate::turn::Turn;
use dt_fit::{UsedCells, lowest_place_is_one, rows_fit};
use dt_graph::NoMemory;
use dt_pages::{Draft, Tree};
use slab::Slab;
use std::alloc::Global;

// The tag of the lowest displacement at which a row of these indexes fits and which no other row has.
fn lowest_tag(cells: &UsedCells, taken: &UsedCells, indexes: &[u16]) -> u32
    requires cells { cells.now.geometry ≡ Displacements }
    requires taken { taken.now.geometry ≡ Displacements }
    requires classes { AreClasses indexes.now }
    requires rows { HasOtherRows (is_tried cells.now) (is_tried taken.now) }
    ensures lowest { IsLowestIn (is_tried cells.now) (is_tried taken.now) (is_among indexes.now) result }
    ensures room { HasRoom result }
{
    rows_fit();
    lowest_place_is_one();
    cells.lowest_untaken_fit(indexes, taken) + 1
}

// Whether there is a tag before, and a row of these indexes fits there.
fn may_stay(cells: &UsedCells, before: u32, indexes: &[u16]) -> bool
    requires cells { cells.now.geometry ≡ Displacements }
    requires before { before - 1 < displacements }
    requires classes { AreClasses indexes.now }
    ensures { result ≡ (not (before == 0) && fits Displacements (is_tried cells.now) indexes.now (before - 1)) }
{
    before != 0 && cells.fits_at(indexes, before - 1)
}

// The tag of a row of these indexes: the one before, where the row fits there, else that of the lowest displacement at which
// it fits and which no other row has.
fn tag_of_row(cells: &UsedCells, taken: &UsedCells, before: u32, indexes: &[u16]) -> u32
    requires cells { cells.now.geometry ≡ Displacements }
    requires taken { taken.now.geometry ≡ Displacements }
    requires before { before - 1 < displacements }
    requires classes { AreClasses indexes.now }
    requires rows { HasOtherRows (is_tried cells.now) (is_tried taken.now) }
    ensures chosen { IsChosen (is_tried cells.now) (is_tried taken.now) (is_among indexes.now) before result }
    ensures room { HasRoom result }
{
    if may_stay(cells, before, indexes) {
        before
    } else {
        lowest_tag(cells, taken, indexes)
    }
}

// A row of these indexes gives up its displacement, and gets its tag and the displacement of this.
#[tactic(auto, using(crate::proofs::Displacements::displacement_taken))]
fn place_row(
    cells: &UsedCells,
    taken: &mut UsedCells,
    before: u32,
    indexes: &[u16],
) -> Result<u32, NoMemory>
    requires cells { cells.now.geometry ≡ Displacements }
    requires taken { taken.old.geometry ≡ Displacements }
    requires before { before - 1 < displacements }
    requires classes { AreClasses indexes.now }
    requires rows { HasOtherRows (is_tried cells.now) (given_up (is_tried taken.old) before) }
    ensures taken { taken.new.geometry ≡ Displacements }
    ensures kept { (displacement : ℕ) → is_kept taken.new displacement ≡ is_kept taken.old displacement }
    ensures chosen { IfOk result (λ tag. IsChosen (is_tried cells.now) (given_up (is_tried taken.old) before) (is_among indexes.now) before tag) }
    ensures room { IfOk result HasRoom }
    ensures has { IfOk result (λ tag. (displacement : ℕ) → is_tried taken.new displacement ≡ ((suc displacement == tag) || given_up (is_tried taken.old) before displacement)) }
{
    free_displacement(taken, before, false)?;
    let tag = tag_of_row(cells, taken, before, indexes);
    taken.take(tag - 1)?;
    Ok(tag)
}

// The cells that a row still has are given up, and it gets its tag, and its cells are used.
fn choose_tag(
    cells: &mut UsedCells,
    taken: &mut UsedCells,
    before: u32,
    old: &[u16],
    new: &[u16],
    row: Option<&KeptRow>,
) -> Result<u32, NoMemory>
    requires cells { cells.old.geometry ≡ Displacements }
    requires taken { taken.old.geometry ≡ Displacements }
    requires before { before - 1 < displacements }
    requires old { AreClasses old.now }
    requires new { AreClasses new.now }
    requires rows { (freed : ℕ → Bool) → Laid (number_at before) (is_given true old.now (option_copied row)) (λ class. false) 2048 (is_tried cells.old) freed
        → HasOtherRows freed (given_up (is_tried taken.old) before) }
    ensures cells { cells.new.geometry ≡ Displacements }
    ensures taken { taken.new.geometry ≡ Displacements }
    ensures cells_kept { (cell : ℕ) → is_kept cells.new cell ≡ is_kept cells.old cell }
    ensures taken_kept { (displacement : ℕ) → is_kept taken.new displacement ≡ is_kept taken.old displacement }
    ensures chosen { IfOk result (λ tag. TagChosen before tag (is_given true old.now (option_copied row.entry)) (is_among new.now)
        (is_tried cells.old) (is_tried taken.old) (is_tried cells.new) (is_tried taken.new)) }
    ensures room { IfOk result HasRoom }
{
    free_cells(cells, before, old, true, row)?;
    let tag = place_row(cells, taken, before, new)?;
    take_cells(cells, tag, new)?;
    Ok(tag)
}

// The row's old cells are cleared where it moves.
fn clear_moved(
    draft: &mut Draft,
    tree: &Tree,
    before: u32,
    tag: u32,
    old: &[u16],
    row: Option<&KeptRow>,
) -> Result<(), NoMemory>
    requires before { before - 1 < displacements }
    requires old { AreClasses old.now }
    ensures { OnOk result (Laid (cell_at before) (λ class. is_given true old.now (option_copied row.entry) class && not (tag == before)) (λ class. 0) 2048
        (laid_over draft.old (look_up tree.now)) (laid_over draft.new (look_up tree.now))) }
{
    if tag != before {
        clear_cells(draft, tree, before, old, true, row)?;
    }
    Ok(())
}

// The row's old cells are cleared where it moves, and its cells are set.
fn lay_turn(
    rows: &Slab<KeptRow>,
    draft: &mut Draft,
    tree: &Tree,
    before: u32,
    tag: u32,
    old: &[u16],
    new: &[u16],
    row: Option<&KeptRow>,
) -> Result<(), NoMemory>
    requires before { before - 1 < displacements }
    requires tag { tag - 1 < displacements }
    requires old { AreClasses old.now }
    requires new { AreClasses new.now }
    ensures { OnOk result (WordsLaid before tag (is_given true old.now (option_copied row.entry)) (is_among new.now)
        (λ class. code_in (get rows.now) (next_in (option_copied row.entry) class)) (laid_over draft.old (look_up tree.now)) (laid_over draft.new (look_up tree.now))) }
{
    clear_moved(draft, tree, before, tag, old, row)?;
    lay_cells(rows, draft, tree, tag, new, row)?;
    Ok(())
}

// The row of the key has this tag.
fn set_tag(rows: &mut Slab<KeptRow>, key: usize, tag: u32)
    ensures { (other : ℕ) → get rows.new other ≡ with_tag (get rows.old) key tag other }
{
    if let Some(row) = rows.get_mut(key) {
        row.tag = tag;
    }
}

// The turn of a row that is one after: its displacement is decided, its old cells are cleared, and its cells are set. It
// answers its tag.
fn place_turn(
    alloc: Global,
    rows: &Slab<KeptRow>,
    cells: &mut UsedCells,
    taken: &mut UsedCells,
    draft: &mut Draft,
    tree: &Tree,
    turn: &Turn,
) -> Result<u32, NoMemory>
    requires cells { cells.old.geometry ≡ Displacements }
    requires taken { taken.old.geometry ≡ Displacements }
    requires before { tag_in (row_at (get rows.now) turn.now.old) - 1 < displacements }
    requires old { HasClasses (row_at (get rows.now) turn.now.old) }
    requires new { HasClasses (row_at (get rows.now) turn.now.new) }
    requires rows { (freed : ℕ → Bool) → Laid (number_at (tag_in (row_at (get rows.now) turn.now.old)))
        (λ class. has_cell (row_at (get rows.now) turn.now.old) class && has_cell (row_at (get rows.now) turn.now.new) class) (λ class. false) 2048 (is_tried cells.old) freed
        → HasOtherRows freed (given_up (is_tried taken.old) (tag_in (row_at (get rows.now) turn.now.old))) }
    ensures cells { cells.new.geometry ≡ Displacements }
    ensures taken { taken.new.geometry ≡ Displacements }
    ensures cells_kept { (cell : ℕ) → is_kept cells.new cell ≡ is_kept cells.old cell }
    ensures taken_kept { (displacement : ℕ) → is_kept taken.new displacement ≡ is_kept taken.old displacement }
    ensures turned { IfOk result (λ tag. Turned (tag_in (row_at (get rows.now) turn.now.old)) tag
        (has_cell (row_at (get rows.now) turn.now.old)) (has_cell (row_at (get rows.now) turn.now.new))
        (λ class. code_in (get rows.now) (next_in (row_at (get rows.now) turn.now.new) class))
        (is_tried cells.old) (is_tried taken.old) (laid_over draft.old (look_up tree.now))
        (is_tried cells.new) (is_tried taken.new) (laid_over draft.new (look_up tree.now))) }
    ensures room { IfOk result HasRoom }
{
    let was = row_at(rows, turn.old);
    let row = row_at(rows, turn.new);
    let before = tag_in(was);
    let listed_old = indexes_of(alloc, was)?;
    let listed_new = indexes_of(alloc, row)?;
    let old = listed_old.as_slice();
    let new = listed_new.as_slice();
    let tag = choose_tag(cells, taken, before, old, new, row)?;
    lay_turn(rows, draft, tree, before, tag, old, new, row)?;
    Ok(tag)
}

// The turn of a row; one that is none after has no turn.
pub(crate) fn take_turn(
    alloc: Global,
    rows: &mut Slab<KeptRow>,
    cells: &mut UsedCells,
    taken: &mut UsedCells,
    draft: &mut Draft,
    tree: &Tree,
    turn: &Turn,
) -> Result<(), NoMemory>
    requires cells { cells.old.geometry ≡ Displacements }
    requires taken { taken.old.geometry ≡ Displacements }
    requires before { tag_in (row_at (get rows.old) turn.now.old) - 1 < displacements }
    requires old { HasClasses (row_at (get rows.old) turn.now.old) }
    requires new { HasClasses (row_at (get rows.old) turn.now.new) }
    requires others { is_some turn.now.new ≡ true → (freed : ℕ → Bool) → Laid (number_at (tag_in (row_at (get rows.old) turn.now.old)))
        (λ class. has_cell (row_at (get rows.old) turn.now.old) class && has_cell (row_at (get rows.old) turn.now.new) class) (λ class. false) 2048 (is_tried cells.old) freed
        → HasOtherRows freed (given_up (is_tried taken.old) (tag_in (row_at (get rows.old) turn.now.old))) }
    ensures cells { cells.new.geometry ≡ Displacements }
    ensures taken { taken.new.geometry ≡ Displacements }
    ensures cells_kept { (cell : ℕ) → is_kept cells.new cell ≡ is_kept cells.old cell }
    ensures taken_kept { (displacement : ℕ) → is_kept taken.new displacement ≡ is_kept taken.old displacement }
    ensures rows_kept { (key : ℕ) → turn.now.new ≢ Some key → get rows.new key ≡ get rows.old key }
    ensures over { OnOk result (IsOver turn.now (get rows.old) (get rows.new) (is_tried cells.old) (is_tried taken.old) (laid_over draft.old (look_up tree.now))
        (is_tried cells.new) (is_tried taken.new) (laid_over draft.new (look_up tree.now))) }
{
    if let Some(key) = turn.new {
        let tag = place_turn(alloc, rows, cells, taken, draft, tree, turn)?;
        set_tag(rows, key, tag);
    }
    Ok(())
}
