ghost use Rattle.std.specs.Prelude.{◌≡◌, ◌<◌, ◌+◌, ◌-◌, ◌==◌, ◌&&◌, not, ℕ, List, length, false, true, IfOk, OnOk};
ghost use Rattle.dt_pages.specs.Image.{look_up};
ghost use Rattle.dt_fit.specs.Fits.{fits, IsLowest};
ghost use Rattle.dt_fit.specs.Rows.{AreIndexes, AreRows, AreCellsOf, PlacedRow};
ghost use Rattle.dt_fit.specs.Cells.{is_kept, is_tried};
ghost use Rattle.dt_placing.specs.Rows.{is_some};
ghost use Rattle.dt_placing.specs.Placing.{place_numbers, HasRoom, HasWord};
ghost use Rattle.dt_placing.specs.Turn.{Laid, number_at, is_own, used_in_row, HasOthers};

use crate::laying::free_row;
use crate::row::row_indexes;
use dt_fit::{Geometry, UsedCells, lowest_place_is_one, rows_fit};
use dt_graph::NoMemory;
use dt_pages::Tree;
use std::alloc::Global;

// The place word of the lowest place at which a row of these indexes fits.
fn lowest_word(cells: &UsedCells, geometry: Geometry, indexes: &[u16]) -> u32
    requires geometry { cells.now.geometry ≡ geometry }
    requires indexes { AreIndexes indexes.now }
    requires rows { (rows : List PlacedRow) × (length rows < 4096) × AreRows rows × AreCellsOf geometry rows (is_tried cells.now) }
    ensures lowest { (place : ℕ) × (result ≡ place + 1) × IsLowest (fits geometry (is_tried cells.now) indexes.now) place }
    ensures room { HasRoom geometry result }
{
    rows_fit();
    lowest_place_is_one();
    cells.lowest_fit(indexes) + 1
}

// The place word of a row of these indexes: the one before, where the row fits at its place, else that of the lowest place
// at which it fits; 0 for a row without indexes.
fn word_of_row(cells: &UsedCells, geometry: Geometry, before: u32, indexes: &[u16]) -> u32
    requires geometry { cells.now.geometry ≡ geometry }
    requires word { before - 1 < place_numbers geometry }
    requires indexes { AreIndexes indexes.now }
    requires rows { (rows : List PlacedRow) × (length rows < 4096) × AreRows rows × AreCellsOf geometry rows (is_tried cells.now) }
    ensures chosen { HasWord geometry before (is_tried cells.now) indexes.now (is_some indexes.now)
        (not (before == 0) && fits geometry (is_tried cells.now) indexes.now (before - 1)) result }
    ensures room { is_some indexes.now ≡ true → HasRoom geometry result }
    ensures in_range { result - 1 < place_numbers geometry }
{
    if indexes.is_empty() {
        return 0;
    }
    if before != 0 && cells.fits_at(indexes, before - 1) {
        return before;
    }
    lowest_word(cells, geometry, indexes)
}

// The selector's own cells are freed, and its row gets its place word.
pub(crate) fn choose_word(
    alloc: Global,
    cells: &mut UsedCells,
    tree: &Tree,
    geometry: Geometry,
    selector: u16,
    before: u32,
    row: &[u64],
) -> Result<u32, NoMemory>
    requires geometry { cells.old.geometry ≡ geometry }
    requires word { before - 1 < place_numbers geometry }
    requires count { length row.now ≡ 2048 }
    requires others { HasOthers geometry (look_up tree.now) selector before (is_tried cells.old) }
    ensures geometry { cells.new.geometry ≡ geometry }
    ensures kept { (cell : ℕ) → is_kept cells.new cell ≡ is_kept cells.old cell }
    ensures frees { OnOk result (Laid (number_at geometry before) (is_own geometry (look_up tree.now) selector before) (λ class. false) 2048
        (is_tried cells.old) (is_tried cells.new)) }
    ensures chosen { IfOk result (λ word. HasWord geometry before (is_tried cells.new) (used_in_row row.now 2048) (is_some (used_in_row row.now 2048))
        (not (before == 0) && fits geometry (is_tried cells.new) (used_in_row row.now 2048) (before - 1)) word) }
    ensures room { IfOk result (λ word. is_some (used_in_row row.now 2048) ≡ true → HasRoom geometry word) }
    ensures in_range { IfOk result (λ word. word - 1 < place_numbers geometry) }
{
    let indexes = row_indexes(alloc, row)?;
    free_row(cells, tree, geometry, selector, before)?;
    Ok(word_of_row(cells, geometry, before, &indexes))
}
