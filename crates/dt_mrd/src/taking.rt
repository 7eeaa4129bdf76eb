ghost use Rattle.std.specs.Prelude.{◌≡◌, ◌<◌, ◌-◌, ◌==◌, ◌&&◌, ◌||◌, not, ℕ, suc, false, OnOk, is_some};
ghost use Rattle.slab.specs.Slab.{get};
ghost use Rattle.dt_pages.specs.Image.{look_up};
ghost use Rattle.dt_pages.specs.Draft.{laid_over};
ghost use Rattle.dt_fit.specs.Cells.{is_kept, is_tried};
ghost use Rattle.dt_fit.specs.declared.geometry.Geometry.TheVariants.{Displacements};
ghost use Rattle.dt_mrd.specs.Reading.{owns};
ghost use Rattle.dt_mrd.specs.Placing.{displacements};
ghost use Rattle.dt_mrd.specs.Kept.{row_at, tag_in};
ghost use Rattle.dt_mrd.specs.Laying.{has_cell, HasClasses};
ghost use Rattle.dt_mrd.specs.Midway.{TakenAway};

use crate::indexes::indexes_of;
use crate::kept_row::{KeptRow, row_at, tag_in};
use crate::laying::{clear_cells, free_cells};
use crate::turn::Turn;
use dt_fit::UsedCells;
use dt_graph::NoMemory;
use dt_pages::{Draft, Tree};
use slab::Slab;
use std::alloc::Global;

// The displacement of a tag is given up, unless the row stays.
#[tactic(auto, using(crate::proofs::Displacements::displacement_given, crate::proofs::Displacements::none_given, crate::proofs::Displacements::stays_given))]
pub(crate) fn free_displacement(
    taken: &mut UsedCells,
    tag: u32,
    stays: bool,
) -> Result<(), NoMemory>
    requires tag { tag - 1 < displacements }
    requires geometry { taken.old.geometry ≡ Displacements }
    ensures geometry { taken.new.geometry ≡ Displacements }
    ensures kept { (displacement : ℕ) → is_kept taken.new displacement ≡ is_kept taken.old displacement }
    ensures given { OnOk result ((displacement : ℕ) → is_tried taken.new displacement
        ≡ ((stays || not (suc displacement == tag)) && is_tried taken.old displacement)) }
{
    if tag != 0 && !stays {
        taken.free(tag - 1)?;
    }
    Ok(())
}

// Before any row is placed: a row that is none any more is taken away with its cells, and cells of another whose class isn't
// an index any more are cleared.
pub(crate) fn take_away(
    alloc: Global,
    rows: &Slab<KeptRow>,
    cells: &mut UsedCells,
    taken: &mut UsedCells,
    draft: &mut Draft,
    tree: &Tree,
    turn: &Turn,
) -> Result<(), NoMemory>
    requires tag { tag_in (row_at (get rows.now) turn.now.old) - 1 < displacements }
    requires classes { HasClasses (row_at (get rows.now) turn.now.old) }
    requires cells { cells.old.geometry ≡ Displacements }
    requires taken { taken.old.geometry ≡ Displacements }
    ensures cells { cells.new.geometry ≡ Displacements }
    ensures taken { taken.new.geometry ≡ Displacements }
    ensures cells_kept { (cell : ℕ) → is_kept cells.new cell ≡ is_kept cells.old cell }
    ensures taken_kept { (displacement : ℕ) → is_kept taken.new displacement ≡ is_kept taken.old displacement }
    ensures away { OnOk result (TakenAway (tag_in (row_at (get rows.now) turn.now.old)) (has_cell (row_at (get rows.now) turn.now.old)) (has_cell (row_at (get rows.now) turn.now.new))
        (is_some turn.now.new) (is_tried cells.old) (is_tried taken.old) (laid_over draft.old (look_up tree.now))
        (is_tried cells.new) (is_tried taken.new) (laid_over draft.new (look_up tree.now))) }
    ensures rest { OnOk result ((address : ℕ) → owns address ≡ false → laid_over draft.new (look_up tree.now) address ≡ laid_over draft.old (look_up tree.now) address) }
{
    let old = row_at(rows, turn.old);
    let new = row_at(rows, turn.new);
    let tag = tag_in(old);
    let listed = indexes_of(alloc, old)?;
    let indexes = listed.as_slice();
    free_cells(cells, tag, indexes, false, new)?;
    clear_cells(draft, tree, tag, indexes, false, new)?;
    free_displacement(taken, tag, turn.new.is_some())?;
    Ok(())
}
