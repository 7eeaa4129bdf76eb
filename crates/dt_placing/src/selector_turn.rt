ghost use Rattle.std.specs.Prelude.{◌≡◌, ℕ, List, IfOk};
ghost use Rattle.dt_pages.specs.Image.{look_up};
ghost use Rattle.dt_pages.specs.Draft.{laid_over};
ghost use Rattle.dt_scratch.specs.declared.reply.Change.{Change};
ghost use Rattle.dt_cells.specs.Held.{Held};
ghost use Rattle.dt_fit.specs.Cells.{is_kept, is_tried};
ghost use Rattle.dt_placing.specs.Turn.{CanTurn, IsOver};

use crate::choosing::choose_word;
use crate::laying::{lay_turn, take_row};
use crate::row::new_row;
use crate::staying::{can_stay, stay};
use dt_fit::{Geometry, UsedCells};
use dt_graph::NoMemory;
use dt_pages::{Draft, Tree};
use dt_scratch::Change;
use std::alloc::Global;

// The selector's row is placed anew: its place is decided, its old cells are cleared, and its cells are set. It answers the
// place word.
fn place_row(
    alloc: Global,
    cells: &mut UsedCells,
    geometry: Geometry,
    tree: &Tree,
    draft: &mut Draft,
    selector: u16,
    before: u32,
    own: &[Change],
) -> Result<u32, NoMemory>
    requires geometry { cells.old.geometry ≡ geometry }
    requires turn { (held : Held) × (done : List Change) × CanTurn geometry (is_tried cells.old) (look_up tree.now) held done own.now selector before (laid_over draft.old (look_up tree.now)) }
    ensures geometry { cells.new.geometry ≡ geometry }
    ensures kept { (cell : ℕ) → is_kept cells.new cell ≡ is_kept cells.old cell }
    ensures over { IfOk result (λ word. IsOver geometry (look_up tree.now) own.now selector before word (laid_over draft.old (look_up tree.now))
        (laid_over draft.new (look_up tree.now)) (is_tried cells.old) (is_tried cells.new)) }
{
    let words = new_row(alloc, tree, geometry, selector, before, own)?;
    let row = words.as_slice();
    let word = choose_word(alloc, cells, tree, geometry, selector, before, row)?;
    lay_turn(draft, tree, geometry, selector, before, word, row)?;
    take_row(cells, geometry, word, row)?;
    Ok(word)
}

// The turn of a selector: where its place can stay, its changes alone are set; else its row is placed anew. It answers the
// place word.
pub(crate) fn take_turn(
    alloc: Global,
    cells: &mut UsedCells,
    geometry: Geometry,
    tree: &Tree,
    draft: &mut Draft,
    selector: u16,
    before: u32,
    own: &[Change],
) -> Result<u32, NoMemory>
    requires geometry { cells.old.geometry ≡ geometry }
    requires turn { (held : Held) × (done : List Change) × CanTurn geometry (is_tried cells.old) (look_up tree.now) held done own.now selector before (laid_over draft.old (look_up tree.now)) }
    ensures geometry { cells.new.geometry ≡ geometry }
    ensures kept { (cell : ℕ) → is_kept cells.new cell ≡ is_kept cells.old cell }
    ensures over { IfOk result (λ word. IsOver geometry (look_up tree.now) own.now selector before word (laid_over draft.old (look_up tree.now))
        (laid_over draft.new (look_up tree.now)) (is_tried cells.old) (is_tried cells.new)) }
{
    if can_stay(cells, geometry, tree, selector, before, own) {
        return stay(cells, geometry, tree, draft, selector, before, own);
    }
    place_row(alloc, cells, geometry, tree, draft, selector, before, own)
}
