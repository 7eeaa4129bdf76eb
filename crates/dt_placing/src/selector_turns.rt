ghost use Rattle.std.specs.Prelude.{◌≡◌, ◌<◌, ◌≤◌, ℕ, length, false, IfOk, OnOk};
ghost use Rattle.dt_pages.specs.Image.{look_up};
ghost use Rattle.dt_pages.specs.Draft.{laid_over};
ghost use Rattle.dt_cells.specs.Held.{Held, is_changed_place};
ghost use Rattle.dt_fit.specs.Cells.{is_kept, is_tried};
ghost use Rattle.dt_placing.specs.Placing.{owns, AreUsed, Places};
ghost use Rattle.dt_placing.specs.Turn.{CanTakeTurns, AreWordsOf, run_of};

use crate::selector_turn::take_turn;
use crate::staged::StagedWord;
use dt_fit::{Geometry, UsedCells};
use dt_graph::NoMemory;
use dt_pages::{Draft, Tree};
use dt_scratch::Change;
use std::alloc::Global;

// How many changes are of the selector before one that isn't.
fn run(changes: &[Change], selector: u16) -> usize
    ensures value { result ≡ run_of selector changes.now }
    ensures in_range { result ≤ length changes.now }
{
    let mut count = 0;
    while count < changes.len() && changes[count].query.selector() == selector {
        count += 1;
    }
    count
}

// The selectors with a change have their turns, in ascending order. It answers their place words.
pub(crate) fn take_turns(
    alloc: Global,
    cells: &mut UsedCells,
    words: &[u32],
    geometry: Geometry,
    tree: &Tree,
    draft: &mut Draft,
    changes: &[Change],
) -> Result<Vec<StagedWord>, NoMemory>
    requires count { length words.now ≡ 4096 }
    requires geometry { cells.old.geometry ≡ geometry }
    requires able { (held : Held) × CanTakeTurns geometry cells.old words.now (look_up tree.now) (laid_over draft.old (look_up tree.now)) held changes.now }
    ensures geometry { cells.new.geometry ≡ geometry }
    ensures kept { (cell : ℕ) → is_kept cells.new cell ≡ is_kept cells.old cell }
    ensures placed { OnOk result ((held : Held)
        → CanTakeTurns geometry cells.old words.now (look_up tree.now) (laid_over draft.old (look_up tree.now)) held changes.now
        → Places geometry (look_up tree.now) held changes.now (laid_over draft.new (look_up tree.now))
        × AreUsed (is_tried cells.new) (laid_over draft.new (look_up tree.now))) }
    ensures words { IfOk result (λ staged. AreWordsOf words.now changes.now (laid_over draft.new (look_up tree.now)) staged.items) }
    ensures rest { OnOk result ((address : ℕ) → owns address ≡ false → is_changed_place changes.now address ≡ false
        → laid_over draft.new (look_up tree.now) address ≡ laid_over draft.old (look_up tree.now) address) }
{
    let mut staged = Vec::new(alloc);
    let mut rest = changes;
    while !rest.is_empty() {
        let selector = rest[0].query.selector();
        let count = run(rest, selector);
        let (own, more) = rest.split_at(count);
        let before = words[usize::from(selector)];
        let word = take_turn(alloc, cells, geometry, tree, draft, selector, before, own)?;
        staged.push(StagedWord { selector, word })?;
        rest = more;
    }
    Ok(staged)
}
