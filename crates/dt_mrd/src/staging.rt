ghost use Rattle.std.specs.Prelude.{◌≡◌, ℕ, false, List, [], ◌++◌, Option, Contains, IfOk, OnOk, filter_map};
ghost use Rattle.slab.specs.Slab.{get};
ghost use Rattle.dt_pages.specs.Reading.{Reading};
ghost use Rattle.dt_pages.specs.Image.{look_up};
ghost use Rattle.dt_pages.specs.Draft.{laid_over};
ghost use Rattle.dt_scratch.specs.declared.reply.Change.{Change};
ghost use Rattle.dt_cells.specs.Held.{Held};
ghost use Rattle.dt_cells.specs.Kind.{sets};
ghost use Rattle.dt_cells.specs.Standing.{CanStage};
ghost use Rattle.dt_fit.specs.Cells.{is_kept, is_tried};
ghost use Rattle.dt_fit.specs.declared.geometry.Geometry.TheVariants.{Displacements};
ghost use Rattle.dt_mrd.specs.declared.turn.Turn.{Turn};
ghost use Rattle.dt_mrd.specs.Reading.{owns};
ghost use Rattle.dt_mrd.specs.Placing.{Places, mrd};
ghost use Rattle.dt_mrd.specs.Kept.{Stands, Follows};
ghost use Rattle.dt_mrd.specs.Levels.{Extends, AreSelectors};
ghost use Rattle.dt_mrd.specs.Turns.{CanPlace, ArePlaced};
ghost use Rattle.dt_mrd.specs.Staging.{with_places, CanLay};

use crate::kept_row::{KeptRow, row_at, tag_in};
use crate::kept_rows::KeptRows;
use crate::laying_selectors::lay_selectors;
use crate::row_turn::take_turn;
use crate::staged::{MrdStaged, StagedRoot};
use crate::taking::take_away;
use crate::turn::Turn;
use dt_cells::place_address;
use dt_graph::NoMemory;
use dt_pages::{Draft, Tree};
use dt_scratch::Change;
use slab::Slab;
use std::alloc::Global;

// The keys of the rows as they were before their turns.
fn old_keys(alloc: Global, turns: &[Turn]) -> Result<Vec<usize>, NoMemory>
    ensures { IfOk result (λ keys. keys.items ≡ filter_map (λ turn. turn.old) turns.now) }
{
    let mut keys = Vec::new(alloc);
    for turn in turns {
        if let Some(key) = turn.old {
            keys.push(key)?;
        }
    }
    Ok(keys)
}

// The place words of the selectors are set.
fn set_places(
    rows: &Slab<KeptRow>,
    draft: &mut Draft,
    staged: &[StagedRoot],
) -> Result<(), NoMemory>
    ensures { OnOk result ((base : Reading) (address : ℕ) → laid_over draft.new base address ≡ with_places (get rows.now) staged.now (laid_over draft.old base) address) }
{
    for root in staged {
        let tag = tag_in(row_at(rows, root.key));
        draft.set(place_address(root.selector), u64::from(tag))?;
    }
    Ok(())
}

impl KeptRows {
    // Each row is taken away in so far as it isn't used any more.
    fn take_all_away(
        &mut self,
        draft: &mut Draft,
        tree: &Tree,
        turns: &[Turn],
    ) -> Result<(), NoMemory>
        requires cells { self.old.cells.geometry ≡ Displacements }
        requires taken { self.old.taken.geometry ≡ Displacements }
        requires able { (held : Held) × (changes : List Change) × (roots : List (Option ℕ)) × CanPlace (look_up tree.now) (laid_over draft.old (look_up tree.now)) held changes
            self.old.roots.items roots (get self.old.rows) self.old.fresh.items turns.now (is_tried self.old.cells) (is_tried self.old.taken) }
        ensures rest_kept { self.new ≡ record self.old { cells = self.new.cells; taken = self.new.taken } }
        ensures cells { self.new.cells.geometry ≡ Displacements }
        ensures taken { self.new.taken.geometry ≡ Displacements }
        ensures cells_kept { (cell : ℕ) → is_kept self.new.cells cell ≡ is_kept self.old.cells cell }
        ensures taken_kept { (displacement : ℕ) → is_kept self.new.taken displacement ≡ is_kept self.old.taken displacement }
        ensures ready { OnOk result ((held : Held) (changes : List Change) (roots : List (Option ℕ)) → CanPlace (look_up tree.now) (laid_over draft.old (look_up tree.now)) held changes
            self.old.roots.items roots (get self.old.rows) self.old.fresh.items turns.now (is_tried self.old.cells) (is_tried self.old.taken)
            → ArePlaced (look_up tree.now) (laid_over draft.new (look_up tree.now)) held changes
            self.old.roots.items roots (get self.old.rows) self.old.fresh.items turns.now [] (is_tried self.new.cells) (is_tried self.new.taken)) }
        ensures rest { OnOk result ((address : ℕ) → owns address ≡ false → laid_over draft.new (look_up tree.now) address ≡ laid_over draft.old (look_up tree.now) address) }
    {
        let alloc = *self.fresh.allocator();
        for turn in turns {
            take_away(
                alloc,
                &self.rows,
                &mut self.cells,
                &mut self.taken,
                draft,
                tree,
                turn,
            )?;
        }
        Ok(())
    }

    // Each row has its turn.
    fn take_turns(&mut self, draft: &mut Draft, tree: &Tree, turns: &[Turn]) -> Result<(), NoMemory>
        requires cells { self.old.cells.geometry ≡ Displacements }
        requires taken { self.old.taken.geometry ≡ Displacements }
        requires able { (held : Held) × (changes : List Change) × (roots : List (Option ℕ)) × ArePlaced (look_up tree.now) (laid_over draft.old (look_up tree.now)) held changes
            self.old.roots.items roots (get self.old.rows) self.old.fresh.items turns.now [] (is_tried self.old.cells) (is_tried self.old.taken) }
        ensures rest_kept { self.new ≡ record self.old { rows = self.new.rows; cells = self.new.cells; taken = self.new.taken } }
        ensures cells { self.new.cells.geometry ≡ Displacements }
        ensures taken { self.new.taken.geometry ≡ Displacements }
        ensures cells_kept { (cell : ℕ) → is_kept self.new.cells cell ≡ is_kept self.old.cells cell }
        ensures taken_kept { (displacement : ℕ) → is_kept self.new.taken displacement ≡ is_kept self.old.taken displacement }
        ensures rows_kept { (key : ℕ) → (Contains self.old.fresh.items key → ⊥) → get self.new.rows key ≡ get self.old.rows key }
        ensures placed { OnOk result ((held : Held) (changes : List Change) (roots : List (Option ℕ)) → ArePlaced (look_up tree.now) (laid_over draft.old (look_up tree.now)) held changes
            self.old.roots.items roots (get self.old.rows) self.old.fresh.items turns.now [] (is_tried self.old.cells) (is_tried self.old.taken)
            → ArePlaced (look_up tree.now) (laid_over draft.new (look_up tree.now)) held changes
            self.old.roots.items roots (get self.new.rows) self.old.fresh.items turns.now turns.now (is_tried self.new.cells) (is_tried self.new.taken)) }
        ensures rest { OnOk result ((address : ℕ) → owns address ≡ false → laid_over draft.new (look_up tree.now) address ≡ laid_over draft.old (look_up tree.now) address) }
    {
        let alloc = *self.fresh.allocator();
        for turn in turns {
            take_turn(
                alloc,
                &mut self.rows,
                &mut self.cells,
                &mut self.taken,
                draft,
                tree,
                turn,
            )?;
        }
        Ok(())
    }

    // Each row is taken away in so far as it isn't used any more; then each has its turn.
    fn place(&mut self, draft: &mut Draft, tree: &Tree, turns: &[Turn]) -> Result<(), NoMemory>
        requires cells { self.old.cells.geometry ≡ Displacements }
        requires taken { self.old.taken.geometry ≡ Displacements }
        requires able { (held : Held) × (changes : List Change) × (roots : List (Option ℕ)) × CanPlace (look_up tree.now) (laid_over draft.old (look_up tree.now)) held changes
            self.old.roots.items roots (get self.old.rows) self.old.fresh.items turns.now (is_tried self.old.cells) (is_tried self.old.taken) }
        ensures rest_kept { self.new ≡ record self.old { rows = self.new.rows; cells = self.new.cells; taken = self.new.taken } }
        ensures cells { self.new.cells.geometry ≡ Displacements }
        ensures taken { self.new.taken.geometry ≡ Displacements }
        ensures cells_kept { (cell : ℕ) → is_kept self.new.cells cell ≡ is_kept self.old.cells cell }
        ensures taken_kept { (displacement : ℕ) → is_kept self.new.taken displacement ≡ is_kept self.old.taken displacement }
        ensures rows_kept { (key : ℕ) → (Contains self.old.fresh.items key → ⊥) → get self.new.rows key ≡ get self.old.rows key }
        ensures placed { OnOk result ((held : Held) (changes : List Change) (roots : List (Option ℕ)) → CanPlace (look_up tree.now) (laid_over draft.old (look_up tree.now)) held changes
            self.old.roots.items roots (get self.old.rows) self.old.fresh.items turns.now (is_tried self.old.cells) (is_tried self.old.taken)
            → ArePlaced (look_up tree.now) (laid_over draft.new (look_up tree.now)) held changes
            self.old.roots.items roots (get self.new.rows) self.old.fresh.items turns.now turns.now (is_tried self.new.cells) (is_tried self.new.taken)) }
        ensures rest { OnOk result ((address : ℕ) → owns address ≡ false → laid_over draft.new (look_up tree.now) address ≡ laid_over draft.old (look_up tree.now) address) }
    {
        self.take_all_away(draft, tree, turns)?;
        self.take_turns(draft, tree, turns)?;
        Ok(())
    }

    // The rows that the changes touch are laid anew, with their turns. It answers the new keys of the selectors.
    fn lay(
        &mut self,
        turns: &mut Vec<Turn>,
        changes: &[Change],
    ) -> Result<Vec<StagedRoot>, NoMemory>
        ensures rest_kept { self.new ≡ record self.old { rows = self.new.rows; fresh = self.new.fresh } }
        ensures extends { Extends (get self.old.rows) self.old.fresh.items (get self.new.rows) self.new.fresh.items }
        ensures selectors { IfOk result (λ staged. (more : List Turn) × (turns.new.items ≡ turns.old.items ++ more)
            × AreSelectors self.old.roots.items (get self.old.rows) self.old.fresh.items changes.now staged.items more (get self.new.rows) self.new.fresh.items) }
    {
        let roots = self.roots.as_slice();
        let staged = lay_selectors(&mut self.rows, &mut self.fresh, turns, roots, changes)?;
        Ok(staged)
    }

    // The rows that the changes touch are laid anew and placed. It answers what the stage leaves.
    fn lay_and_place(
        &mut self,
        tree: &Tree,
        draft: &mut Draft,
        changes: &[Change],
    ) -> Result<MrdStaged, NoMemory>
        requires { (held : Held) × CanLay self.old (look_up tree.now) (laid_over draft.old (look_up tree.now)) held changes.now }
        ensures least { self.new.least ≡ self.old.least }
        ensures stands { (x : Reading) (held : Held) → Stands self.old x held → Stands self.new x held }
        ensures placed { IfOk result (λ staged. (held : Held) → CanLay self.old (look_up tree.now) (laid_over draft.old (look_up tree.now)) held changes.now
            → Places (look_up tree.now) held changes.now (laid_over draft.new (look_up tree.now)) × Follows self.new staged (look_up tree.now) held changes.now) }
        ensures rest { OnOk result ((address : ℕ) → sets mrd changes.now address ≡ false
            → laid_over draft.new (look_up tree.now) address ≡ laid_over draft.old (look_up tree.now) address) }
    {
        let alloc = *self.fresh.allocator();
        let mut turns = Vec::new(alloc);
        let roots = self.lay(&mut turns, changes)?;
        self.place(draft, tree, turns.as_slice())?;
        set_places(&self.rows, draft, roots.as_slice())?;
        let gone = old_keys(alloc, turns.as_slice())?;
        Ok(MrdStaged { roots, gone })
    }

    // Sets in the draft what the changes make of the rows and of the place words of their selectors.
    pub(crate) fn stage(
        &mut self,
        tree: &Tree,
        draft: &mut Draft,
        changes: &[Change],
    ) -> Result<MrdStaged, NoMemory>
        requires { (held : Held) × CanStage mrd (Stands self.old) self.old.least (look_up tree.now) (laid_over draft.old (look_up tree.now)) held changes.now }
        ensures least { self.new.least ≡ self.old.least }
        ensures stands { (x : Reading) (held : Held) → Stands self.old x held → Stands self.new x held }
        ensures placed { IfOk result (λ staged. (held : Held) → CanStage mrd (Stands self.old) self.old.least (look_up tree.now) (laid_over draft.old (look_up tree.now)) held changes.now
            → Places (look_up tree.now) held changes.now (laid_over draft.new (look_up tree.now)) × Follows self.new staged (look_up tree.now) held changes.now) }
        ensures rest { OnOk result ((address : ℕ) → sets mrd changes.now address ≡ false
            → laid_over draft.new (look_up tree.now) address ≡ laid_over draft.old (look_up tree.now) address) }
    {
        self.undo();
        let staged = self.lay_and_place(tree, draft, changes)?;
        Ok(staged)
    }
}
