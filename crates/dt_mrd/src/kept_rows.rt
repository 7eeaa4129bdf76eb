ghost use Rattle.std.specs.Prelude.{◌≡◌, ◌≤◌, ℕ, [], length, get_or, set, None, IfOk, if◌then◌else◌};
ghost use Rattle.slab.specs.Slab.{get};
ghost use Rattle.dt_pages.specs.Reading.{blank};
ghost use Rattle.dt_cells.specs.Held.{none_held};
ghost use Rattle.dt_mrd.specs.Kept.{has_place, Stands, with_roots};
ghost use Rattle.dt_mrd.specs.Laying.{is_among};
ghost use Rattle.dt_mrd.specs.Staging.{IsSettled};

use crate::kept_row::KeptRow;
use crate::laying_selectors::root_of;
use crate::staged::{MrdStaged, StagedRoot};
use dt_fit::{Geometry, UsedCells};
use dt_graph::NoMemory;
use dt_selectors::SELECTORS;
use slab::Slab;
use std::alloc::Global;

/// The rows of what is held under keys, each with the keys of the rows to which it leads, and which cells and displacements
/// are used.
///
/// A row takes an entry of an ordered map for each of its cells. A batch copies the rows that have a change below them, and
/// no other: the rows of before stand beside the new ones until the batch is settled.
#[derive(Debug, Drop)]
pub(crate) struct KeptRows {
    // The least arity that is served.
    pub(crate) least: u8,
    // The key of each selector's row of the empty prefix.
    pub(crate) roots: Vec<Option<usize>>,
    pub(crate) rows: Slab<KeptRow>,
    // The keys of the rows that a stage laid and that weren't settled.
    pub(crate) fresh: Vec<usize>,
    // The cells of the master array.
    pub(crate) cells: UsedCells,
    // The displacements that rows have.
    pub(crate) taken: UsedCells,
}

// So many missing keys.
fn no_keys(alloc: Global, count: usize) -> Result<Vec<Option<usize>>, NoMemory>
    ensures count { IfOk result (λ keys. length keys.items ≡ count) }
    ensures none { IfOk result (λ keys. (at : ℕ) → get_or keys.items at None ≡ None) }
{
    let mut keys = Vec::new(alloc);
    for _ in 0..count {
        keys.push(None)?;
    }
    Ok(keys)
}

// No row of these keys is kept from now on.
fn give_up(rows: &mut Slab<KeptRow>, keys: &[usize])
    ensures { (key : ℕ) → get rows.new key ≡ (if is_among keys.now key then None else get rows.old key) }
{
    for key in keys {
        let _gone = rows.try_remove(*key);
    }
}

// The selector has this key.
#[tactic(auto, using(crate::proofs::Roots::set_past))]
fn put_root(roots: &mut Vec<Option<usize>>, selector: u16, key: Option<usize>)
    ensures { roots.new.items ≡ set roots.old.items selector key }
{
    let at = usize::from(selector);
    if at < roots.len() {
        roots[at] = key;
    }
}

// The selectors have these keys.
fn put_roots(roots: &mut Vec<Option<usize>>, staged: &[StagedRoot])
    ensures { roots.new.items ≡ with_roots staged.now roots.old.items }
{
    for root in staged {
        put_root(roots, root.selector, root.key);
    }
}

impl KeptRows {
    // No row is kept.
    #[tactic(auto, using(crate::proofs::Empty::stands_empty))]
    pub(crate) fn empty(alloc: Global, least: u8) -> Result<KeptRows, NoMemory>
        requires { 1 ≤ least }
        ensures { IfOk result (λ kept. Stands kept blank none_held × (kept.least ≡ least)) }
    {
        let roots = no_keys(alloc, 4096)?;
        Ok(KeptRows {
            least,
            roots,
            rows: Slab::new(alloc),
            fresh: Vec::new(alloc),
            cells: UsedCells::new(alloc, Geometry::Displacements),
            taken: UsedCells::new(alloc, Geometry::Displacements),
        })
    }

    // Whether the selector has a place.
    pub(crate) fn has_place(&self, selector: u16) -> bool
        ensures { result ≡ has_place self.now selector }
    {
        selector < SELECTORS && root_of(&self.roots, selector).is_some()
    }

    // What a stage left that wasn't settled is given up.
    pub(crate) fn undo(&mut self)
        ensures least { self.new.least ≡ self.old.least }
        ensures roots { self.new.roots ≡ self.old.roots }
        ensures rows { (key : ℕ) → get self.new.rows key ≡ (if is_among self.old.fresh.items key then None else get self.old.rows key) }
        ensures fresh { self.new.fresh.items ≡ [] }
        ensures cells { self.new.cells ≡ record self.old.cells { tried = self.old.cells.kept } }
        ensures taken { self.new.taken ≡ record self.old.taken { tried = self.old.taken.kept } }
    {
        give_up(&mut self.rows, &self.fresh);
        self.fresh.clear();
        self.cells.undo();
        self.taken.undo();
    }

    // The rows, cells and displacements of that stage are kept.
    pub(crate) fn settle(&mut self, staged: &MrdStaged)
        ensures { IsSettled self.old staged.now self.new }
    {
        put_roots(&mut self.roots, staged.roots.as_slice());
        give_up(&mut self.rows, staged.gone.as_slice());
        self.fresh.clear();
        self.cells.keep();
        self.taken.keep();
    }
}
