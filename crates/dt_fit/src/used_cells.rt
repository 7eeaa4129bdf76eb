ghost use Rattle.std.specs.Prelude.{◌≡◌, ℕ, ◌<◌, ◌≤◌, ◌-◌, ◌^◌, ◌==◌, ◌&&◌, ◌||◌, ◌++◌, false, not, replicate, length, OnOk, OnErr};
ghost use Rattle.dt_fit.specs.Geometry.{cell_at, cell_limit, place_limit};
ghost use Rattle.dt_fit.specs.Fits.{fits, fits_untaken, IsLowest, SomePlace};
ghost use Rattle.dt_fit.specs.Rows.{AreIndexes};
ghost use Rattle.dt_fit.specs.Cells.{is_kept, is_tried};
ghost use Rattle.dt_fit.specs.declared.geometry.Geometry.TheVariants.{Displacements};

use crate::bits::{BITS, are_free, is_set, lowest_open};
use crate::geometry::Geometry;
use crate::journal::{WordBefore, change, undo_all};
use dt_graph::NoMemory;
use std::alloc::Global;
use std::marker::Model;

/// Which cells of a table are used, in two states: *kept*, as the table is, and *tried*, as a batch that is being staged
/// makes it. Cells are taken and given free in the tried state; [`UsedCells::keep`] makes it the kept one, and
/// [`UsedCells::undo`] goes back to the kept one. It is seen as the record of both, which
/// `is_kept` and `is_tried` read.
///
/// It takes a bit for each cell up to the highest that was ever used, and sixteen bytes for each change since the two
/// states were the same.
#[derive(Debug, Drop)]
pub struct UsedCells {
    geometry: Geometry,
    words: Vec<u64>,
    // What words were before the changes since the states were the same, the newest last.
    journal: Vec<WordBefore>,
}

impl Model for UsedCells {
    ghost use Rattle.dt_fit.specs.Cells.{Cells};

    ghost Value = { Cells };

    ghost use Rattle.std.specs.Prelude.{◌≤◌, ◌^◌, length};
    ghost use Rattle.dt_fit.specs.Undoing.{undone, AreWithin};

    ghost view = { λ s. record {
      geometry = s.geometry;
      kept = undone s.journal.items s.words.items;
      tried = s.words.items;
    } };

    ghost invariant = { λ s. AreWithin s.journal.items s.words.items × (length s.words.items ≤ 2 ^ 21) };
}

// There are at least so many words from now on, with no further bit set. After want of memory all is as it was.
fn grow(words: &mut Vec<u64>, count: usize) -> Result<(), NoMemory>
    requires { count ≤ 2 ^ 21 }
    ensures ok { OnOk result (words.new.items ≡ words.old.items ++ replicate (count - length words.old.items) 0) }
    ensures err { OnErr result (words.new.items ≡ words.old.items) }
{
    if words.len() < count {
        words.resize(count, 0)?;
    }
    Ok(())
}

impl UsedCells {
    /// No cell is used, in neither state.
    pub fn new(alloc: Global, geometry: Geometry) -> UsedCells
        ensures geometry { result.geometry ≡ geometry }
        ensures kept { (cell : ℕ) → is_kept result cell ≡ false }
        ensures tried { (cell : ℕ) → is_tried result cell ≡ false }
    {
        UsedCells {
            geometry,
            words: Vec::new(alloc),
            journal: Vec::new(alloc),
        }
    }

    /// Whether the cell is used in the tried state.
    pub fn is_used(&self, cell: u32) -> bool
        ensures { result ≡ is_tried self.now cell }
    {
        cell < self.geometry.cell_limit() && is_set(&self.words, self.geometry.bit_of(cell))
    }

    /// The cell is used in the tried state from now on. After want of memory all is as it was.
    pub fn take(&mut self, cell: u32) -> Result<(), NoMemory>
        requires { cell < cell_limit self.old.geometry }
        ensures geometry { self.new.geometry ≡ self.old.geometry }
        ensures kept { (other : ℕ) → is_kept self.new other ≡ is_kept self.old other }
        ensures tried { OnOk result ((other : ℕ) → is_tried self.new other ≡ ((other == cell) || is_tried self.old other)) }
        ensures err { OnErr result (self.new ≡ self.old) }
    {
        let bit = self.geometry.bit_of(cell);
        if is_set(&self.words, bit) {
            return Ok(());
        }
        let count = self.words.len();
        grow(&mut self.words, bit / BITS + 1)?;
        let word = self.words[bit / BITS] | 1 << (bit % BITS);
        let changed = change(&mut self.words, &mut self.journal, bit / BITS, word);
        if changed.is_err() {
            self.words.truncate(count);
        }
        changed
    }

    /// The cell isn't used in the tried state from now on. After want of memory all is as it was.
    pub fn free(&mut self, cell: u32) -> Result<(), NoMemory>
        requires { cell < cell_limit self.old.geometry }
        ensures geometry { self.new.geometry ≡ self.old.geometry }
        ensures kept { (other : ℕ) → is_kept self.new other ≡ is_kept self.old other }
        ensures tried { OnOk result ((other : ℕ) → is_tried self.new other ≡ (not (other == cell) && is_tried self.old other)) }
        ensures err { OnErr result (self.new ≡ self.old) }
    {
        let bit = self.geometry.bit_of(cell);
        if !is_set(&self.words, bit) {
            return Ok(());
        }
        let word = self.words[bit / BITS] & !(1 << (bit % BITS));
        change(&mut self.words, &mut self.journal, bit / BITS, word)
    }

    /// What was tried is kept. It takes no memory.
    pub fn keep(&mut self)
        ensures { self.new ≡ record self.old { kept = self.old.tried } }
    {
        self.journal.clear();
    }

    /// What was tried is given up: the cells are used as they are kept. It takes no memory, and costs what the changes
    /// since the last `keep` cost.
    pub fn undo(&mut self)
        ensures { self.new ≡ record self.old { tried = self.old.kept } }
    {
        undo_all(&mut self.words, &mut self.journal);
    }

    /// Whether a row of these indexes fits at the place: none of its cells there is used in the tried state.
    pub fn fits_at(&self, indexes: &[u16], place: u32) -> bool
        requires indexes { AreIndexes indexes.now }
        requires place { place < place_limit self.now.geometry }
        ensures { result ≡ fits self.now.geometry (is_tried self.now) indexes.now place }
    {
        are_free(&self.words, self.geometry.step(), indexes, place as usize)
    }

    /// The lowest place at which a row of these indexes fits.
    pub fn lowest_fit(&self, indexes: &[u16]) -> u32
        requires indexes { AreIndexes indexes.now }
        requires room { SomePlace (fits self.now.geometry (is_tried self.now) indexes.now) (place_limit self.now.geometry) }
        ensures lowest { IsLowest (fits self.now.geometry (is_tried self.now) indexes.now) result }
        ensures in_range { result < place_limit self.now.geometry }
    {
        lowest_open(&[], &self.words, self.geometry.step(), indexes) as u32
    }

    /// The lowest place that isn't used in `taken`, where places are displacements, and at which a row of these indexes fits.
    pub fn lowest_untaken_fit(&self, indexes: &[u16], taken: &UsedCells) -> u32
        requires indexes { AreIndexes indexes.now }
        requires places { taken.now.geometry ≡ Displacements }
        requires room { SomePlace (fits_untaken self.now.geometry (is_tried taken.now) (is_tried self.now) indexes.now) (place_limit self.now.geometry) }
        ensures lowest { IsLowest (fits_untaken self.now.geometry (is_tried taken.now) (is_tried self.now) indexes.now) result }
        ensures in_range { result < place_limit self.now.geometry }
    {
        lowest_open(&taken.words, &self.words, self.geometry.step(), indexes) as u32
    }
}
