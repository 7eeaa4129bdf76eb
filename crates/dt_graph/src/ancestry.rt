ghost use Rattle.std.specs.Prelude.{◌≡◌, ◌==◌, ℕ, ◌<◌, ◌&&◌, ◌||◌, not, if◌then◌else◌, IfOk, length, [], slice_index_or};
ghost use Rattle.dt_graph.specs.Graph.{has_number};
ghost use Rattle.dt_graph.specs.Ancestry.{holds, row_has};

use crate::class_no::ClassNo;
use crate::class_set::ClassSet;
use crate::counted_rows::{each_counted, insert_counted, remove_counted};
use crate::counted_set::CountedSet;
use crate::limits::CLASSES;
use crate::no_memory::NoMemory;
use std::alloc::Global;
use std::marker::Model;

// Which class is at or below which, kept both ways, so that either question is one bit.
#[derive(Debug, Drop)]
pub(crate) struct Ancestry {
    // For each class the classes at or above it.
    above: Vec<ClassSet>,
    // For each class the classes at or below it, and how many they are.
    below: Vec<CountedSet>,
}

impl Model for Ancestry {
    ghost use Rattle.std.specs.Prelude.{ℕ, List};

    ghost Value = { List (List ℕ) };

    ghost use Rattle.dt_graph.specs.Ancestry.{Mirrored};

    ghost view = { λ a. a.above.items };

    ghost invariant = { λ a. Mirrored a.above.items a.below.items };
}

// For each class the set of it alone.
fn each_alone(alloc: Global) -> Result<Vec<ClassSet>, NoMemory>
    ensures count { IfOk result (λ rows. length rows.items ≡ CLASSES) }
    ensures rows { IfOk result (λ rows. (k n : ℕ) → k < CLASSES → n < CLASSES → row_has rows.items k n ≡ (k == n)) }
{
    let mut rows = Vec::with_capacity(alloc, CLASSES as usize)?;
    for number in 0..CLASSES as usize {
        let mut row = ClassSet::new();
        row.insert(ClassNo::from_index(number));
        rows.push(row)?;
    }
    Ok(rows)
}

// Each row that `places` names has these classes too from now on.
fn insert_all_at(rows: &mut [ClassSet], places: &ClassSet, classes: &ClassSet)
    requires { length rows.old ≡ CLASSES }
    ensures count { length rows.new ≡ CLASSES }
    ensures rows { (k n : ℕ) → row_has rows.new k n
        ≡ (row_has rows.old k n || (has_number places.now k && has_number classes.now n)) }
{
    places.law();
    let mut least = 0;
    while let Some(place) = places.first_from(least) {
        rows[place.number() as usize].insert_all(classes);
        least = place.number() as usize + 1;
    }
}

// Each row that `places` names has these classes no more.
fn remove_all_at(rows: &mut [ClassSet], places: &ClassSet, classes: &ClassSet)
    requires { length rows.old ≡ CLASSES }
    ensures count { length rows.new ≡ CLASSES }
    ensures rows { (k n : ℕ) → row_has rows.new k n
        ≡ (row_has rows.old k n && not (has_number places.now k && has_number classes.now n)) }
{
    places.law();
    let mut least = 0;
    while let Some(place) = places.first_from(least) {
        rows[place.number() as usize].remove_all(classes);
        least = place.number() as usize + 1;
    }
}

impl Ancestry {
    // Every class is at or below itself alone. All memory is taken here.
    pub(crate) fn new(alloc: Global) -> Result<Ancestry, NoMemory>
        ensures { IfOk result (λ a. (low high : ℕ) → low < CLASSES → high < CLASSES → holds a low high ≡ (low == high)) }
    {
        let above = each_alone(alloc)?;
        let below = each_counted(alloc)?;
        Ok(Ancestry { above, below })
    }

    // The same once more.
    pub(crate) fn copy(&self) -> Result<Ancestry, NoMemory>
        ensures { IfOk result (λ a. a ≡ self.now) }
    {
        let above = self.above.clone()?;
        let below = self.below.clone()?;
        Ok(Ancestry { above, below })
    }

    // Whether `low` is at or below `high`.
    pub(crate) fn holds(&self, low: ClassNo, high: ClassNo) -> bool
        ensures { result ≡ holds self.now low high }
    {
        self.above(low).contains(high)
    }

    // The classes at or above `low`.
    pub(crate) fn above(&self, low: ClassNo) -> &ClassSet
        ensures { result.now ≡ slice_index_or self.now low [] }
    {
        &self.above[low.number() as usize]
    }

    // The classes at or below `high`.
    pub(crate) fn below(&self, high: ClassNo) -> &ClassSet
        ensures { (low : ℕ) → low < CLASSES → has_number result.now low ≡ holds self.now low high }
    {
        self.counted_below(high).as_set()
    }

    // The same, with how many they are.
    pub(crate) fn counted_below(&self, high: ClassNo) -> &CountedSet
        ensures { (low : ℕ) → low < CLASSES → has_number result.now low ≡ holds self.now low high }
    {
        &self.below[high.number() as usize]
    }

    // From now on `class` is below `parent`: what was at or below the one is at or below what was at or above the
    // other.
    pub(crate) fn join(&mut self, class: ClassNo, parent: ClassNo)
        ensures { (low high : ℕ) → low < CLASSES → high < CLASSES → holds self.new low high
            ≡ (holds self.old low high || (holds self.old low class && holds self.old parent high)) }
    {
        let lows = self.below(class).copy();
        let highs = self.above(parent).copy();
        self.put_below(&lows, &highs);
    }

    // From now on each of the lows is at or below each of the highs.
    pub(crate) fn put_below(&mut self, lows: &ClassSet, highs: &ClassSet)
        ensures { (low high : ℕ) → low < CLASSES → high < CLASSES → holds self.new low high
            ≡ (holds self.old low high || (has_number lows.now low && has_number highs.now high)) }
    {
        insert_all_at(&mut self.above, lows, highs);
        insert_counted(&mut self.below, highs, lows);
    }

    // From now on none of the lows is at or below any of the highs.
    pub(crate) fn part(&mut self, lows: &ClassSet, highs: &ClassSet)
        ensures { (low high : ℕ) → low < CLASSES → high < CLASSES → holds self.new low high
            ≡ (holds self.old low high && not (has_number lows.now low && has_number highs.now high)) }
    {
        remove_all_at(&mut self.above, lows, highs);
        remove_counted(&mut self.below, highs, lows);
    }

    // From now on the classes at or above `low` are these.
    pub(crate) fn set_above(&mut self, low: ClassNo, row: &ClassSet)
        ensures { (l h : ℕ) → l < CLASSES → h < CLASSES
            → holds self.new l h ≡ (if l == low then has_number row.now h else holds self.old l h) }
    {
        if self.above(low).is_same(row) {
            return;
        }
        let old = self.above(low).copy();
        let mut alone = ClassSet::new();
        alone.insert(low);
        remove_counted(&mut self.below, &old.without(row), &alone);
        insert_counted(&mut self.below, &row.without(&old), &alone);
        self.above[low.number() as usize] = row.copy();
    }
}
