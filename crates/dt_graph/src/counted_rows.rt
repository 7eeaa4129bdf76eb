ghost use Rattle.std.specs.Prelude.{◌≡◌, ◌==◌, ℕ, ◌<◌, ◌&&◌, ◌||◌, not, IfOk, length};
ghost use Rattle.dt_graph.specs.Graph.{has_number};
ghost use Rattle.dt_graph.specs.Ancestry.{row_has};

use crate::class_no::ClassNo;
use crate::class_set::ClassSet;
use crate::counted_set::CountedSet;
use crate::limits::CLASSES;
use crate::no_memory::NoMemory;
use std::alloc::Global;

// For each class the set of it alone.
pub(crate) fn each_counted(alloc: Global) -> Result<Vec<CountedSet>, NoMemory>
    ensures count { IfOk result (λ rows. length rows.items ≡ CLASSES) }
    ensures rows { IfOk result (λ rows. (k n : ℕ) → k < CLASSES → n < CLASSES → row_has rows.items k n ≡ (k == n)) }
{
    let mut rows = Vec::with_capacity(alloc, CLASSES as usize)?;
    for number in 0..CLASSES as usize {
        rows.push(CountedSet::alone(ClassNo::from_index(number)))?;
    }
    Ok(rows)
}

// Each row that `places` names has these classes too from now on.
pub(crate) fn insert_counted(rows: &mut [CountedSet], places: &ClassSet, classes: &ClassSet)
    requires { length rows.old ≡ CLASSES }
    ensures count { length rows.new ≡ CLASSES }
    ensures rows { (k n : ℕ) → row_has rows.new k n
        ≡ (row_has rows.old k n || (has_number places.now k && has_number classes.now n)) }
{
    places.law();
    let only = classes.only();
    let mut least = 0;
    while let Some(place) = places.first_from(least) {
        rows[place.number() as usize].insert_these(classes, &only);
        least = place.number() as usize + 1;
    }
}

// Each row that `places` names has these classes no more.
pub(crate) fn remove_counted(rows: &mut [CountedSet], places: &ClassSet, classes: &ClassSet)
    requires { length rows.old ≡ CLASSES }
    ensures count { length rows.new ≡ CLASSES }
    ensures rows { (k n : ℕ) → row_has rows.new k n
        ≡ (row_has rows.old k n && not (has_number places.now k && has_number classes.now n)) }
{
    places.law();
    let only = classes.only();
    let mut least = 0;
    while let Some(place) = places.first_from(least) {
        rows[place.number() as usize].remove_these(classes, &only);
        least = place.number() as usize + 1;
    }
}
