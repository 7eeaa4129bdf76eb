ghost use Rattle.std.specs.Prelude.{◌≡◌, ℕ, zero, ◌<◌, ◌||◌, IsTrue, List, [], length};
ghost use Rattle.std.specs.List.{list_any};
ghost use Rattle.dt_graph.specs.Graph.{has_number};
ghost use Rattle.dt_graph.specs.Below.{is_below};
ghost use Rattle.dt_definitions.specs.Program.{definitions_of};
ghost use Rattle.dt_propagate.specs.Bounds.{is_gained};
ghost use Rattle.dt_propagate.specs.Marks.{DifferBelow, NearTells, NearsTell, has_at, is_below_in, is_moved, is_named_at};
ghost use Rattle.dt_definitions.specs.declared.definition_key.DefinitionKey.{DefinitionKey};

use crate::near::Near;
use dt_definitions::{Defined, Program};
use dt_graph::{ClassGraph, ClassNo, ClassSet};
use dt_selectors::SelNo;

// The classes at or below one of these in one of the two graphs.
pub(crate) fn below_edited(old: &ClassGraph, new: &ClassGraph, edited: &[ClassNo]) -> ClassSet
    ensures { (n : ℕ) → has_number result n ≡ list_any (λ class. is_below_in old.now.links new.now.links n class) edited.now }
{
    let mut below = ClassSet::new();
    for class in edited {
        below.insert_all(old.below(*class));
        below.insert_all(new.below(*class));
    }
    below
}

// The classes at or above the class in one of the two graphs are in the set from now on.
fn insert_above(old: &ClassGraph, new: &ClassGraph, class: ClassNo, above: &mut ClassSet)
    ensures { (n : ℕ) → has_number above.new n ≡ (has_number above.old n || is_below_in old.now.links new.now.links class n) }
{
    above.insert_all(old.above(class));
    above.insert_all(new.above(class));
}

// The classes at or above one of these in one of the two graphs.
fn above_all(old: &ClassGraph, new: &ClassGraph, lows: &ClassSet) -> ClassSet
    ensures { (n : ℕ) → has_number result n ≡ list_any (λ class. is_below_in old.now.links new.now.links class n) lows.now }
{
    lows.law();
    let mut above = ClassSet::new();
    let mut least = 0;
    while let Some(class) = lows.first_from(least) {
        insert_above(old, new, class, &mut above);
        least = class.number() as usize + 1;
    }
    above
}

// The classes that the class is below in one graph alone are in the set from now on.
fn insert_moved(old: &ClassGraph, new: &ClassGraph, class: ClassNo, moved: &mut ClassSet)
    ensures { (n : ℕ) → has_number moved.new n ≡ (has_number moved.old n || is_moved old.now.links new.now.links class n) }
{
    let before = old.above(class);
    let after = new.above(class);
    moved.insert_all(&before.without(after));
    moved.insert_all(&after.without(before));
}

// The classes that one of these is below in one of the two graphs alone.
pub(crate) fn moved(old: &ClassGraph, new: &ClassGraph, lows: &ClassSet) -> ClassSet
    ensures { (n : ℕ) → has_number result n ≡ list_any (λ class. is_moved old.now.links new.now.links class n) lows.now }
{
    lows.law();
    let mut moved = ClassSet::new();
    let mut least = 0;
    while let Some(class) = lows.first_from(least) {
        insert_moved(old, new, class, &mut moved);
        least = class.number() as usize + 1;
    }
    moved
}

// The classes that the class is below in the new graph alone are in the set from now on.
fn insert_gained(old: &ClassGraph, new: &ClassGraph, class: ClassNo, gained: &mut ClassSet)
    ensures { (n : ℕ) → has_number gained.new n ≡ (has_number gained.old n || is_gained old.now.links new.now.links class n) }
{
    gained.insert_all(&new.above(class).without(old.above(class)));
}

// The classes that one of these is below in the new graph alone.
pub(crate) fn gained(old: &ClassGraph, new: &ClassGraph, lows: &ClassSet) -> ClassSet
    ensures { (n : ℕ) → has_number result n ≡ list_any (λ class. is_gained old.now.links new.now.links class n) lows.now }
{
    lows.law();
    let mut gained = ClassSet::new();
    let mut least = 0;
    while let Some(class) = lows.first_from(least) {
        insert_gained(old, new, class, &mut gained);
        least = class.number() as usize + 1;
    }
    gained
}

// The class at the position is in the set from now on.
fn insert_at(classes: &[ClassNo], position: usize, named: &mut ClassSet)
    ensures { (n : ℕ) → has_number named.new n ≡ (has_number named.old n || has_at classes.now position n) }
{
    if let Some(class) = classes.get(position) {
        named.insert(*class);
    }
}

// The classes that the definitions name at the position are in the set from now on.
fn insert_named(definitions: &[Defined], position: usize, named: &mut ClassSet)
    ensures { (n : ℕ) → has_number named.new n
        ≡ (has_number named.old n || list_any (λ d. has_at d.classes position n) definitions.now) }
{
    for defined in definitions {
        insert_at(defined.classes.classes(), position, named);
    }
}

// The classes that are below the class in one graph alone are in the set from now on.
fn insert_changed(old: &ClassGraph, new: &ClassGraph, high: ClassNo, changed: &mut ClassSet)
    ensures { (n : ℕ) → has_number changed.new n ≡ (has_number changed.old n || is_moved old.now.links new.now.links n high) }
{
    let before = old.below(high);
    let after = new.below(high);
    changed.insert_all(&before.without(after));
    changed.insert_all(&after.without(before));
}

// The classes that are below one of these in one of the two graphs alone.
pub(crate) fn changed(old: &ClassGraph, new: &ClassGraph, highs: &ClassSet) -> ClassSet
    ensures { (n : ℕ) → has_number result n ≡ list_any (λ high. is_moved old.now.links new.now.links n high) highs.now }
{
    highs.law();
    let mut changed = ClassSet::new();
    let mut least = 0;
    while let Some(high) = highs.first_from(least) {
        insert_changed(old, new, high, &mut changed);
        least = high.number() as usize + 1;
    }
    changed
}

// The classes, and all at or below one of those that are named, too.
fn marked(old: &ClassGraph, changed: &ClassSet, highs: &ClassSet) -> ClassSet
    ensures { (n : ℕ) → has_number result n
        ≡ (has_number changed.now n || list_any (λ class. is_below old.now.links n class) highs.now) }
{
    highs.law();
    let mut marked = changed.copy();
    let mut least = 0;
    while let Some(class) = highs.first_from(least) {
        marked.insert_all(old.below(class));
        least = class.number() as usize + 1;
    }
    marked
}

// The classes that definitions of the selector name at the position, in one program or the other.
fn named_at(old: &Program, new: &Program, selector: SelNo, position: usize) -> ClassSet
    ensures { (n : ℕ) → has_number result n ≡ is_named_at old.now new.now selector position n }
{
    let mut named = ClassSet::new();
    insert_named(old.definitions_of(selector), position, &mut named);
    insert_named(new.definitions_of(selector), position, &mut named);
    named
}

// No class is marked.
fn unmarked() -> Near
    ensures marked { result.marked ≡ [] }
    ensures above { result.above ≡ [] }
{
    Near {
        marked: ClassSet::new(),
        above: ClassSet::new(),
    }
}

// The classes above the marked ones of a position. What is above those of the first position is never asked for.
fn above_marked(old: &Program, new: &Program, position: usize, marked: &ClassSet) -> ClassSet
    ensures { 0 < position → (n : ℕ) → has_number result n
        ≡ list_any (λ class. is_below_in old.now.graph.links new.now.graph.links class n) marked.now }
{
    if position == 0 {
        return ClassSet::new();
    }
    above_all(old.graph(), new.graph(), marked)
}

// The marked classes of a position: none where no class that moved is named there.
fn near_at(old: &Program, new: &Program, selector: SelNo, moved: &ClassSet, position: usize) -> Near
    ensures { (keys : List DefinitionKey) → DifferBelow old.now new.now keys moved.now
        → NearTells old.now new.now selector position result }
{
    let named = named_at(old, new, selector, position);
    let seen = named.intersection(moved);
    if seen.len() == 0 {
        return unmarked();
    }
    let changed = changed(old.graph(), new.graph(), &seen);
    let marked = marked(old.graph(), &changed, &changed.intersection(&named));
    let above = above_marked(old, new, position, &marked);
    Near { marked, above }
}

// The marked classes of each position.
pub(crate) fn nears(old: &Program, new: &Program, selector: SelNo, moved: &ClassSet) -> [Near; 4]
    ensures four { length result ≡ 4 }
    ensures tell { (keys : List DefinitionKey) → DifferBelow old.now new.now keys moved.now
        → NearsTell old.now new.now selector 0 result }
{
    if moved.len() == 0 {
        return [unmarked(), unmarked(), unmarked(), unmarked()];
    }
    [
        near_at(old, new, selector, moved, 0),
        near_at(old, new, selector, moved, 1),
        near_at(old, new, selector, moved, 2),
        near_at(old, new, selector, moved, 3),
    ]
}
