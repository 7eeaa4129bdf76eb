ghost use Rattle.std.specs.Prelude.{◌≡◌, ◌==◌, ℕ, Bool, false, true, ◌&&◌, ◌||◌};
ghost use Rattle.std.specs.List.{list_any};
ghost use Rattle.dt_graph.specs.Graph.{has_number};
ghost use Rattle.dt_propagate.specs.Walk.{goes_on, is_any_above, is_unmarked};

use dt_definitions::{Defined, DefinitionKey};
use dt_graph::{ClassGraph, ClassNo, ClassSet};
use dt_selectors::SelNo;

// For one position: the classes at which the cells of a selector may differ, and, but for the first position, all that are
// above one of them.
#[derive(Debug, Drop)]
pub(crate) struct Near {
    pub(crate) marked: ClassSet,
    pub(crate) above: ClassSet,
}

// Whether one of the classes is above a marked one of its position.
fn is_any_above(nears: &[Near], highs: &[ClassNo]) -> bool
    ensures { result ≡ is_any_above nears.now highs.now }
{
    let [near, nears @ ..] = nears else {
        return false;
    };
    let [high, highs @ ..] = highs else {
        return false;
    };
    near.above.contains(*high) || is_any_above(nears, highs)
}

// Whether no class is marked at any position, and none is above one.
pub(crate) fn is_unmarked(nears: &[Near]) -> bool
    ensures { result ≡ is_unmarked nears.now }
{
    let [near, nears @ ..] = nears else {
        return true;
    };
    near.marked.len() == 0 && near.above.len() == 0 && is_unmarked(nears)
}

// The classes of the cone are in the set from now on: all of them, or the marked ones.
fn insert_cone(cone: &ClassSet, near: &Near, is_whole: bool, next: &mut ClassSet)
    ensures { (n : ℕ) → has_number next.new n
        ≡ (has_number next.old n || (has_number cone.now n && (is_whole || has_number near.now.marked n))) }
{
    if is_whole {
        next.insert_all(cone);
    } else {
        next.insert_all(&cone.intersection(&near.marked));
    }
}

// The classes that go on from the prefix below these are in the set from now on.
fn insert_below(
    graph: &ClassGraph,
    nears: &[Near],
    is_met: bool,
    highs: &[ClassNo],
    prefix: &[ClassNo],
    next: &mut ClassSet,
)
    ensures { (n : ℕ) → has_number next.new n
        ≡ (has_number next.old n || goes_on graph.now.links nears.now is_met highs.now prefix.now n) }
{
    let [near, nears @ ..] = nears else {
        return;
    };
    let [high, highs @ ..] = highs else {
        return;
    };
    let [class, prefix @ ..] = prefix else {
        let is_whole = is_met || is_any_above(nears, highs);
        return insert_cone(graph.below(*high), near, is_whole, next);
    };
    if graph.is_below(*class, *high) {
        let is_met = is_met || near.marked.contains(*class);
        insert_below(graph, nears, is_met, highs, prefix, next);
    }
}

// The classes that go on from the prefix below one of the definitions are in the set from now on.
pub(crate) fn insert_defined(
    graph: &ClassGraph,
    nears: &[Near],
    definitions: &[Defined],
    prefix: &[ClassNo],
    next: &mut ClassSet,
)
    ensures { (n : ℕ) → has_number next.new n
        ≡ (has_number next.old n || list_any (λ d. goes_on graph.now.links nears.now false d.classes prefix.now n) definitions.now) }
{
    for defined in definitions {
        insert_below(graph, nears, false, defined.classes.classes(), prefix, next);
    }
}

// The classes that go on from the prefix below one of the selector's keys are in the set from now on.
pub(crate) fn insert_redefined(
    graph: &ClassGraph,
    nears: &[Near],
    selector: SelNo,
    keys: &[DefinitionKey],
    prefix: &[ClassNo],
    next: &mut ClassSet,
)
    ensures { (n : ℕ) → has_number next.new n
        ≡ (has_number next.old n
        || list_any (λ key. (key.selector == selector) && goes_on graph.now.links nears.now true key.classes prefix.now n) keys.now) }
{
    for key in keys {
        if key.selector == selector {
            insert_below(graph, nears, true, key.classes.classes(), prefix, next);
        }
    }
}
