ghost use Rattle.std.specs.Prelude.{◌≡◌, ◌≢◌, ◌≤◌, ◌++◌, ℕ, length, take, List, [], IfOk, Contains, Some, true, false, if◌then◌else◌};
ghost use Rattle.std.specs.Ordering.{nat_cmp};
ghost use Rattle.std.specs.BTreeMap as tree;
ghost use Rattle.slab.specs.Slab.{get};
ghost use Rattle.dt_mrd.specs.declared.turn.Turn.{Turn};
ghost use Rattle.dt_mrd.specs.Rows.{is_below};
ghost use Rattle.dt_mrd.specs.Kept.{next_in, row_at};
ghost use Rattle.dt_mrd.specs.Changing.{changes_put, turns_put};
ghost use Rattle.dt_mrd.specs.Levels.{prefix_of, Extends, IsLaid, earlier, first_of, IsRun, IsTurnOf, IsLevel, IsBeforeArity, first_key, AreLevels};

use crate::changing::changed_cells;
use crate::kept_row::{KeptRow, Next, key_along, row_at};
use crate::turn::Turn;
use dt_graph::NoMemory;
use dt_scratch::{Change, Query};
use slab::Slab;
use std::collections::BTreeMap;

// The first so many classes.
fn prefix(classes: &[u16], depth: usize) -> &[u16]
    ensures { result.now ≡ take depth classes.now }
{
    if depth <= classes.len() {
        &classes[..depth]
    } else {
        classes
    }
}

// Whether a list of classes comes before another in ascending order.
fn is_below(classes: &[u16], others: &[u16]) -> bool
    ensures { result ≡ is_below classes.now others.now }
{
    let mut at = 0;
    while at < classes.len() && at < others.len() {
        if classes[at] != others[at] {
            return classes[at] < others[at];
        }
        at += 1;
    }
    classes.len() < others.len()
}

// Whether both queries begin with the same so many classes.
fn is_same_prefix(query: &Query, other: &Query, depth: usize) -> bool
    ensures same { result ≡ true → prefix_of depth query.now ≡ prefix_of depth other.now }
    ensures other { result ≡ false → prefix_of depth query.now ≢ prefix_of depth other.now }
{
    prefix(query.classes(), depth) == prefix(other.classes(), depth)
}

// Of two queries that whose first so many classes come first.
fn earlier(one: Query, other: Query, depth: usize) -> Query
    ensures { result ≡ earlier one other depth }
{
    if is_below(prefix(other.classes(), depth), prefix(one.classes(), depth)) {
        other
    } else {
        one
    }
}

// The query whose row comes first.
fn first_query(changes: &[Change], led: &[Turn], depth: usize) -> Option<Query>
    ensures { result ≡ first_of depth changes.now led.now }
{
    let Some(change) = changes.first() else {
        return led.first().map(|turn| turn.query);
    };
    let Some(turn) = led.first() else {
        return Some(change.query);
    };
    Some(earlier(change.query, turn.query, depth))
}

// How many changes there are of the row before one that is of another.
fn run_of_changes(changes: &[Change], query: &Query, depth: usize) -> usize
    ensures in_range { result ≤ length changes.now }
    ensures run { IsRun (λ change. change.query) depth (prefix_of depth query.now) changes.now result }
{
    let mut count = 0;
    while count < changes.len() && is_same_prefix(&changes[count].query, query, depth) {
        count += 1;
    }
    count
}

// How many turns there are of rows to which the row leads before one of a row to which another leads.
fn run_of_turns(led: &[Turn], query: &Query, depth: usize) -> usize
    ensures in_range { result ≤ length led.now }
    ensures run { IsRun (λ turn. turn.query) depth (prefix_of depth query.now) led.now result }
{
    let mut count = 0;
    while count < led.len() && is_same_prefix(&led[count].query, query, depth) {
        count += 1;
    }
    count
}

// The cells are kept as a row that has no tag yet; a row without cells is none. Its key is among the fresh ones.
fn keep_row(
    rows: &mut Slab<KeptRow>,
    fresh: &mut Vec<usize>,
    cells: BTreeMap<u16, Next>,
) -> Result<Option<usize>, NoMemory>
    ensures extends { Extends (get rows.old) fresh.old.items (get rows.new) fresh.new.items }
    ensures laid { IfOk result (λ key. IsLaid (get rows.old) key (tree.get nat_cmp cells) (get rows.new)) }
    ensures among { IfOk result (λ new. (key : ℕ) → new ≡ Some key → Contains fresh.new.items key) }
{
    if cells.is_empty() {
        return Ok(None);
    }
    rows.reserve(1)?;
    fresh.push(rows.vacant_key())?;
    Ok(Some(rows.insert_reserved(KeptRow { tag: 0, cells })))
}

// A row is laid anew with the changes of its queries and the rows to which it leads.
fn lay_anew(
    rows: &mut Slab<KeptRow>,
    fresh: &mut Vec<usize>,
    old: Option<usize>,
    depth: usize,
    changes: &[Change],
    led: &[Turn],
) -> Result<Option<usize>, NoMemory>
    ensures extends { Extends (get rows.old) fresh.old.items (get rows.new) fresh.new.items }
    ensures laid { IfOk result (λ key. IsLaid (get rows.old) key
        (turns_put (changes_put (next_in (row_at (get rows.old) old)) depth changes.now) depth led.now) (get rows.new)) }
    ensures among { IfOk result (λ new. (key : ℕ) → new ≡ Some key → Contains fresh.new.items key) }
{
    let alloc = *fresh.allocator();
    let cells = changed_cells(alloc, row_at(rows, old), depth, changes, led)?;
    keep_row(rows, fresh, cells)
}

// A row has its turn, with the changes of its queries and the rows to which it leads.
fn lay_turn(
    rows: &mut Slab<KeptRow>,
    fresh: &mut Vec<usize>,
    root: Option<usize>,
    depth: usize,
    query: Query,
    own: &[Change],
    own_led: &[Turn],
) -> Result<Turn, NoMemory>
    ensures extends { Extends (get rows.old) fresh.old.items (get rows.new) fresh.new.items }
    ensures turn { IfOk result (λ turn. IsTurnOf root depth (get rows.old) query own.now own_led.now turn (get rows.new) fresh.new.items) }
{
    let old = key_along(rows, root, prefix(query.classes(), depth));
    let new = lay_anew(rows, fresh, old, depth, own, own_led)?;
    Ok(Turn {
        query,
        depth,
        old,
        new,
    })
}

// The rows have their turns in ascending order.
fn lay_rows(
    rows: &mut Slab<KeptRow>,
    fresh: &mut Vec<usize>,
    level: &mut Vec<Turn>,
    root: Option<usize>,
    depth: usize,
    changes: &[Change],
    led: &[Turn],
) -> Result<(), NoMemory>
    ensures extends { Extends (get rows.old) fresh.old.items (get rows.new) fresh.new.items }
    ensures level { IfOk result (λ done. (more : List Turn) × (level.new.items ≡ level.old.items ++ more)
        × IsLevel root depth (get rows.old) fresh.old.items changes.now led.now more (get rows.new) fresh.new.items) }
{
    let mut changes = changes;
    let mut led = led;
    while let Some(query) = first_query(changes, led, depth) {
        let (own, more) = changes.split_at(run_of_changes(changes, &query, depth));
        let (own_led, more_led) = led.split_at(run_of_turns(led, &query, depth));
        level.push(lay_turn(rows, fresh, root, depth, query, own, own_led)?)?;
        changes = more;
        led = more_led;
    }
    Ok(())
}

// The rows of one selector with prefixes of one length are laid anew, in ascending order: those of the changes, and those
// that lead to a row that had its turn. It answers their turns.
fn lay_level(
    rows: &mut Slab<KeptRow>,
    fresh: &mut Vec<usize>,
    root: Option<usize>,
    depth: usize,
    changes: &[Change],
    led: &[Turn],
) -> Result<Vec<Turn>, NoMemory>
    ensures extends { Extends (get rows.old) fresh.old.items (get rows.new) fresh.new.items }
    ensures level { IfOk result (λ level. IsLevel root depth (get rows.old) fresh.old.items changes.now led.now level.items (get rows.new) fresh.new.items) }
{
    let mut level = Vec::new(*fresh.allocator());
    lay_rows(rows, fresh, &mut level, root, depth, changes, led)?;
    Ok(level)
}

// How many changes there are before the first of this arity.
fn before_arity(changes: &[Change], arity: usize) -> usize
    ensures in_range { result ≤ length changes.now }
    ensures before { IsBeforeArity changes.now arity result }
{
    let mut count = 0;
    while count < changes.len() && changes[count].query.classes().len() != arity {
        count += 1;
    }
    count
}

// The turns come after the others.
fn add_turns(turns: &mut Vec<Turn>, more: &[Turn]) -> Result<(), NoMemory>
    ensures { IfOk result (λ done. turns.new.items ≡ turns.old.items ++ more.now) }
{
    for turn in more {
        turns.push(*turn)?;
    }
    Ok(())
}

// The key of the first turn's row, or else that of before.
fn first_key(root: Option<usize>, led: &[Turn]) -> Option<usize>
    ensures { result ≡ first_key root led.now }
{
    match led.first() {
        Some(turn) => turn.new,
        None => root,
    }
}

// The rows of one selector that a batch touches and that are shorter than this are laid anew, those of longer prefixes first,
// and their turns are added. It answers the key of the row of the empty prefix.
fn lay_levels(
    rows: &mut Slab<KeptRow>,
    fresh: &mut Vec<usize>,
    turns: &mut Vec<Turn>,
    root: Option<usize>,
    depth: usize,
    changes: &[Change],
    led: &[Turn],
) -> Result<Option<usize>, NoMemory>
    ensures extends { Extends (get rows.old) fresh.old.items (get rows.new) fresh.new.items }
    ensures levels { IfOk result (λ key. (more : List Turn) × (turns.new.items ≡ turns.old.items ++ more)
        × AreLevels root depth (get rows.old) fresh.old.items changes.now led.now more (get rows.new) fresh.new.items key) }
{
    if depth == 0 {
        return Ok(first_key(root, led));
    }
    let (fewer, own) = changes.split_at(before_arity(changes, depth));
    let level = lay_level(rows, fresh, root, depth - 1, own, led)?;
    add_turns(turns, level.as_slice())?;
    lay_levels(rows, fresh, turns, root, depth - 1, fewer, level.as_slice())
}

// The rows of one selector that a batch touches are laid anew, those of longer prefixes first, and their turns are added. It
// answers the key of the row of the empty prefix.
pub(crate) fn lay_selector(
    rows: &mut Slab<KeptRow>,
    fresh: &mut Vec<usize>,
    turns: &mut Vec<Turn>,
    root: Option<usize>,
    changes: &[Change],
) -> Result<Option<usize>, NoMemory>
    ensures extends { Extends (get rows.old) fresh.old.items (get rows.new) fresh.new.items }
    ensures levels { IfOk result (λ key. (more : List Turn) × (turns.new.items ≡ turns.old.items ++ more)
        × AreLevels root 4 (get rows.old) fresh.old.items changes.now [] more (get rows.new) fresh.new.items key) }
{
    lay_levels(rows, fresh, turns, root, 4, changes, &[])
}
