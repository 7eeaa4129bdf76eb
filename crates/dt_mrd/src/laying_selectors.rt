ghost use Rattle.std.specs.Prelude.{◌≡◌, ◌≤◌, ◌++◌, length, get_or, None, List, IfOk};
ghost use Rattle.slab.specs.Slab.{get};
ghost use Rattle.dt_placing.specs.Turn.{run_of};
ghost use Rattle.dt_mrd.specs.declared.staged.StagedRoot.{StagedRoot};
ghost use Rattle.dt_mrd.specs.declared.turn.Turn.{Turn};
ghost use Rattle.dt_mrd.specs.Levels.{Extends, AreSelectors};

use crate::kept_row::KeptRow;
use crate::levels::lay_selector;
use crate::staged::StagedRoot;
use crate::turn::Turn;
use dt_graph::NoMemory;
use dt_scratch::Change;
use slab::Slab;

// How many changes are of the selector before one that isn't.
fn run(changes: &[Change], selector: u16) -> usize
    ensures value { result ≡ run_of selector changes.now }
    ensures in_range { result ≤ length changes.now }
{
    let mut count = 0;
    while count < changes.len() && changes[count].query.selector() == selector {
        count += 1;
    }
    count
}

// The key of the selector's row of the empty prefix.
pub(crate) fn root_of(roots: &[Option<usize>], selector: u16) -> Option<usize>
    ensures { result ≡ get_or roots.now selector None }
{
    match roots.get(usize::from(selector)) {
        Some(key) => *key,
        None => None,
    }
}

// The rows that the changes touch are laid anew, selectors in ascending order, and the new keys of the selectors are added.
fn lay_each(
    rows: &mut Slab<KeptRow>,
    fresh: &mut Vec<usize>,
    turns: &mut Vec<Turn>,
    staged: &mut Vec<StagedRoot>,
    roots: &[Option<usize>],
    changes: &[Change],
) -> Result<(), NoMemory>
    ensures extends { Extends (get rows.old) fresh.old.items (get rows.new) fresh.new.items }
    ensures selectors { IfOk result (λ done. (more : List StagedRoot) × (more_turns : List Turn)
        × (staged.new.items ≡ staged.old.items ++ more) × (turns.new.items ≡ turns.old.items ++ more_turns)
        × AreSelectors roots.now (get rows.old) fresh.old.items changes.now more more_turns (get rows.new) fresh.new.items) }
{
    let mut rest = changes;
    while !rest.is_empty() {
        let selector = rest[0].query.selector();
        let (own, more) = rest.split_at(run(rest, selector));
        let key = lay_selector(rows, fresh, turns, root_of(roots, selector), own)?;
        staged.push(StagedRoot { selector, key })?;
        rest = more;
    }
    Ok(())
}

// The rows that the changes touch are laid anew, selectors in ascending order. It answers the new keys of the selectors.
pub(crate) fn lay_selectors(
    rows: &mut Slab<KeptRow>,
    fresh: &mut Vec<usize>,
    turns: &mut Vec<Turn>,
    roots: &[Option<usize>],
    changes: &[Change],
) -> Result<Vec<StagedRoot>, NoMemory>
    ensures extends { Extends (get rows.old) fresh.old.items (get rows.new) fresh.new.items }
    ensures selectors { IfOk result (λ staged. (more : List Turn) × (turns.new.items ≡ turns.old.items ++ more)
        × AreSelectors roots.now (get rows.old) fresh.old.items changes.now staged.items more (get rows.new) fresh.new.items) }
{
    let mut staged = Vec::new(*fresh.allocator());
    lay_each(rows, fresh, turns, &mut staged, roots, changes)?;
    Ok(staged)
}
