ghost use Rattle.std.specs.Prelude.{◌≡◌, ℕ, Bool, true, IsTrue, IfOk};
ghost use Rattle.std.specs.List.{list_any};
ghost use Rattle.dt_cells.specs.Pair.{single_changes, multi_changes};

use dt_graph::NoMemory;
use dt_scratch::Change;
use std::alloc::Global;

// The changes of a batch by the part of a pair that they belong to, and the selectors that have one.
#[derive(Drop)]
pub(crate) struct SplitChanges {
    // Those of queries of one class.
    pub(crate) singles: Vec<Change>,
    // Those of the others.
    pub(crate) multis: Vec<Change>,
    // The selectors with a change.
    pub(crate) selectors: Vec<u16>,
}

// The changes of queries of one class.
fn singles(alloc: Global, changes: &[Change]) -> Result<Vec<Change>, NoMemory>
    ensures { IfOk result (λ own. own.items ≡ single_changes changes.now) }
{
    let own = changes
        .iter()
        .filter(|change| change.query.arity() == 1)
        .copied()
        .collect(alloc)?;
    Ok(own)
}

// The changes of the other queries.
fn multis(alloc: Global, changes: &[Change]) -> Result<Vec<Change>, NoMemory>
    ensures { IfOk result (λ own. own.items ≡ multi_changes changes.now) }
{
    let own = changes
        .iter()
        .filter(|change| change.query.arity() != 1)
        .copied()
        .collect(alloc)?;
    Ok(own)
}

// Whether the selector is the last of these.
fn is_last(selectors: &[u16], selector: u16) -> bool
    ensures { IsTrue result → (test : ℕ → Bool) → test selector ≡ true → list_any test selectors.now ≡ true }
{
    !selectors.is_empty() && selectors[selectors.len() - 1] == selector
}

// The selectors with a change. Where changes in a row have the same one it stands once.
fn selectors(alloc: Global, changes: &[Change]) -> Result<Vec<u16>, NoMemory>
    ensures { IfOk result (λ selectors. (test : ℕ → Bool) → list_any test selectors.items ≡ list_any (λ change. test change.query.selector) changes.now) }
{
    let mut selectors = Vec::new(alloc);
    for change in changes {
        let selector = change.query.selector();
        if !is_last(selectors.as_slice(), selector) {
            selectors.push(selector)?;
        }
    }
    Ok(selectors)
}

// The changes, split.
pub(crate) fn split_changes(alloc: Global, changes: &[Change]) -> Result<SplitChanges, NoMemory>
    ensures singles { IfOk result (λ split. split.singles.items ≡ single_changes changes.now) }
    ensures multis { IfOk result (λ split. split.multis.items ≡ multi_changes changes.now) }
    ensures selectors { IfOk result (λ split. (test : ℕ → Bool) → list_any test split.selectors.items ≡ list_any (λ change. test change.query.selector) changes.now) }
{
    let singles = singles(alloc, changes)?;
    let multis = multis(alloc, changes)?;
    let selectors = selectors(alloc, changes)?;
    Ok(SplitChanges {
        singles,
        multis,
        selectors,
    })
}
