ghost use Rattle.std.specs.Prelude.{◌≡◌, ◌≤◌, Ok, IfOk, IfErr, OnOk, OnErr};
ghost use Rattle.dt_definitions.specs.Step.{step_batch};
ghost use Rattle.dt_propagate.specs.Counted.{CountsAt, CountsOn};
ghost use Rattle.dt_propagate.specs.Differences.{AreDifferences};
ghost use Rattle.dt_propagate.specs.Limits.{AreSizesOf, IsFullBy, IsWithinLimits};

use crate::bound::bound;
use crate::change_fault::ChangeFault;
use crate::differences::differences;
use crate::full::kept;
use crate::limits::{CELLS, ROWS};
use crate::part::Part;
use crate::site::find_site;
use crate::sizes::Sizes;
use dt_definitions::{Batch, Program};
use dt_graph::Steps;
use dt_scratch::Change;
use std::alloc::Global;
use std::sync::ledger::Ledger;

/// What the batch changes, where `new` is `old` after it: exactly the queries whose cells differ in the two programs,
/// each once, in the order of queries, with its new cell.
///
/// [`CellsFull`](ChangeFault::CellsFull) exactly where the new program has more than [`CELLS`](crate::CELLS) cells that
/// are understood, else [`RowsFull`](ChangeFault::RowsFull) exactly where it has more than [`ROWS`](crate::ROWS) rows;
/// [`NoMemory`](ChangeFault::NoMemory) where no memory was found, for the answer or for the places that the edits name.
/// Limits are looked at first, so that a batch that passes them finds no cell.
///
/// `sizes` are those of `old`, and at `Ok` those of `new`; after an error they are as they were. Who goes on from `old`
/// after an `Ok` has to put them back. They begin with [`Sizes::none`] at the empty program.
///
/// Each finding of a cell's answer counts one step; counting cells and rows finds no answer. Cells are found, once in each
/// program, for the queries below a definition that the batch makes or takes away, and for those whose answer its links
/// can change: with a class that is below other classes, or another order of them, among those that the selector's
/// definitions name in that position. Selectors that no definition at a class which moved, and no edit, names cost
/// nothing but a bit: 64 of them that are next to each other in number are passed over by one look.
///
/// The new sizes are the old ones, what is below each definition that the batch makes, and what more is below each
/// definition at a class that others are below now and weren't before: they cost nothing that grows with the rest of the
/// program, and are no less than the old ones. Where they pass a limit, cells or rows are counted, class by class, and
/// stand for it from then on.
pub fn changes<L: Ledger>(
    alloc: Global,
    old: &Program,
    batch: &Batch,
    new: &Program,
    sizes: &mut Sizes,
    steps: &mut Steps<L>,
) -> Result<Vec<Change>, ChangeFault>
    requires after { step_batch old.now batch.now ≡ Ok new.now }
    requires sizes { AreSizesOf old.now sizes.old }
    ensures differences { IfOk result (λ changes. AreDifferences old.now new.now changes.items) }
    ensures sizes { OnOk result (AreSizesOf new.now sizes.new) }
    ensures sizes_stay { OnErr result (sizes.new ≡ sizes.old) }
    ensures within { OnOk result (IsWithinLimits new.now) }
    ensures full { IfErr result (λ fault. IsFullBy new.now fault) }
    ensures steps { steps.old ≤ steps.new }
    ensures steps_at { IfErr result (λ fault. CountsAt fault steps.old steps.new) }
{
    match changes_counted(alloc, old, batch, new, sizes, steps) {
        Ok((changes, _)) => Ok(changes),
        Err(fault) => Err(fault),
    }
}

/// As [`changes`], with the number of steps that this call counted; 2^64 - 1 where they are more.
pub fn changes_counted<L: Ledger>(
    alloc: Global,
    old: &Program,
    batch: &Batch,
    new: &Program,
    sizes: &mut Sizes,
    steps: &mut Steps<L>,
) -> Result<(Vec<Change>, u64), ChangeFault>
    requires after { step_batch old.now batch.now ≡ Ok new.now }
    requires sizes { AreSizesOf old.now sizes.old }
    ensures differences { IfOk result (λ counted. AreDifferences old.now new.now counted.0.items) }
    ensures counted { IfOk result (λ counted. CountsOn steps.old steps.new 0 counted.1) }
    ensures sizes { OnOk result (AreSizesOf new.now sizes.new) }
    ensures sizes_stay { OnErr result (sizes.new ≡ sizes.old) }
    ensures within { OnOk result (IsWithinLimits new.now) }
    ensures full { IfErr result (λ fault. IsFullBy new.now fault) }
    ensures steps { steps.old ≤ steps.new }
    ensures steps_at { IfErr result (λ fault. CountsAt fault steps.old steps.new) }
{
    let Ok(site) = find_site(alloc, old, batch, new) else {
        return Err(ChangeFault::NoMemory);
    };
    let bound = bound(old, new, &site, *sizes);
    let Some(cells) = kept(new, Part::Cells, bound.cells, CELLS) else {
        return Err(ChangeFault::CellsFull);
    };
    let Some(rows) = kept(new, Part::Rows, bound.rows, ROWS) else {
        return Err(ChangeFault::RowsFull);
    };
    let Ok(found) = differences(alloc, old, new, &site, steps) else {
        return Err(ChangeFault::NoMemory);
    };
    *sizes = Sizes { cells, rows };
    Ok((found.changes, found.counted))
}
