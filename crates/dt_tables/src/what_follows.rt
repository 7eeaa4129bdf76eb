ghost use Rattle.std.specs.Prelude.{◌≡◌, ◌<◌, List, Ok, IfOk, IfErr, OnOk, OnErr, filter};
ghost use Rattle.dt_scratch.specs.declared.reply.Change.{Change};
ghost use Rattle.dt_definitions.specs.Step.{step_batch};
ghost use Rattle.dt_propagate.specs.Differences.{AreDifferences};
ghost use Rattle.dt_propagate.specs.Limits.{AreSizesOf, IsFullBy, IsWithinLimits};
ghost use Rattle.dt_tables.specs.Kept.{is_covered};

use dt_definitions::{Batch, Program};
use dt_graph::Steps;
use dt_propagate::{ChangeFault, Sizes, changes};
use dt_scratch::Change;
use std::alloc::Global;
use std::marker::Brand;
use std::sync::ledger::{Blank, Ledger};

// What the batch changes, counted in the ledger that the blank becomes.
fn changes_counted_by<L: Ledger>(
    alloc: Global,
    old: &Program,
    batch: &Batch,
    new: &Program,
    sizes: &mut Sizes,
    blank: Blank,
) -> Result<Vec<Change>, ChangeFault>
    requires batch { step_batch old.now batch.now ≡ Ok new.now }
    requires sizes { AreSizesOf old.now sizes.old }
    requires name { blank.name ≡ L.name }
    requires parts { blank.parts ≡ L.parts }
    requires some_part { 0 < blank.parts }
    ensures differences { IfOk result (λ changes. AreDifferences old.now new.now changes.items) }
    ensures sizes { OnOk result (AreSizesOf new.now sizes.new) }
    ensures sizes_stay { OnErr result (sizes.new ≡ sizes.old) }
    ensures within { OnOk result (IsWithinLimits new.now) }
    ensures full { IfErr result (λ fault. IsFullBy new.now fault) }
{
    let mut steps = Steps::<L>::start(blank);
    changes(alloc, old, batch, new, sizes, &mut steps)
}

// What the batch changes.
fn all_changes(
    alloc: Global,
    old: &Program,
    batch: &Batch,
    new: &Program,
    sizes: &mut Sizes,
) -> Result<Vec<Change>, ChangeFault>
    requires batch { step_batch old.now batch.now ≡ Ok new.now }
    requires sizes { AreSizesOf old.now sizes.old }
    ensures differences { IfOk result (λ changes. AreDifferences old.now new.now changes.items) }
    ensures sizes { OnOk result (AreSizesOf new.now sizes.new) }
    ensures sizes_stay { OnErr result (sizes.new ≡ sizes.old) }
    ensures within { OnOk result (IsWithinLimits new.now) }
    ensures full { IfErr result (λ fault. IsFullBy new.now fault) }
{
    changes_counted_by::<Brand>(alloc, old, batch, new, sizes, Blank::new(1))
}

// The changes whose arity is at most this stay, in their order.
fn keep_covered(changes: &mut Vec<Change>, most: u8)
    ensures { changes.new.items ≡ filter (is_covered most) changes.old.items }
{
    changes.retain(|change| change.query.arity() <= most);
}

// What the batch changes among the queries of at most so many classes: what is left of all that it changes where the
// others are left out.
pub(crate) fn covered_changes(
    alloc: Global,
    old: &Program,
    batch: &Batch,
    new: &Program,
    sizes: &mut Sizes,
    most: u8,
) -> Result<Vec<Change>, ChangeFault>
    requires batch { step_batch old.now batch.now ≡ Ok new.now }
    requires sizes { AreSizesOf old.now sizes.old }
    ensures covered { IfOk result (λ covered. (all : List Change) × AreDifferences old.now new.now all
        × (covered.items ≡ filter (is_covered most) all)) }
    ensures sizes { OnOk result (AreSizesOf new.now sizes.new) }
    ensures sizes_stay { OnErr result (sizes.new ≡ sizes.old) }
    ensures within { OnOk result (IsWithinLimits new.now) }
    ensures full { IfErr result (λ fault. IsFullBy new.now fault) }
{
    let mut changes = all_changes(alloc, old, batch, new, sizes)?;
    keep_covered(&mut changes, most);
    Ok(changes)
}
