ghost use Rattle.std.specs.Prelude.{◌≡◌, ◌≤◌, ◌++◌, IfOk, OnOk};
ghost use Rattle.dt_propagate.specs.Counted.{CountsOn};
ghost use Rattle.dt_propagate.specs.Differences.{AreDifferences};
ghost use Rattle.dt_propagate.specs.GoneThrough.{all_arities, told_of_all};
ghost use Rattle.dt_propagate.specs.Marks.{DifferNear};
ghost use Rattle.dt_propagate.specs.Walk.{told_change};

use crate::found::Found;
use crate::marks::moved;
use crate::site::Site;
use crate::touched::touched;
use crate::walk::push_all;
use dt_definitions::{DefinitionKey, Program};
use dt_graph::{ClassSet, NoMemory, Steps};
use std::alloc::Global;
use std::sync::ledger::Ledger;

// What is told of all queries goes to the end.
fn push_touched<L: Ledger>(
    old: &Program,
    new: &Program,
    keys: &[DefinitionKey],
    edited: &ClassSet,
    steps: &mut Steps<L>,
    out: &mut Found,
) -> Result<(), NoMemory>
    requires { DifferNear old.now new.now keys.now edited.now }
    ensures told { OnOk result (out.new.changes.items ≡ out.old.changes.items ++ told_of_all (told_change old.now new.now) all_arities) }
    ensures counted { OnOk result (CountsOn steps.old steps.new out.old.counted out.new.counted) }
    ensures grows { steps.old ≤ steps.new }
{
    let moved = moved(old.graph(), new.graph(), edited);
    let touched = touched(old, new, keys, &moved);
    push_all(old, new, keys, &moved, &touched, steps, out)
}

// The differences of two programs that may differ there.
pub(crate) fn differences<L: Ledger>(
    alloc: Global,
    old: &Program,
    new: &Program,
    site: &Site,
    steps: &mut Steps<L>,
) -> Result<Found, NoMemory>
    requires { DifferNear old.now new.now site.now.keys.items site.now.edited }
    ensures differences { IfOk result (λ found. AreDifferences old.now new.now found.changes.items) }
    ensures counted { IfOk result (λ found. CountsOn steps.old steps.new 0 found.counted) }
    ensures grows { steps.old ≤ steps.new }
{
    let mut found = Found {
        changes: Vec::new(alloc),
        counted: 0,
    };
    push_touched(old, new, &site.keys, &site.edited, steps, &mut found)?;
    Ok(found)
}
