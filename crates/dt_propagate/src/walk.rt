ghost use Rattle.std.specs.Prelude.{◌≡◌, ℕ, ◌+◌, ◌<◌, ◌≤◌, ◌||◌, ◌==◌, ◌++◌, [], length, filter, IfOk, OnOk};
ghost use Rattle.dt_graph.specs.Graph.{has_number};
ghost use Rattle.dt_propagate.specs.Counted.{CountsOn};
ghost use Rattle.dt_propagate.specs.GoneThrough.{all_arities, told_after, told_of, told_of_all};
ghost use Rattle.dt_propagate.specs.Marks.{DifferBelow, HasOwnKeys};
ghost use Rattle.dt_propagate.specs.Touched.{TouchAll, takes};
ghost use Rattle.dt_propagate.specs.Walk.{GoesThroughAll, goes_next, goes_on_in, told_change};

use crate::found::Found;
use crate::marks::nears;
use crate::near::{Near, insert_defined, insert_redefined, is_unmarked};
use crate::selector_set::SelectorSet;
use crate::told::{push_told, query_at};
use arrayvec::ArrayVec;
use dt_definitions::{DefinitionKey, Program};
use dt_graph::{ClassNo, ClassSet, NoMemory, Steps};
use dt_selectors::SelNo;
use std::alloc::Global;
use std::sync::ledger::Ledger;

// The classes that go on from the prefix in the program are in the set from now on.
fn insert_next(
    program: &Program,
    selector: SelNo,
    keys: &[DefinitionKey],
    nears: &[Near],
    prefix: &[ClassNo],
    next: &mut ClassSet,
)
    ensures { (n : ℕ) → has_number next.new n
        ≡ (has_number next.old n || goes_on_in program.now selector keys.now nears.now prefix.now n) }
{
    let graph = program.graph();
    insert_defined(graph, nears, program.definitions_of(selector), prefix, next);
    insert_redefined(graph, nears, selector, keys, prefix, next);
}

// The classes that go on from the prefix in one of the two programs. Where no class is marked, they are below the keys.
fn next_classes(
    old: &Program,
    new: &Program,
    selector: SelNo,
    keys: &[DefinitionKey],
    nears: &[Near],
    prefix: &[ClassNo],
) -> ClassSet
    ensures { (n : ℕ) → has_number result n ≡ goes_next old.now new.now selector keys.now nears.now prefix.now n }
{
    let mut next = ClassSet::new();
    if is_unmarked(nears) {
        insert_redefined(old.graph(), nears, selector, keys, prefix, &mut next);
        insert_redefined(new.graph(), nears, selector, keys, prefix, &mut next);
        return next;
    }
    insert_next(old, selector, keys, nears, prefix, &mut next);
    insert_next(new, selector, keys, nears, prefix, &mut next);
    next
}

// What is told of the selector's queries whose classes are the prefix and so many more goes to the end.
fn push_after<L: Ledger>(
    old: &Program,
    new: &Program,
    selector: SelNo,
    keys: &[DefinitionKey],
    nears: &[Near],
    more: usize,
    prefix: &mut ArrayVec<ClassNo, 4>,
    steps: &mut Steps<L>,
    out: &mut Found,
) -> Result<(), NoMemory>
    requires all { GoesThroughAll old.now new.now selector keys.now nears.now }
    requires some { 0 < length prefix.old.items + more }
    requires room { length prefix.old.items + more ≤ 4 }
    ensures told { OnOk result (out.new.changes.items ≡ out.old.changes.items
        ++ told_after (told_change old.now new.now) selector more prefix.old.items) }
    ensures counted { OnOk result (CountsOn steps.old steps.new out.old.counted out.new.counted) }
    ensures grows { steps.old ≤ steps.new }
    ensures prefix { OnOk result (prefix.new.items ≡ prefix.old.items) }
{
    if more == 0 {
        return push_told(old, new, query_at(selector, prefix), steps, out);
    }
    let next = next_classes(old, new, selector, keys, nears, prefix);
    next.law();
    let mut least = 0;
    while let Some(class) = next.first_from(least) {
        prefix.push(class);
        push_after(
            old,
            new,
            selector,
            keys,
            nears,
            more - 1,
            prefix,
            steps,
            out,
        )?;
        prefix.pop();
        least = class.number() as usize + 1;
    }
    Ok(())
}

// Whether the selector takes so many arguments in the program.
fn takes(program: &Program, selector: SelNo, arity: usize) -> bool
    ensures { result ≡ takes program.now selector arity }
{
    match program.arity(selector) {
        Some(takes) => usize::from(takes.number()) == arity,
        None => false,
    }
}

// What is told of the selector's queries with so many classes goes to the end.
fn push_with_arity<L: Ledger>(
    old: &Program,
    new: &Program,
    selector: SelNo,
    keys: &[DefinitionKey],
    moved: &ClassSet,
    arity: usize,
    steps: &mut Steps<L>,
    out: &mut Found,
) -> Result<(), NoMemory>
    requires own { HasOwnKeys old.now new.now selector keys.now moved.now }
    requires some { 0 < arity }
    requires few { arity ≤ 4 }
    ensures told { OnOk result (out.new.changes.items ≡ out.old.changes.items
        ++ told_after (told_change old.now new.now) selector arity []) }
    ensures counted { OnOk result (CountsOn steps.old steps.new out.old.counted out.new.counted) }
    ensures grows { steps.old ≤ steps.new }
{
    out.law();
    if !takes(old, selector, arity) && !takes(new, selector, arity) {
        return Ok(());
    }
    let nears = nears(old, new, selector, moved);
    let mut prefix = ArrayVec::new();
    push_after(
        old,
        new,
        selector,
        keys,
        &nears,
        arity,
        &mut prefix,
        steps,
        out,
    )
}

// What is told of the selector's queries goes to the end. The keys are its own.
fn push_arities<L: Ledger>(
    old: &Program,
    new: &Program,
    selector: SelNo,
    keys: &[DefinitionKey],
    moved: &ClassSet,
    steps: &mut Steps<L>,
    out: &mut Found,
) -> Result<(), NoMemory>
    requires own { HasOwnKeys old.now new.now selector keys.now moved.now }
    ensures told { OnOk result (out.new.changes.items ≡ out.old.changes.items ++ told_of (told_change old.now new.now) all_arities selector) }
    ensures counted { OnOk result (CountsOn steps.old steps.new out.old.counted out.new.counted) }
    ensures grows { steps.old ≤ steps.new }
{
    for arity in 1..5 {
        push_with_arity(old, new, selector, keys, moved, arity, steps, out)?;
    }
    Ok(())
}

// Those of the keys that are of the selector.
fn keys_of(
    alloc: Global,
    keys: &[DefinitionKey],
    selector: SelNo,
) -> Result<Vec<DefinitionKey>, NoMemory>
    ensures { IfOk result (λ own. own.items ≡ filter (λ key. key.selector == selector) keys.now) }
{
    let mut own = Vec::new(alloc);
    for key in keys {
        if key.selector == selector {
            own.push(*key)?;
        }
    }
    Ok(own)
}

// What is told of the selector's queries goes to the end.
fn push_of<L: Ledger>(
    old: &Program,
    new: &Program,
    selector: SelNo,
    keys: &[DefinitionKey],
    moved: &ClassSet,
    steps: &mut Steps<L>,
    out: &mut Found,
) -> Result<(), NoMemory>
    requires near { DifferBelow old.now new.now keys.now moved.now }
    ensures told { OnOk result (out.new.changes.items ≡ out.old.changes.items
        ++ told_of (told_change old.now new.now) all_arities selector) }
    ensures counted { OnOk result (CountsOn steps.old steps.new out.old.counted out.new.counted) }
    ensures grows { steps.old ≤ steps.new }
{
    let own = keys_of(*out.changes.allocator(), keys, selector)?;
    push_arities(old, new, selector, &own, moved, steps, out)
}

// What is told of the queries of all selectors goes to the end. Those that aren't in the set are passed over.
pub(crate) fn push_all<L: Ledger>(
    old: &Program,
    new: &Program,
    keys: &[DefinitionKey],
    moved: &ClassSet,
    touched: &SelectorSet,
    steps: &mut Steps<L>,
    out: &mut Found,
) -> Result<(), NoMemory>
    requires near { DifferBelow old.now new.now keys.now moved.now }
    requires touched { TouchAll old.now new.now touched.now }
    ensures told { OnOk result (out.new.changes.items ≡ out.old.changes.items ++ told_of_all (told_change old.now new.now) all_arities) }
    ensures counted { OnOk result (CountsOn steps.old steps.new out.old.counted out.new.counted) }
    ensures grows { steps.old ≤ steps.new }
{
    out.law();
    touched.law();
    let mut least = 0;
    while let Some(selector) = touched.first_from(least) {
        push_of(old, new, selector, keys, moved, steps, out)?;
        least = selector.number() as usize + 1;
    }
    Ok(())
}
