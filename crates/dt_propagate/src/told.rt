ghost use Rattle.std.specs.Prelude.{◌≡◌, ◌≢◌, ◌+◌, ◌<◌, ◌≤◌, ◌++◌, ◌∷◌, [], length, OnOk};
ghost use Rattle.dt_scratch.specs.Resolve.{cell, cell_of};
ghost use Rattle.dt_propagate.specs.Counted.{CountsOn};
ghost use Rattle.dt_propagate.specs.Walk.{told_change};

use crate::found::Found;
use arrayvec::ArrayVec;
use dt_definitions::Program;
use dt_graph::{ClassNo, NoMemory, Steps};
use dt_scratch::{Answer, Change, Query, Reply, resolve};
use dt_selectors::SelNo;
use std::sync::ledger::Ledger;

// The answer of a reply, and not understood where there is none.
fn cell_of(reply: &Reply) -> Answer
    ensures { result ≡ cell_of reply.now }
{
    match *reply {
        Reply::Answered { answer } => answer,
        _ => Answer::NotUnderstood,
    }
}

// The cell of the query. It counts one step.
fn cell<L: Ledger>(program: &Program, query: &Query, steps: &mut Steps<L>) -> Answer
    ensures cell { result ≡ cell program.now query.now }
    ensures steps { steps.new ≡ steps.old + 1 }
{
    steps.tick();
    cell_of(&resolve(program, query))
}

// The query of the selector at these classes.
pub(crate) fn query_at(selector: SelNo, classes: &[ClassNo]) -> Query
    requires some { 0 < length classes.now }
    requires few { length classes.now ≤ 4 }
    ensures { result ≡ record { selector = selector; classes = classes.now } }
{
    let mut numbers: ArrayVec<u16, 4> = ArrayVec::new();
    for class in classes {
        numbers.push(class.number());
    }
    let Some(query) = Query::new(selector.number(), &numbers) else {
        unreachable!();
    };
    query
}

// The new cell of the query goes to the end, if it is another than the old one. It counts two steps.
fn push_if_differs<L: Ledger>(
    old: &Program,
    new: &Program,
    query: Query,
    steps: &mut Steps<L>,
    out: &mut Vec<Change>,
) -> Result<(), NoMemory>
    ensures same { OnOk result (cell old.now query ≡ cell new.now query → out.new.items ≡ out.old.items) }
    ensures differs { OnOk result (cell old.now query ≢ cell new.now query
        → out.new.items ≡ out.old.items ++ record { query = query; answer = cell new.now query } ∷ []) }
    ensures steps { steps.new ≡ steps.old + 2 }
{
    let before = cell(old, &query, steps);
    let answer = cell(new, &query, steps);
    if before != answer {
        out.push(Change { query, answer })?;
    }
    Ok(())
}

// What is told of the query goes to the end.
#[tactic(auto, using(crate::proofs::Leaf::is_told))]
fn push_change<L: Ledger>(
    old: &Program,
    new: &Program,
    query: Query,
    steps: &mut Steps<L>,
    out: &mut Vec<Change>,
) -> Result<(), NoMemory>
    ensures told { OnOk result (out.new.items ≡ out.old.items ++ told_change old.now new.now query) }
    ensures steps { steps.new ≡ steps.old + 2 }
{
    push_if_differs(old, new, query, steps, out)
}

// What is told of the query goes to the end, and its steps are counted.
pub(crate) fn push_told<L: Ledger>(
    old: &Program,
    new: &Program,
    query: Query,
    steps: &mut Steps<L>,
    out: &mut Found,
) -> Result<(), NoMemory>
    ensures told { OnOk result (out.new.changes.items ≡ out.old.changes.items ++ told_change old.now new.now query) }
    ensures counted { OnOk result (CountsOn steps.old steps.new out.old.counted out.new.counted) }
    ensures grows { steps.old ≤ steps.new }
{
    out.counted = out.counted.saturating_add(2);
    push_change(old, new, query, steps, &mut out.changes)
}
