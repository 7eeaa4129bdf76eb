ghost use Rattle.std.specs.Prelude.{◌≡◌, ℕ, None, Some, IfOk, OnOk, option_copied};
ghost use Rattle.std.specs.Ordering.{nat_cmp};
ghost use Rattle.std.specs.BTreeMap as tree;
ghost use Rattle.dt_mrd.specs.Placing.{code_of_answer};
ghost use Rattle.dt_mrd.specs.Kept.{next_in};
ghost use Rattle.dt_mrd.specs.Changing.{class_at, put_at, is_answer, is_row, change_put, changes_put, lead_put, turn_put, turns_put};

use crate::indexes::indexes_of;
use crate::kept_row::{KeptRow, Next, next_in};
use crate::turn::Turn;
use dt_graph::NoMemory;
use dt_scratch::{Answer, Change};
use std::alloc::Global;
use std::collections::BTreeMap;

// The class by which a query goes on after so many classes.
fn class_at(classes: &[u16], depth: usize) -> u16
    ensures { result ≡ class_at classes.now depth }
{
    match classes.get(depth) {
        Some(class) => *class,
        None => 0,
    }
}

// The code of an answer.
fn code_of(answer: Answer) -> u32
    ensures { result ≡ code_of_answer answer }
{
    match answer {
        Answer::NotUnderstood => 0,
        Answer::Ambiguous => 1,
        Answer::Method { body } => u32::from(body.number()) + 2,
    }
}

// The cell of the class leads there from now on.
#[tactic(auto, using(crate::proofs::CellMaps::put_gives))]
fn put_cell(cells: &mut BTreeMap<u16, Next>, class: u16, next: Next) -> Result<(), NoMemory>
    ensures { OnOk result ((other : ℕ) → tree.get nat_cmp cells.new other ≡ put_at (tree.get nat_cmp cells.old) class (Some next) other) }
{
    cells.insert(class, next)?;
    Ok(())
}

// There is no cell of the class from now on.
#[tactic(auto, using(crate::proofs::CellMaps::put_gives))]
fn drop_cell(cells: &mut BTreeMap<u16, Next>, class: u16)
    ensures { (other : ℕ) → tree.get nat_cmp cells.new other ≡ put_at (tree.get nat_cmp cells.old) class None other }
{
    cells.remove(&class);
}

// Whether the cell of the class leads to an answer.
fn is_answer(cells: &BTreeMap<u16, Next>, class: u16) -> bool
    ensures { result ≡ is_answer (tree.get nat_cmp cells.now class) }
{
    match cells.get(&class) {
        Some(Next::Answer { .. }) => true,
        _ => false,
    }
}

// Whether the cell of the class leads to a row.
fn is_row(cells: &BTreeMap<u16, Next>, class: u16) -> bool
    ensures { result ≡ is_row (tree.get nat_cmp cells.now class) }
{
    match cells.get(&class) {
        Some(Next::Row { .. }) => true,
        _ => false,
    }
}

// The cell of a change's last class has its answer, or is gone.
fn change_cell(
    cells: &mut BTreeMap<u16, Next>,
    depth: usize,
    change: &Change,
) -> Result<(), NoMemory>
    ensures { OnOk result ((other : ℕ) → tree.get nat_cmp cells.new other ≡ change_put (tree.get nat_cmp cells.old) depth change.now other) }
{
    let class = class_at(change.query.classes(), depth);
    let answer = change.answer;
    if answer != Answer::NotUnderstood {
        let code = code_of(answer);
        return put_cell(cells, class, Next::Answer { code });
    }
    if is_answer(cells, class) {
        drop_cell(cells, class);
    }
    Ok(())
}

// The cell of the class leads to the row of this key, or is gone where it led to a row and there is no key.
fn lead_to(cells: &mut BTreeMap<u16, Next>, class: u16, key: Option<usize>) -> Result<(), NoMemory>
    ensures { OnOk result ((other : ℕ) → tree.get nat_cmp cells.new other ≡ lead_put (tree.get nat_cmp cells.old) class key other) }
{
    if let Some(key) = key {
        return put_cell(cells, class, Next::Row { key });
    }
    if is_row(cells, class) {
        drop_cell(cells, class);
    }
    Ok(())
}

// The cell that leads to a row that had its turn leads to its new key, or is gone with the row.
fn lead_cell(cells: &mut BTreeMap<u16, Next>, depth: usize, turn: &Turn) -> Result<(), NoMemory>
    ensures { OnOk result ((other : ℕ) → tree.get nat_cmp cells.new other ≡ turn_put (tree.get nat_cmp cells.old) depth turn.now other) }
{
    let class = class_at(turn.query.classes(), depth);
    lead_to(cells, class, turn.new)
}

// The cells of a row again; none where there is no row.
fn copied(alloc: Global, row: Option<&KeptRow>) -> Result<BTreeMap<u16, Next>, NoMemory>
    ensures { IfOk result (λ cells. (class : ℕ) → tree.get nat_cmp cells class ≡ next_in (option_copied row.entry) class) }
{
    let indexes = indexes_of(alloc, row)?;
    let mut copy = BTreeMap::new(alloc);
    for class in &indexes {
        if let Some(next) = next_in(row, *class) {
            put_cell(&mut copy, *class, next)?;
        }
    }
    Ok(copy)
}

// The changes are put into the cells.
fn change_cells(
    cells: &mut BTreeMap<u16, Next>,
    depth: usize,
    changes: &[Change],
) -> Result<(), NoMemory>
    ensures { OnOk result ((class : ℕ) → tree.get nat_cmp cells.new class ≡ changes_put (tree.get nat_cmp cells.old) depth changes.now class) }
{
    for change in changes {
        change_cell(cells, depth, change)?;
    }
    Ok(())
}

// The rows that had their turns are put into the cells.
fn lead_cells(cells: &mut BTreeMap<u16, Next>, depth: usize, led: &[Turn]) -> Result<(), NoMemory>
    ensures { OnOk result ((class : ℕ) → tree.get nat_cmp cells.new class ≡ turns_put (tree.get nat_cmp cells.old) depth led.now class) }
{
    for turn in led {
        lead_cell(cells, depth, turn)?;
    }
    Ok(())
}

// The cells of a row after the changes of its queries that end with the next class, and after the rows to which it leads
// had their turns.
pub(crate) fn changed_cells(
    alloc: Global,
    old: Option<&KeptRow>,
    depth: usize,
    changes: &[Change],
    led: &[Turn],
) -> Result<BTreeMap<u16, Next>, NoMemory>
    ensures { IfOk result (λ cells. (class : ℕ) → tree.get nat_cmp cells class
        ≡ turns_put (changes_put (next_in (option_copied old.entry)) depth changes.now) depth led.now class) }
{
    let mut cells = copied(alloc, old)?;
    change_cells(&mut cells, depth, changes)?;
    lead_cells(&mut cells, depth, led)?;
    Ok(cells)
}
