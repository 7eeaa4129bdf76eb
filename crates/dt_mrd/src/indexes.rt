ghost use Rattle.std.specs.Prelude.{◌≡◌, ℕ, IfOk, is_some, option_copied};
ghost use Rattle.std.specs.Ordering.{nat_cmp};
ghost use Rattle.std.specs.BTreeMap as tree;
ghost use Rattle.dt_mrd.specs.Kept.{next_in};
ghost use Rattle.dt_mrd.specs.Laying.{is_among};

use crate::kept_row::{KeptRow, Next};
use dt_graph::NoMemory;
use std::alloc::Global;
use std::collections::BTreeMap;

// The classes that have a cell.
fn classes_of(alloc: Global, cells: &BTreeMap<u16, Next>) -> Result<Vec<u16>, NoMemory>
    ensures { IfOk result (λ indexes. (class : ℕ) → is_among indexes.items class ≡ is_some (tree.get nat_cmp cells.now class)) }
{
    let mut indexes = Vec::new(alloc);
    for (class, _next) in cells {
        indexes.push(*class)?;
    }
    Ok(indexes)
}

// The classes that have a cell in a row; none where there is no row.
pub(crate) fn indexes_of(alloc: Global, row: Option<&KeptRow>) -> Result<Vec<u16>, NoMemory>
    ensures { IfOk result (λ indexes. (class : ℕ) → is_among indexes.items class ≡ is_some (next_in (option_copied row.entry) class)) }
{
    match row {
        Some(row) => classes_of(alloc, &row.cells),
        None => Ok(Vec::new(alloc)),
    }
}
