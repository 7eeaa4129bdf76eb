ghost use Rattle.std.specs.Prelude.{◌≡◌, option_copied};
ghost use Rattle.slab.specs.Slab.{get};
ghost use Rattle.dt_mrd.specs.Kept.{row_at, next_in, key_of_next, key_along, tag_in};

use slab::Slab;
use std::collections::BTreeMap;

/// To what a cell of a row leads.
#[derive(Clone, Copy, Debug, PartialEq, Eq)]
pub(crate) enum Next {
    // The query ends here: the code of its answer.
    Answer { code: u32 },
    // The key of the row that comes next.
    Row { key: usize },
}

/// A row as it is kept under a key: its tag, which is its displacement + 1, and for each class that has a cell to what the
/// cell leads.
#[derive(Debug, Drop)]
pub(crate) struct KeptRow {
    pub(crate) tag: u32,
    pub(crate) cells: BTreeMap<u16, Next>,
}

// The row of this key, if there is one.
pub(crate) fn row_at(rows: &Slab<KeptRow>, key: Option<usize>) -> Option<&KeptRow>
    ensures { option_copied result ≡ row_at (get rows.now) key }
{
    match key {
        Some(key) => rows.get(key),
        None => None,
    }
}

// The tag of a row; 0 where there is none.
pub(crate) fn tag_in(row: Option<&KeptRow>) -> u32
    ensures { result ≡ tag_in (option_copied row.entry) }
{
    match row {
        Some(row) => row.tag,
        None => 0,
    }
}

// To what the cell of the class leads, if the row has one.
pub(crate) fn next_in(row: Option<&KeptRow>, class: u16) -> Option<Next>
    ensures { result ≡ next_in (option_copied row.entry) class }
{
    match row {
        Some(row) => row.cells.get(&class).copied(),
        None => None,
    }
}

// The key of the row to which a cell leads.
fn key_of_next(next: Option<Next>) -> Option<usize>
    ensures { result ≡ key_of_next next }
{
    match next {
        Some(Next::Row { key }) => Some(key),
        _ => None,
    }
}

// The key of the row to which the classes lead from a row.
pub(crate) fn key_along(
    rows: &Slab<KeptRow>,
    first: Option<usize>,
    classes: &[u16],
) -> Option<usize>
    ensures { result ≡ key_along (get rows.now) first classes.now }
{
    let mut key = first;
    for class in classes {
        key = key_of_next(next_in(row_at(rows, key), *class));
    }
    key
}
