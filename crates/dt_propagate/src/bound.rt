ghost use Rattle.std.specs.Prelude.{◌≡◌, ◌+◌, min};
ghost use Rattle.std.specs.List.{sum_by};
ghost use Rattle.dt_definitions.specs.Causes.{has_definition};
ghost use Rattle.dt_definitions.specs.Program.{definitions_of};
ghost use Rattle.dt_propagate.specs.Boxes.{size};
ghost use Rattle.dt_propagate.specs.Bounds.{cones, is_made, laters, made_cells, made_rows, one_if_none, AreBoundsOf};
ghost use Rattle.dt_propagate.specs.Counted.{greatest};
ghost use Rattle.dt_propagate.specs.Limits.{AreSizesOf};
ghost use Rattle.dt_propagate.specs.Marks.{DifferNear};

use crate::cones::{laters_below, size_below};
use crate::gained::with_gained;
use crate::marks::gained;
use crate::site::Site;
use crate::sizes::Sizes;
use dt_definitions::{DefinitionKey, Program};
use dt_graph::{ClassGraph, ClassNo};
use dt_selectors::SelNo;

// The sizes, and what is below a definition at these classes; and so many rows more.
fn with_definition(graph: &ClassGraph, highs: &[ClassNo], rows: u64, sizes: Sizes) -> Sizes
    ensures cells { result.cells ≡ min (sizes.cells + size (cones graph.now highs.now)) greatest }
    ensures rows { result.rows ≡ min (sizes.rows + (rows + laters (cones graph.now highs.now))) greatest }
{
    Sizes {
        cells: sizes.cells.saturating_add(size_below(graph, highs)),
        rows: sizes
            .rows
            .saturating_add(rows)
            .saturating_add(laters_below(graph, highs)),
    }
}

// 1 where there is none, and else 0.
fn one_if_none(program: &Program, selector: SelNo) -> u64
    ensures { result ≡ one_if_none (definitions_of program.now selector) }
{
    match program.definitions_of(selector) {
        [] => 1,
        [_first, ..] => 0,
    }
}

// Whether the program has a definition there.
fn has(program: &Program, key: &DefinitionKey) -> bool
    ensures { result ≡ has_definition program.now key.now.selector key.now.classes }
{
    program.body(key.selector, key.classes.classes()).is_some()
}

// Whether the new program alone has one.
fn is_made(old: &Program, new: &Program, key: &DefinitionKey) -> bool
    ensures { result ≡ is_made old.now new.now key.now }
{
    has(new, key) && !has(old, key)
}

// The sizes, and what is below the definition there, if the new program alone has it.
fn with_key(old: &Program, new: &Program, key: &DefinitionKey, sizes: Sizes) -> Sizes
    ensures cells { result.cells ≡ min (sizes.cells + made_cells old.now new.now key.now) greatest }
    ensures rows { result.rows ≡ min (sizes.rows + made_rows old.now new.now key.now) greatest }
{
    if !is_made(old, new, key) {
        return sizes;
    }
    let row = one_if_none(old, key.selector);
    with_definition(new.graph(), key.classes.classes(), row, sizes)
}

// The sizes, and what is below each definition at these keys that the new program alone has.
pub(crate) fn with_keys(old: &Program, new: &Program, keys: &[DefinitionKey], sizes: Sizes) -> Sizes
    ensures cells { result.cells ≡ min (sizes.cells + sum_by (made_cells old.now new.now) keys.now) greatest }
    ensures rows { result.rows ≡ min (sizes.rows + sum_by (made_rows old.now new.now) keys.now) greatest }
{
    let mut total = sizes;
    for key in keys {
        total = with_key(old, new, key, total);
    }
    total
}

// At most how many cells and rows the new program has, where the sizes are those of the old one. What is understood was so
// before, or is below a definition that is made, or one that a class is below that wasn't before.
pub(crate) fn bound(old: &Program, new: &Program, site: &Site, sizes: Sizes) -> Sizes
    ensures { DifferNear old.now new.now site.now.keys.items site.now.edited → AreSizesOf old.now sizes
        → AreBoundsOf new.now result }
{
    let sizes = with_keys(old, new, &site.keys, sizes);
    let gained = gained(old.graph(), new.graph(), &site.edited);
    with_gained(old, new, &gained, sizes)
}
