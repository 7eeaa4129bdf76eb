ghost use Rattle.std.specs.Prelude.{◌≡◌, ◌+◌, ◌*◌, length, min};
ghost use Rattle.std.specs.List.{sum_by};
ghost use Rattle.dt_propagate.specs.Bounds.{cells_gained, firsts_gained, newly_below, rows_gained, size_gained};
ghost use Rattle.dt_propagate.specs.Counted.{greatest};

use crate::cones::{firsts_below, size_below};
use crate::sizes::Sizes;
use dt_definitions::{DefinitionKey, Program};
use dt_graph::{ClassGraph, ClassNo, ClassSet};

// The greatest number of 64 bits stands for all that are more.

// How many live classes are below the class in the new graph alone.
fn newly_below(old: &ClassGraph, new: &ClassGraph, class: ClassNo) -> u64
    ensures { result ≡ length (newly_below old.now new.now class) }
{
    new.law();
    if !new.is_live(class) {
        return 0;
    }
    let newly = new.below(class).without(old.below(class));
    newly.law();
    newly.len() as u64
}

// One number times another, and a third times a fourth.
fn both(first: u64, size: u64, second: u64, other: u64) -> u64
    ensures { result ≡ min (first * size + second * other) greatest }
{
    first
        .saturating_mul(size)
        .saturating_add(second.saturating_mul(other))
}

// How many lists of classes are below these in the new graph, with a class that is so in the new graph alone; a list with
// several counts as often.
fn size_gained(old: &ClassGraph, new: &ClassGraph, highs: &[ClassNo]) -> u64
    ensures { result ≡ min (size_gained old.now new.now highs.now) greatest }
{
    let [high, highs @ ..] = highs else {
        return 0;
    };
    let rest = size_gained(old, new, highs);
    let size = size_below(new, highs);
    both(
        newly_below(old, new, *high),
        size,
        new.below_count(*high) as u64,
        rest,
    )
}

// How many begin such a list, with one such class at least, but not all classes.
fn firsts_gained(old: &ClassGraph, new: &ClassGraph, highs: &[ClassNo]) -> u64
    ensures { result ≡ min (firsts_gained old.now new.now highs.now) greatest }
{
    let [high, highs @ ..] = highs else {
        return 0;
    };
    let rest = firsts_gained(old, new, highs);
    let firsts = firsts_below(new, highs);
    both(
        newly_below(old, new, *high),
        firsts,
        new.below_count(*high) as u64,
        rest,
    )
}

// The sizes, and what more is below a definition at these classes.
fn with_one(old: &ClassGraph, new: &ClassGraph, highs: &[ClassNo], sizes: Sizes) -> Sizes
    ensures cells { result.cells ≡ min (sizes.cells + size_gained old.now new.now highs.now) greatest }
    ensures rows { result.rows ≡ min (sizes.rows + firsts_gained old.now new.now highs.now) greatest }
{
    Sizes {
        cells: sizes.cells.saturating_add(size_gained(old, new, highs)),
        rows: sizes.rows.saturating_add(firsts_gained(old, new, highs)),
    }
}

// The sizes, and what more is below the definitions at these keys.
fn with_each(old: &ClassGraph, new: &ClassGraph, keys: &[DefinitionKey], sizes: Sizes) -> Sizes
    ensures cells { result.cells ≡ min (sizes.cells + sum_by (λ key. size_gained old.now new.now key.classes) keys.now) greatest }
    ensures rows { result.rows ≡ min (sizes.rows + sum_by (λ key. firsts_gained old.now new.now key.classes) keys.now) greatest }
{
    let mut total = sizes;
    for key in keys {
        total = with_one(old, new, key.classes.classes(), total);
    }
    total
}

// The sizes, and what more is below the definitions of the new program that name the class.
fn with_naming(old: &Program, new: &Program, class: ClassNo, sizes: Sizes) -> Sizes
    ensures cells { result.cells ≡ min (sizes.cells + cells_gained old.now new.now class) greatest }
    ensures rows { result.rows ≡ min (sizes.rows + rows_gained old.now new.now class) greatest }
{
    with_each(old.graph(), new.graph(), new.naming(class), sizes)
}

// The sizes, and what more is below the definitions of the new program that name one of the classes.
pub(crate) fn with_gained(old: &Program, new: &Program, classes: &ClassSet, sizes: Sizes) -> Sizes
    ensures cells { result.cells ≡ min (sizes.cells + sum_by (cells_gained old.now new.now) classes.now) greatest }
    ensures rows { result.rows ≡ min (sizes.rows + sum_by (rows_gained old.now new.now) classes.now) greatest }
{
    classes.law();
    let mut total = sizes;
    let mut least = 0;
    while let Some(class) = classes.first_from(least) {
        total = with_naming(old, new, class, total);
        least = class.number() as usize + 1;
    }
    total
}
