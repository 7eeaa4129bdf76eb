ghost use Rattle.std.specs.Prelude.{◌≡◌};
ghost use Rattle.dt_definitions.specs.Program.{same_classes, are_classes_before};

use dt_graph::ClassNo;

// Whether the first classes stand before the second: by the first place that differs.
pub(crate) fn is_before(first: &[ClassNo], second: &[ClassNo]) -> bool
    ensures { result ≡ are_classes_before first.now second.now }
{
    match (first, second) {
        ([], []) => false,
        ([], [_y, ..]) => true,
        ([_x, ..], []) => false,
        ([x, first @ ..], [y, second @ ..]) => *x < *y || (*x == *y && is_before(first, second)),
    }
}

// Whether the two are the same.
pub(crate) fn is_same(first: &[ClassNo], second: &[ClassNo]) -> bool
    ensures { result ≡ same_classes first.now second.now }
{
    first == second
}
