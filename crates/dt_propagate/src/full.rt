ghost use Rattle.std.specs.Prelude.{◌≡◌, ◌≤◌, IfSome, None};
ghost use Rattle.dt_scratch.specs.Query.{query_order};
ghost use Rattle.dt_propagate.specs.Begun.{HasPart};
ghost use Rattle.dt_propagate.specs.Differences.{MoreThan};

use crate::count::count_part;
use crate::part::Part;
use dt_definitions::Program;

// At most how many the program has of the part: the bound, or where that passes `most` the exact number. `None` where
// there are more than `most`.
pub(crate) fn kept(program: &Program, part: Part, bound: u64, most: u32) -> Option<u64>
    ensures few { IfSome result (λ count. count ≤ most) }
    ensures size { IfSome result (λ count. (bound ≤ most → MoreThan query_order (HasPart program.now part) bound → ⊥)
        → MoreThan query_order (HasPart program.now part) count → ⊥) }
    ensures full { result ≡ None → MoreThan query_order (HasPart program.now part) most }
{
    program.law();
    if bound <= u64::from(most) {
        return Some(bound);
    }
    match count_part(program, part, most) {
        Some(count) => Some(u64::from(count)),
        None => None,
    }
}
