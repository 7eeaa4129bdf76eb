ghost use Rattle.dt_gate.specs.AllBounds.{LawsOfRuns};

use crate::meaning::Meaning;
use dt_pages::{page_zero_is_empty, reached_pages_decide};

/// The laws of runs at all bounds, with their premises inside. A crate that runs the machine learns the premises only as it
/// steps.
pub fn laws_of_runs<M: Meaning>()
    ensures { LawsOfRuns M M.shows }
{
    reached_pages_decide();
    page_zero_is_empty();
}
