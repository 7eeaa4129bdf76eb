ghost use Rattle.std.specs.Prelude.{◌≡◌, None, Some, if◌then◌else◌, MatchResult};
ghost use Rattle.dt_graph.specs.Graph.{is_live};
ghost use Rattle.dt_scratch.specs.Resolve.{first_dead};

use crate::query::Query;
use arrayvec::ArrayVec;
use dt_graph::{ClassGraph, ClassNo};

// The class of this number, if it is live.
#[tactic(auto, using(crate::proofs::LiveNumbers::not_live))]
fn live_class(graph: &ClassGraph, number: u16) -> Option<ClassNo>
    ensures { result ≡ (if is_live graph.now number then Some number else None) }
{
    graph.law();
    ClassNo::new(number).filter(|class| graph.is_live(*class))
}

// The classes of the query, or the first position, from 1, whose class isn't live.
pub(crate) fn live_classes(graph: &ClassGraph, query: &Query) -> Result<ArrayVec<ClassNo, 4>, u8>
    ensures { MatchResult result
        (λ live. (live.items ≡ query.now.classes) × (first_dead graph.now 1 query.now.classes ≡ None))
        (λ position. first_dead graph.now 1 query.now.classes ≡ Some position) }
{
    let mut live = ArrayVec::new();
    for (index, number) in query.classes().iter().enumerate() {
        let Some(class) = live_class(graph, *number) else {
            return Err(index as u8 + 1);
        };
        live.push(class);
    }
    Ok(live)
}
