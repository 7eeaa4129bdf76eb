ghost use Rattle.std.specs.Prelude.{◌≡◌};
ghost use Rattle.dt_scratch.specs.Among.{IsTransitive};
ghost use Rattle.dt_scratch.specs.Resolve.{are_below, is_more_specific_at};

use dt_graph::{ClassGraph, ClassNo, below_is_an_order};

// Whether each class of the first list is below the class in the same position of the second, and the lists are as long.
pub(crate) fn are_below(graph: &ClassGraph, lows: &[ClassNo], highs: &[ClassNo]) -> bool
    ensures { result ≡ are_below graph.now.links lows.now highs.now }
{
    let [low, lows @ ..] = lows else {
        return highs.is_empty();
    };
    let [high, highs @ ..] = highs else {
        return false;
    };
    graph.is_below(*low, *high) && are_below(graph, lows, highs)
}

// Whether the first list is another than the second, and at least as specific in every position.
pub(crate) fn is_more_specific(graph: &ClassGraph, a: &[ClassNo], b: &[ClassNo]) -> bool
    ensures { result ≡ is_more_specific_at graph.now.links a.now b.now }
{
    a != b && are_below(graph, a, b)
}

// More specific is an order, since no links lead from a class to itself. It does nothing: what reasons by this
// calls it.
pub(crate) fn law_of_specificity(graph: &ClassGraph)
    ensures { IsTransitive graph.now.links }
{
    graph.law();
    below_is_an_order();
}
