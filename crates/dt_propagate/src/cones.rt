ghost use Rattle.std.specs.Prelude.{◌≡◌, min};
ghost use Rattle.dt_propagate.specs.Boxes.{size};
ghost use Rattle.dt_propagate.specs.Bounds.{cones, firsts, laters};
ghost use Rattle.dt_propagate.specs.Counted.{greatest};

use dt_graph::{ClassGraph, ClassNo};

// The greatest number of 64 bits stands for all that are more.

// How many lists of classes are below these, each class below the one in the same position.
pub(crate) fn size_below(graph: &ClassGraph, highs: &[ClassNo]) -> u64
    ensures { result ≡ min (size (cones graph.now highs.now)) greatest }
{
    let [high, highs @ ..] = highs else {
        return 1;
    };
    let rest = size_below(graph, highs);
    (graph.below_count(*high) as u64).saturating_mul(rest)
}

// How many lists of classes begin such a list, with none or more classes, but not all.
pub(crate) fn firsts_below(graph: &ClassGraph, highs: &[ClassNo]) -> u64
    ensures { result ≡ min (firsts (cones graph.now highs.now)) greatest }
{
    let [high, highs @ ..] = highs else {
        return 0;
    };
    let rest = firsts_below(graph, highs);
    (graph.below_count(*high) as u64)
        .saturating_mul(rest)
        .saturating_add(1)
}

// How many of them have a class.
pub(crate) fn laters_below(graph: &ClassGraph, highs: &[ClassNo]) -> u64
    ensures { result ≡ min (laters (cones graph.now highs.now)) greatest }
{
    let [high, highs @ ..] = highs else {
        return 0;
    };
    let rest = firsts_below(graph, highs);
    (graph.below_count(*high) as u64).saturating_mul(rest)
}
