ghost use Rattle.std.specs.Prelude.{◌≡◌, ◌==◌, ℕ, false, IsTrue, [], MatchOption};
ghost use Rattle.std.specs.List.{Contains, list_any};
ghost use Rattle.std.specs.Option.{option_copied};
ghost use Rattle.dt_definitions.specs.SelectorLists.{with_selector};
ghost use Rattle.dt_definitions.specs.Program.{Program};
ghost use Rattle.dt_scratch.specs.Among.{answer_among, applicable_among, beats, count_unbeaten, HasAllApplicable, is_better, IsAlone, IsTransitive};
ghost use Rattle.dt_scratch.specs.Query.{Query};
ghost use Rattle.dt_scratch.specs.Resolve.{answer, is_more_specific_at};

use crate::reply::Answer;
use crate::specificity::{are_below, is_more_specific, law_of_specificity};
use dt_definitions::Defined;
use dt_graph::{ClassGraph, ClassNo};

// One of the definitions that are applicable to the classes, and no other such is more specific; `None` where
// none is applicable. And whether it was found to be more specific than all others.
fn most_specific<'a>(
    graph: &ClassGraph,
    definitions: &'a [Defined],
    classes: &[ClassNo],
) -> (Option<&'a Defined>, bool)
    requires { IsTransitive graph.now.links }
    ensures best { let found = applicable_among graph.now.links classes.now definitions.now in
        MatchOption (option_copied result.0) (found ≡ []) (λ best.
        Contains found best
        × (list_any (λ other. is_more_specific_at graph.now.links other.classes best.classes) found ≡ false)) }
    ensures alone { IsTrue result.1 → IsAlone graph.now.links classes.now definitions.now (option_copied result.0) }
{
    let mut best: Option<&Defined> = None;
    let mut is_lowest = true;
    for defined in definitions {
        if are_below(graph, classes, defined.classes.classes()) {
            if is_better(graph, defined, best) {
                best = Some(defined);
            } else {
                is_lowest = is_lowest && beats(graph, best, defined);
            }
        }
    }
    (best, is_lowest)
}

// Whether the definition is more specific than the best so far, if there is one.
fn is_better(graph: &ClassGraph, defined: &Defined, best: Option<&Defined>) -> bool
    ensures { result ≡ is_better graph.now.links defined.now (option_copied best.entry) }
{
    match best {
        Some(best) => is_more_specific(graph, defined.classes.classes(), best.classes.classes()),
        None => true,
    }
}

// Whether the best so far, if there is one, is more specific than the definition.
fn beats(graph: &ClassGraph, best: Option<&Defined>, defined: &Defined) -> bool
    ensures { result ≡ beats graph.now.links (option_copied best.entry) defined.now }
{
    match best {
        Some(best) => is_more_specific(graph, best.classes.classes(), defined.classes.classes()),
        None => false,
    }
}

// Whether the best is more specific than all other definitions that are applicable to the classes.
fn is_alone(
    graph: &ClassGraph,
    definitions: &[Defined],
    classes: &[ClassNo],
    best: &Defined,
) -> bool
    ensures { result ≡ (count_unbeaten graph.now.links classes.now best.now definitions.now == 1) }
{
    let unbeaten = definitions.iter().filter(|d| {
        are_below(graph, classes, d.classes.classes())
            && !is_more_specific(graph, best.classes.classes(), d.classes.classes())
    });
    unbeaten.count() == 1
}

/// The answer to a query at these classes among some definitions of its selector: all of them, or any part of them, in
/// their order, that has all that are applicable. Whether the classes are live isn't asked.
///
/// It takes no memory. The time grows with the number of the definitions that are given: each is tested against the
/// classes once, by at most four tests of below, and a second time only where an applicable one was met that the best
/// before it isn't more specific than, as always before the answer is ambiguous. It doesn't grow with the classes or
/// links of the graph.
pub fn answer_among(graph: &ClassGraph, definitions: &[Defined], classes: &[ClassNo]) -> Answer
    ensures among { (selector : ℕ) →
        result ≡ answer_among graph.now.links classes.now (with_selector selector definitions.now) }
    ensures answer { (program : Program) (query : Query) → program.graph ≡ graph.now → query.classes ≡ classes.now →
        HasAllApplicable program query definitions.now → result ≡ answer program query }
{
    law_of_specificity(graph);
    let (best, is_lowest) = most_specific(graph, definitions, classes);
    match best {
        None => Answer::NotUnderstood,
        Some(best) => {
            if is_lowest || is_alone(graph, definitions, classes, best) {
                Answer::Method { body: best.body }
            } else {
                Answer::Ambiguous
            }
        }
    }
}
