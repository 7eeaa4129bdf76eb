ghost use Rattle.std.specs.Prelude.{◌≤◌};
ghost use Rattle.dt_graph.specs.declared.limits.TheConstants.{CLASSES};

use crate::metric::Metric;
use crate::program_rounds::{ROUNDS, operations, time_pairs};
use crate::queries::random_pairs;
use crate::shape::Shape;
use crate::stopwatch::{Stopwatch, put_cost};
use crate::table::Table;
use dt_graph::{CLASSES, ClassGraph, ClassNo};
use dt_trials::{Chance, Fault};
use std::rt::Clock;

// How often a round makes each change.
const CHANGES: u32 = 16;

// How often a round asks for the classes below one.
const DESCENDANTS: u32 = 4;

/// A shape, and how many classes a graph of it has.
#[derive(Clone, Copy)]
pub struct GraphPlan {
    /// The shape.
    pub shape: Shape,
    /// The classes, from 2 to 2,048.
    pub classes: u16,
    /// There are two classes.
    pub ghost two_classes: { 2 ≤ classes },
    /// There are no more than there may be.
    pub ghost in_range: { classes ≤ CLASSES },
}

impl GraphPlan {
    /// This plan; `None` exactly where the number of classes isn't in range.
    pub fn new(shape: Shape, classes: u16) -> Option<GraphPlan> {
        if !(2..=CLASSES).contains(&classes) {
            return None;
        }
        Some(GraphPlan { shape, classes })
    }
}

// A change of a graph.
#[derive(Clone, Copy)]
enum LinkChange {
    Link { class: ClassNo, parent: ClassNo },
    Unlink { class: ClassNo, parent: ClassNo },
    Add { class: ClassNo },
    Drop { class: ClassNo },
}

impl LinkChange {
    // Makes the change, and tells whether it was accepted.
    fn make(self, graph: &mut ClassGraph, shape: Shape) -> bool {
        match self {
            LinkChange::Link { class, parent } => graph.link(class, parent).is_ok(),
            LinkChange::Unlink { class, parent } => graph.unlink(class, parent).is_ok(),
            LinkChange::Add { class } => shape.add(graph, class).is_ok(),
            LinkChange::Drop { class } => graph.drop_class(class).is_ok(),
        }
    }
}

// Makes a change, and puts how many nanoseconds it took into the sum.
fn time_change(
    rt: &impl Clock,
    table: &mut Table,
    graph: &mut ClassGraph,
    shape: Shape,
    change: LinkChange,
    sum: &mut u64,
) {
    let watch = Stopwatch::start(rt);
    let accepted = change.make(graph, shape);
    let time = watch.nanoseconds(rt);
    table.mix.add(u32::from(accepted));
    match time {
        Ok(time) => *sum = sum.saturating_add(time),
        Err(fault) => table.fail(fault),
    }
}

// A change, and what is measured by it.
#[derive(Clone, Copy)]
struct Timed {
    change: LinkChange,
    metric: Metric,
}

// A change and the one that undoes it.
#[derive(Clone, Copy)]
struct Pair {
    there: Timed,
    back: Timed,
}

// Times a change and the one that undoes it, in turn.
fn time_changes(
    rt: &impl Clock,
    table: &mut Table,
    graph: &mut ClassGraph,
    shape: Shape,
    pair: Pair,
) {
    let Pair { there, back } = pair;
    let mut going: u64 = 0;
    let mut coming: u64 = 0;
    for _ in 0..CHANGES {
        time_change(rt, table, graph, shape, there.change, &mut going);
        time_change(rt, table, graph, shape, back.change, &mut coming);
    }
    put_cost(table, there.metric, going, CHANGES);
    put_cost(table, back.metric, coming, CHANGES);
}

// The class in the middle of a chain, which goes and comes.
fn middle_class(class: ClassNo) -> Pair {
    Pair {
        there: Timed {
            change: LinkChange::Drop { class },
            metric: Metric::DropMiddle,
        },
        back: Timed {
            change: LinkChange::Add { class },
            metric: Metric::AddMiddle,
        },
    }
}

// Times the class in the middle of a chain: the link to it goes, untimed; then it goes and comes.
fn time_middle(rt: &impl Clock, table: &mut Table, graph: &mut ClassGraph, plan: GraphPlan) {
    if plan.shape != Shape::Chain {
        return;
    }
    if let Some((class, parent)) = plan.shape.middle_link(plan.classes) {
        LinkChange::Unlink { class, parent }.make(graph, plan.shape);
        time_changes(rt, table, graph, plan.shape, middle_class(parent));
        LinkChange::Link { class, parent }.make(graph, plan.shape);
    }
}

// Finds the classes below this one some times, and answers how many there are.
fn find_below(graph: &ClassGraph, class: ClassNo, below: &mut Vec<ClassNo>) -> Result<u32, Fault> {
    for _ in 0..DESCENDANTS {
        below.clear();
        graph.descendants_into(class, below)?;
    }
    Ok(operations(below))
}

// Times the classes below the one in the middle.
fn time_descendants(
    rt: &impl Clock,
    table: &mut Table,
    graph: &ClassGraph,
    class: ClassNo,
    below: &mut Vec<ClassNo>,
) {
    let watch = Stopwatch::start(rt);
    let found = find_below(graph, class, below);
    watch.stop(rt, table, Metric::Descendants, DESCENDANTS);
    table.add(found);
}

// The link in the middle that goes and comes, if there is one; in a star it comes and goes.
fn middle_pair(plan: GraphPlan) -> Option<Pair> {
    let (class, parent) = plan.shape.middle_link(plan.classes)?;
    let link = Timed {
        change: LinkChange::Link { class, parent },
        metric: Metric::Link,
    };
    let unlink = Timed {
        change: LinkChange::Unlink { class, parent },
        metric: Metric::Unlink,
    };
    if plan.shape == Shape::Star {
        return Some(Pair {
            there: link,
            back: unlink,
        });
    }
    Some(Pair {
        there: unlink,
        back: link,
    })
}

// The last class, which goes and comes.
fn last_pair(plan: GraphPlan) -> Pair {
    let class = ClassNo::new(plan.classes - 1).unwrap();
    Pair {
        there: Timed {
            change: LinkChange::Drop { class },
            metric: Metric::Drop,
        },
        back: Timed {
            change: LinkChange::Add { class },
            metric: Metric::Add,
        },
    }
}

// Times a round.
fn time_round(
    rt: &impl Clock,
    table: &mut Table,
    graph: &mut ClassGraph,
    plan: GraphPlan,
    pairs: &Vec<(ClassNo, ClassNo)>,
    below: &mut Vec<ClassNo>,
) {
    let middle = ClassNo::new(plan.classes / 2).unwrap();
    time_pairs(rt, table, graph, pairs);
    if let Some(pair) = middle_pair(plan) {
        time_changes(rt, table, graph, plan.shape, pair);
    }
    time_changes(rt, table, graph, plan.shape, last_pair(plan));
    time_middle(rt, table, graph, plan);
    time_descendants(rt, table, graph, middle, below);
    table.end_round();
}

// Times the rounds of a graph.
fn time_rounds<R: Clock + AllocGlobal>(
    rt: &R,
    table: &mut Table,
    graph: &mut ClassGraph,
    plan: GraphPlan,
    pairs: &Vec<(ClassNo, ClassNo)>,
) -> Result<(), Fault> {
    let mut below = Vec::with_capacity(rt.alloc(), usize::from(plan.classes))?;
    for _ in 0..ROUNDS {
        time_round(rt, table, graph, plan, pairs, &mut below);
    }
    Ok(())
}

// Draws pairs of classes, and times a graph.
fn time_with_pairs<R: Clock + AllocGlobal>(
    rt: &R,
    table: &mut Table,
    graph: &mut ClassGraph,
    plan: GraphPlan,
) -> Result<(), Fault> {
    let pairs = random_pairs(rt.alloc(), &mut Chance::new(1), plan.classes)?;
    time_rounds(rt, table, graph, plan, &pairs)
}

/// Times a graph of this shape with so many classes.
pub fn time_graph<R: Clock + AllocGlobal>(
    rt: &R,
    table: &mut Table,
    plan: GraphPlan,
) -> Result<(), Fault> {
    let mut graph = plan.shape.graph(rt.alloc(), plan.classes)?;
    time_with_pairs(rt, table, &mut graph, plan)
}
