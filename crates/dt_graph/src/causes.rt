ghost use Rattle.std.specs.Prelude.{◌≡◌, not, find, [], ◌∷◌};
ghost use Rattle.dt_graph.specs.Graph.{is_live};
ghost use Rattle.dt_graph.specs.GraphChange.{add_cause, drop_cause, link_cause, unlink_cause, first_repeated};

use crate::class_graph::ClassGraph;
use crate::class_no::ClassNo;
use crate::graph_fault::GraphFault;
use crate::limits::PARENTS;

// The first class that stands among the earlier ones.
fn first_repeated(classes: &[ClassNo]) -> Option<ClassNo>
    ensures { result ≡ first_repeated [] classes.now }
{
    for (i, class) in classes.iter().enumerate() {
        if classes[..i].contains(class) {
            return Some(*class);
        }
    }
    None
}

impl ClassGraph {
    // The first of the classes that isn't live.
    fn first_unknown(&self, classes: &[ClassNo]) -> Option<ClassNo>
        ensures { result ≡ find (λ class. not (is_live self.now class)) classes.now }
    {
        classes.iter().copied().find(|class| !self.is_live(*class))
    }

    /// Why [`add`](ClassGraph::add) would refuse the class with these parents; `None` exactly where it wouldn't. It costs
    /// what the refusal costs: a step for each parent, and for each two of them.
    pub fn add_cause(&self, class: ClassNo, parents: &[ClassNo]) -> Option<GraphFault>
        ensures { result ≡ add_cause self.now class parents.now }
    {
        if self.is_live(class) {
            return Some(GraphFault::ClassExists);
        }
        if parents.len() > PARENTS {
            return Some(GraphFault::TooManyParents);
        }
        if let Some(class) = self.first_unknown(parents) {
            return Some(GraphFault::ClassUnknown { class });
        }
        if let Some(class) = first_repeated(parents) {
            return Some(GraphFault::ParentTwice { class });
        }
        None
    }

    /// Why [`drop_class`](ClassGraph::drop_class) would refuse to drop the class; `None` exactly where it wouldn't. It asks
    /// the classes below the class, from the lowest on, for the first that has it as a parent.
    pub fn drop_cause(&self, class: ClassNo) -> Option<GraphFault>
        ensures { result ≡ drop_cause self.now class }
    {
        if !self.is_live(class) {
            return Some(GraphFault::ClassUnknown { class });
        }
        if let Some(class) = self.lowest_subclass(class) {
            return Some(GraphFault::HasSubclasses { class });
        }
        None
    }

    /// Why [`link`](ClassGraph::link) would refuse the link; `None` exactly where it wouldn't. It costs a step for each
    /// parent of the class.
    pub fn link_cause(&self, class: ClassNo, parent: ClassNo) -> Option<GraphFault>
        ensures { result ≡ link_cause self.now class parent }
    {
        if !self.is_live(class) {
            return Some(GraphFault::ClassUnknown { class });
        }
        if !self.is_live(parent) {
            return Some(GraphFault::ClassUnknown { class: parent });
        }
        if self.has_link(class, parent) {
            return Some(GraphFault::LinkExists);
        }
        if self.parent_count(class) >= PARENTS {
            return Some(GraphFault::TooManyParents);
        }
        if self.is_below(parent, class) {
            return Some(GraphFault::Cycle);
        }
        None
    }

    /// Why [`unlink`](ClassGraph::unlink) would refuse to take the link away; `None` exactly where it wouldn't. It costs a
    /// step for each parent of the class.
    pub fn unlink_cause(&self, class: ClassNo, parent: ClassNo) -> Option<GraphFault>
        ensures { result ≡ unlink_cause self.now class parent }
    {
        if !self.is_live(class) {
            return Some(GraphFault::ClassUnknown { class });
        }
        if !self.is_live(parent) {
            return Some(GraphFault::ClassUnknown { class: parent });
        }
        if !self.has_link(class, parent) {
            return Some(GraphFault::LinkUnknown);
        }
        None
    }
}
