ghost use Rattle.std.specs.Prelude.{◌≤◌};
ghost use Rattle.dt_graph.specs.declared.limits.TheConstants.{CLASSES};

use dt_graph::{ClassGraph, ClassNo, GraphFault, NoMemory};
use std::alloc::Global;

// How many classes stand in a row of the graph of diamonds.
const WIDTH: u16 = 16;

/// How the classes of a graph hang together.
#[derive(Clone, Copy, PartialEq)]
pub enum Shape {
    /// Each class but the first has the one before it as its parent.
    Chain,
    /// Two centres; all other classes have the first of them as their parent.
    Star,
    /// Rows of 16 classes: each class has as its parents the class in its place in the row before and the next one
    /// there. So two neighbours, with the class above both and the class below both, are a diamond.
    Diamonds,
}

impl Shape {
    /// The word for the shape.
    pub fn word(self) -> &'static str {
        match self {
            Shape::Chain => "chain",
            Shape::Star => "star",
            Shape::Diamonds => "diamonds",
        }
    }

    // The parents of the class of this number, at most two.
    fn parents(self, class: u16) -> (Option<ClassNo>, Option<ClassNo>) {
        match self {
            Shape::Chain => (class.checked_sub(1).and_then(ClassNo::new), None),
            Shape::Star if class < 2 => (None, None),
            Shape::Star => (ClassNo::new(0), None),
            Shape::Diamonds if class < WIDTH => (None, None),
            Shape::Diamonds => {
                let above = class - WIDTH;
                let next = above - above % WIDTH + (above % WIDTH + 1) % WIDTH;
                (ClassNo::new(above), ClassNo::new(next))
            }
        }
    }

    /// Adds the class below its parents.
    pub fn add(self, graph: &mut ClassGraph, class: ClassNo) -> Result<(), GraphFault> {
        match self.parents(class.number()) {
            (Some(first), Some(second)) => graph.add(class, &[first, second]),
            (Some(first), None) => graph.add(class, &[first]),
            _ => graph.add(class, &[]),
        }
    }

    /// The link in the middle that comes and goes: in a star it leads from a leaf to the second centre.
    pub fn middle_link(self, classes: u16) -> Option<(ClassNo, ClassNo)> {
        let middle = classes / 2;
        let class = ClassNo::new(middle)?;
        let parent = match self {
            Shape::Star if middle < 2 => None,
            Shape::Star => ClassNo::new(1),
            Shape::Chain | Shape::Diamonds => self.parents(middle).0,
        };
        Some((class, parent?))
    }

    /// A graph of this shape with so many classes.
    pub fn graph(self, alloc: Global, classes: u16) -> Result<ClassGraph, NoMemory>
        requires { classes ≤ CLASSES }
    {
        let mut graph = ClassGraph::new(alloc)?;
        for number in 0..classes {
            // Its parents come before it and differ, so it is added.
            let _ = self.add(&mut graph, ClassNo::new(number).unwrap());
        }
        Ok(graph)
    }
}
