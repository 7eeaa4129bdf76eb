ghost use Rattle.std.specs.Prelude.{◌≡◌, ℕ, ◌<◌, ◌≤◌, IsTrue, false, [], if◌then◌else◌, IfOk, None, length};
ghost use Rattle.dt_graph.specs.Graph.{Graph, empty_graph, is_live, has_link};
ghost use Rattle.dt_graph.specs.Parents.{parents_of};
ghost use Rattle.dt_graph.specs.Below.{HasNoCycle, is_below};
ghost use Rattle.dt_graph.specs.Lawful.{LawfulGraph};
ghost use Rattle.dt_graph.specs.GraphRows.{insert_numbers};
ghost use Rattle.dt_graph.specs.declared.limits.TheConstants.{PARENTS};
ghost use Rattle.dt_graph.specs.GraphChange.{add_cause, add_effect, drop_cause, drop_effect, link_cause, link_effect, unlink_effect};

use crate::class_no::ClassNo;
use crate::limits::CLASSES;
use crate::no_memory::NoMemory;
use crate::parents::{Parents, in_order, insert, without};
use arrayvec::ArrayVec;
use std::alloc::Global;
use std::marker::Model;

// What is kept of one class: whether it is live, and its parents in ascending order.
#[derive(Clone, Debug, Drop)]
struct Row {
    is_live: bool,
    parents: Parents,
}

impl Row {
    // The row of a class that isn't live.
    fn empty() -> Row
        ensures not_live { result.is_live ≡ false }
        ensures no_parents { result.parents.items ≡ [] }
    {
        Row {
            is_live: false,
            parents: Parents::new(),
        }
    }
}

// The live classes and their parents, a row for each class.
#[derive(Debug, Drop)]
pub(crate) struct ClassRows {
    rows: Vec<Row>,
}

impl Model for ClassRows {
    ghost use Rattle.dt_graph.specs.Graph.{Graph};

    ghost Value = { Graph };

    ghost use Rattle.dt_graph.specs.GraphRows.{graph_of, LawfulRows};

    ghost view = { λ r. graph_of r.rows.items };

    ghost invariant = { λ r. LawfulRows r.rows.items };
}

impl ClassRows {
    // Rows with no live class. All memory that they will ever need is taken here.
    pub(crate) fn new(alloc: Global) -> Result<ClassRows, NoMemory>
        ensures { IfOk result (λ r. r ≡ empty_graph) }
    {
        let mut rows = Vec::with_capacity(alloc, CLASSES as usize)?;
        for _class in 0..CLASSES {
            rows.push(Row::empty())?;
        }
        Ok(ClassRows { rows })
    }

    // Equal rows.
    pub(crate) fn copy(&self) -> Result<ClassRows, NoMemory>
        ensures { IfOk result (λ r. r ≡ self.now) }
    {
        Ok(ClassRows {
            rows: self.rows.clone()?,
        })
    }

    // Whether the class is live.
    pub(crate) fn is_live(&self, class: ClassNo) -> bool
        ensures { result ≡ is_live self.now class }
    {
        self.rows[class.number() as usize].is_live
    }

    // The parents of the class, in ascending order: none where it isn't live.
    pub(crate) fn parents(&self, class: ClassNo) -> &[ClassNo]
        ensures { result.now ≡ parents_of self.now.links class }
    {
        self.rows[class.number() as usize].parents.as_slice()
    }

    // What holds of all rows. It does nothing: a caller whose reasoning needs this calls it.
    pub(crate) fn law(&self)
        ensures lawful { LawfulGraph self.now }
        ensures live_in_range { (class : ℕ) → IsTrue (is_live self.now class) → class < CLASSES }
        ensures links_join_live { (class parent : ℕ) → IsTrue (has_link self.now.links class parent)
            → IsTrue (is_live self.now class) × IsTrue (is_live self.now parent) }
        ensures few_parents { (class : ℕ) → length (parents_of self.now.links class) ≤ PARENTS }
        ensures no_cycle { HasNoCycle self.now.links }
        ensures antisymmetric { (a b : ℕ) → IsTrue (is_below self.now.links a b)
            → IsTrue (is_below self.now.links b a) → a ≡ b }
    {
        let _ = &self.rows;
    }

    // The class is live from now on, with these parents.
    pub(crate) fn insert(&mut self, class: ClassNo, parents: &[ClassNo])
        requires { add_cause self.old class parents.now ≡ None }
        ensures { self.new ≡ add_effect self.old class parents.now }
    {
        self.rows[class.number() as usize] = Row {
            is_live: true,
            parents: in_order(parents),
        };
    }

    // The class isn't live from now on, and has no parents.
    pub(crate) fn remove(&mut self, class: ClassNo)
        requires { drop_cause self.old class ≡ None }
        ensures { self.new ≡ drop_effect self.old class }
    {
        self.rows[class.number() as usize] = Row::empty();
    }

    // The class has one parent more.
    pub(crate) fn insert_link(&mut self, class: ClassNo, parent: ClassNo)
        requires { link_cause self.old class parent ≡ None }
        ensures { self.new ≡ link_effect self.old class parent }
    {
        let row = &mut self.rows[class.number() as usize];
        insert(&mut row.parents, parent);
    }

    // The class has one parent less.
    pub(crate) fn remove_link(&mut self, class: ClassNo, parent: ClassNo)
        ensures { self.new ≡ unlink_effect self.old class parent }
    {
        let row = &mut self.rows[class.number() as usize];
        row.parents = without(&row.parents, parent);
    }
}
