ghost use Rattle.std.specs.Prelude.{◌≡◌, ℕ, ◌<◌, ◌≤◌, ◌↔◌, IsTrue, ◌++◌, IfOk, OnOk, OnErr, None, length, find};
ghost use Rattle.dt_graph.specs.Refusal.{ok_unless};
ghost use Rattle.dt_graph.specs.Graph.{Graph, empty_graph, has_number, is_live, has_link, parent_count};
ghost use Rattle.dt_graph.specs.Parents.{parents_of};
ghost use Rattle.dt_graph.specs.Below.{HasNoCycle, IsBelow, is_below};
ghost use Rattle.dt_graph.specs.Descendants.{descendants};
ghost use Rattle.dt_graph.specs.Lawful.{LawfulGraph};
ghost use Rattle.dt_graph.specs.declared.limits.TheConstants.{CLASSES, PARENTS};
ghost use Rattle.dt_graph.specs.GraphChange.{add_cause, add_effect, drop_cause, drop_effect, link_cause, link_effect, unlink_cause, unlink_effect, lowest_subclass};

use crate::ancestry::Ancestry;
use crate::class_no::ClassNo;
use crate::class_rows::ClassRows;
use crate::class_set::ClassSet;
use crate::counted_set::CountedSet;
use crate::graph_fault::GraphFault;
use crate::limits::CLASSES;
use crate::no_memory::NoMemory;
use crate::renewal::{join_all, renew};
use arrayvec::ArrayVec;
use std::alloc::Global;
use std::marker::Model;

const PLACES: usize = CLASSES as usize;

/// The live classes and the links from classes to parents.
///
/// Which class is at or below which is kept both ways, a bit each, so that a question is one step. That, the classes and
/// their parents take about 1.2 MB, however many classes are live, all of it when the graph is made; no change takes memory.
#[derive(Debug, Drop)]
pub struct ClassGraph {
    rows: ClassRows,
    ancestry: Ancestry,
}

impl Model for ClassGraph {
    ghost use Rattle.dt_graph.specs.Graph.{Graph};

    ghost Value = { Graph };

    ghost use Rattle.dt_graph.specs.Renewal.{ShowsBelow};

    ghost view = { λ g. g.rows };

    ghost invariant = { λ g. ShowsBelow g.rows.links g.ancestry };
}

impl ClassGraph {
    /// A graph with no class. All memory that changes will ever need, about 1.2 MB, is taken and written here; [`NoMemory`] where
    /// none was found.
    pub fn new(alloc: Global) -> Result<ClassGraph, NoMemory>
        ensures { IfOk result (λ g. g ≡ empty_graph) }
    {
        let rows = ClassRows::new(alloc)?;
        let ancestry = Ancestry::new(alloc)?;
        Ok(ClassGraph { rows, ancestry })
    }

    /// Whether the class is live. It takes one step.
    pub fn is_live(&self, class: ClassNo) -> bool
        ensures { result ≡ is_live self.now class }
    {
        self.rows.is_live(class)
    }

    /// The live classes, in ascending order, in a list that takes 4 KB where it stands and no other memory. It asks each
    /// of the 2,048 class numbers.
    pub fn classes(&self) -> ArrayVec<ClassNo, PLACES>
        ensures { result.items ≡ self.now.classes }
    {
        self.law();
        let mut classes = ArrayVec::new();
        for number in 0..PLACES {
            let class = ClassNo::from_index(number);
            if self.is_live(class) {
                classes.push(class);
            }
        }
        classes
    }

    /// The parents of the class, 16 at most, in ascending order: none where it isn't live. It takes one step.
    pub fn parents(&self, class: ClassNo) -> &[ClassNo]
        ensures { result.now ≡ parents_of self.now.links class }
    {
        self.rows.parents(class)
    }

    // How many parents the class has.
    pub(crate) fn parent_count(&self, class: ClassNo) -> usize
        ensures { result ≡ parent_count self.now.links class }
    {
        self.parents(class).len()
    }

    // Whether a link leads from the class to the parent.
    pub(crate) fn has_link(&self, class: ClassNo, parent: ClassNo) -> bool
        ensures { result ≡ has_link self.now.links class parent }
    {
        self.parents(class).contains(&parent)
    }

    // The lowest class that has it as a parent.
    pub(crate) fn lowest_subclass(&self, class: ClassNo) -> Option<ClassNo>
        ensures { result ≡ lowest_subclass self.now.links class }
    {
        let below = self.below(class);
        below.law();
        self.law();
        self.first_with_parent(below.classes().as_slice(), class)
    }

    // The first of the classes that has the parent.
    fn first_with_parent(&self, classes: &[ClassNo], parent: ClassNo) -> Option<ClassNo>
        ensures { result ≡ find (λ class. has_link self.now.links class parent) classes.now }
    {
        classes
            .iter()
            .copied()
            .find(|class| self.has_link(*class, parent))
    }

    /// Whether `low` equals `high` or a list of links leads from `low` to `high`. It reads one bit.
    pub fn is_below(&self, low: ClassNo, high: ClassNo) -> bool
        ensures test { result ≡ is_below self.now.links low high }
        ensures relation { IsTrue result ↔ IsBelow self.now.links low high }
    {
        self.ancestry.holds(low, high)
    }

    /// The classes at or below `class`. Where `class` is live, they are the live ones at or below it; where it isn't,
    /// `class` alone. Kept, so it takes one step.
    pub fn below(&self, class: ClassNo) -> &ClassSet
        ensures test { (low : ℕ) → has_number result.now low ≡ is_below self.now.links low class }
        ensures live { IsTrue (is_live self.now class) → result.now ≡ descendants self.now class }
    {
        self.counted_below(class).as_set()
    }

    // The same, with how many they are.
    fn counted_below(&self, class: ClassNo) -> &CountedSet
        ensures test { (low : ℕ) → has_number result.now low ≡ is_below self.now.links low class }
        ensures live { IsTrue (is_live self.now class) → result.now ≡ descendants self.now class }
    {
        self.rows.law();
        let below = self.ancestry.counted_below(class);
        below.as_set().law();
        below
    }

    /// The classes at or above `class`. Where `class` is live, they are live; where it isn't, `class` alone. Kept, so it
    /// takes one step.
    pub fn above(&self, class: ClassNo) -> &ClassSet
        ensures test { (high : ℕ) → has_number result.now high ≡ is_below self.now.links class high }
        ensures live { (high : ℕ) → IsTrue (is_live self.now class) → IsTrue (has_number result.now high)
            → IsTrue (is_live self.now high) }
    {
        self.rows.law();
        let above = self.ancestry.above(class);
        above.law();
        above
    }

    /// Appends the live classes at or below `class`, in ascending order: none where `class` isn't live. [`NoMemory`]
    /// where no memory was found; `out` is as it was then. It takes a step for each of them and for the words of a set.
    pub fn descendants_into(&self, class: ClassNo, out: &mut Vec<ClassNo>) -> Result<(), NoMemory>
        ensures ok { OnOk result (out.new.items ≡ out.old.items ++ descendants self.now class) }
        ensures err { OnErr result (out.new.items ≡ out.old.items) }
    {
        self.rows.law();
        if !self.is_live(class) {
            return Ok(());
        }
        let below = self.below(class);
        below.push_into(out)
    }

    /// How many live classes are at or below `class`, 2,048 at most: none where `class` itself isn't live. Kept, so
    /// it reads a number.
    pub fn below_count(&self, class: ClassNo) -> usize
        ensures { result ≡ length (descendants self.now class) }
    {
        self.rows.law();
        if !self.is_live(class) {
            return 0;
        }
        self.counted_below(class).len()
    }

    /// An equal graph, with memory of its own; [`NoMemory`] where none was found. It copies about 1.2 MB, however many classes
    /// are live.
    pub fn copy(&self) -> Result<ClassGraph, NoMemory>
        ensures { IfOk result (λ g. g ≡ self.now) }
    {
        let rows = self.rows.copy()?;
        let ancestry = self.ancestry.copy()?;
        Ok(ClassGraph { rows, ancestry })
    }

    /// What holds of every class graph. It does nothing: a caller whose reasoning needs this calls it.
    pub fn law(&self)
        ensures lawful { LawfulGraph self.now }
        ensures live_in_range { (class : ℕ) → IsTrue (is_live self.now class) → class < CLASSES }
        ensures links_join_live { (class parent : ℕ) → IsTrue (has_link self.now.links class parent)
            → IsTrue (is_live self.now class) × IsTrue (is_live self.now parent) }
        ensures few_parents { (class : ℕ) → length (parents_of self.now.links class) ≤ PARENTS }
        ensures no_cycle { HasNoCycle self.now.links }
        ensures antisymmetric { (a b : ℕ) → IsTrue (is_below self.now.links a b)
            → IsTrue (is_below self.now.links b a) → a ≡ b }
    {
        self.rows.law();
    }

    /// Adds a class with one link to each of its parents.
    ///
    /// The causes of a refusal, in order: the class is live already; there are more than
    /// [`PARENTS`](crate::PARENTS) parents; a parent isn't live (the first); a parent is named twice (the first
    /// that equals an earlier one). After a refusal the graph is as it was.
    ///
    /// It takes a step for each parent and, for each, one for each class at or above it.
    pub fn add(&mut self, class: ClassNo, parents: &[ClassNo]) -> Result<(), GraphFault>
        ensures answer { result ≡ ok_unless (add_cause self.old class parents.now) tt }
        ensures ok { OnOk result (self.new ≡ add_effect self.old class parents.now) }
        ensures err { OnErr result (self.new ≡ self.old) }
    {
        if let Some(fault) = self.add_cause(class, parents) {
            return Err(fault);
        }
        self.insert(class, parents);
        Ok(())
    }

    /// Drops a class and its links to parents. It takes a step for each class above it.
    ///
    /// The causes of a refusal, in order: the class isn't live; it is a parent of others (the lowest of these is
    /// answered). After a refusal the graph is as it was.
    pub fn drop_class(&mut self, class: ClassNo) -> Result<(), GraphFault>
        ensures answer { result ≡ ok_unless (drop_cause self.old class) tt }
        ensures ok { OnOk result (self.new ≡ drop_effect self.old class) }
        ensures err { OnErr result (self.new ≡ self.old) }
    {
        if let Some(fault) = self.drop_cause(class) {
            return Err(fault);
        }
        self.remove(class);
        Ok(())
    }

    /// Makes one link more. It takes a step for each class at or below the class and for each at or above the parent,
    /// each through the 32 words of a set.
    ///
    /// The causes of a refusal, in order: the class isn't live; the parent isn't; the link is there already; the
    /// class has [`PARENTS`](crate::PARENTS) parents; the parent is at or below the class. After a refusal the
    /// graph is as it was.
    pub fn link(&mut self, class: ClassNo, parent: ClassNo) -> Result<(), GraphFault>
        ensures answer { result ≡ ok_unless (link_cause self.old class parent) tt }
        ensures ok { OnOk result (self.new ≡ link_effect self.old class parent) }
        ensures err { OnErr result (self.new ≡ self.old) }
    {
        if let Some(fault) = self.link_cause(class, parent) {
            return Err(fault);
        }
        self.insert_link(class, parent);
        Ok(())
    }

    /// Takes a link away. It takes a step, through the 32 words of a few sets, for each class at or below the class and for
    /// each that the class is below by this link alone; and one for each pair of these in which a class keeps what most
    /// below the class lose, or loses what it mostly keeps.
    ///
    /// The causes of a refusal, in order: the class isn't live; the parent isn't; the link isn't there. After a
    /// refusal the graph is as it was.
    pub fn unlink(&mut self, class: ClassNo, parent: ClassNo) -> Result<(), GraphFault>
        ensures answer { result ≡ ok_unless (unlink_cause self.old class parent) tt }
        ensures ok { OnOk result (self.new ≡ unlink_effect self.old class parent) }
        ensures err { OnErr result (self.new ≡ self.old) }
    {
        if let Some(fault) = self.unlink_cause(class, parent) {
            return Err(fault);
        }
        self.remove_link(class, parent);
        Ok(())
    }

    // The class is live from now on, with these parents.
    fn insert(&mut self, class: ClassNo, parents: &[ClassNo])
        requires { add_cause self.old class parents.now ≡ None }
        ensures { self.new ≡ add_effect self.old class parents.now }
    {
        self.rows.insert(class, parents);
        join_all(&mut self.ancestry, class, parents);
    }

    // The class isn't live from now on, and has no parents.
    fn remove(&mut self, class: ClassNo)
        requires { drop_cause self.old class ≡ None }
        ensures { self.new ≡ drop_effect self.old class }
    {
        self.rows.law();
        self.rows.remove(class);
        renew(&self.rows, &mut self.ancestry, class);
    }

    // The class has one parent more.
    fn insert_link(&mut self, class: ClassNo, parent: ClassNo)
        requires { link_cause self.old class parent ≡ None }
        ensures { self.new ≡ link_effect self.old class parent }
    {
        self.rows.insert_link(class, parent);
        self.ancestry.join(class, parent);
    }

    // The class has one parent less.
    fn remove_link(&mut self, class: ClassNo, parent: ClassNo)
        ensures { self.new ≡ unlink_effect self.old class parent }
    {
        self.rows.law();
        self.rows.remove_link(class, parent);
        renew(&self.rows, &mut self.ancestry, class);
    }
}
