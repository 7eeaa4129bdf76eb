ghost use Rattle.std.specs.Prelude.{◌≡◌, ℕ, ◌<◌, length, Some, IsTrue, Ok, Err, IfOk, IfErr, OnOk, reverse, All, ◌≤◌, List, count_by};
ghost use Rattle.std.specs.Option.{option_map};
ghost use Rattle.dt_graph.specs.Graph.{is_live};
ghost use Rattle.dt_graph.specs.Below.{HasNoCycle};
ghost use Rattle.dt_graph.specs.declared.limits.TheConstants.{CLASSES};
ghost use Rattle.dt_definitions.specs.Program.{empty_program, arity_of, definitions_of, is_definition, body_of};
ghost use Rattle.dt_definitions.specs.Naming.{naming};
ghost use Rattle.dt_definitions.specs.Lawful.{Lawful};
ghost use Rattle.dt_definitions.specs.SelectorLists.{with_selector};
ghost use Rattle.dt_definitions.specs.Nth.{nth};
ghost use Rattle.dt_definitions.specs.Step.{Applies, step_batch, AppliesBatch};
ghost use Rattle.dt_definitions.specs.Undo.{undoing, LeadsBack};
ghost use Rattle.dt_definitions.specs.Memory.{may_want_memory, batch_may_want_memory, NoMemoryOnlyWhere, BatchNoMemoryOnlyWhere};

use crate::all_definitions::AllDefinitions;
use crate::batch::Batch;
use crate::defined::Defined;
use crate::definition_key::DefinitionKey;
use crate::edit::Edit;
use crate::laws::steps_keep_law;
use crate::parts::Parts;
use crate::tuple::Tuple;
use crate::why::{ApplyFault, BatchFault};
use dt_graph::{ClassGraph, ClassNo, NoMemory};
use dt_selectors::{Arity, BodyNo, SelNo, Selectors};
use std::alloc::Global;
use std::marker::Model;

/// A program: its classes, its selectors, and what the selectors are defined to do at which classes.
///
/// What classes and selectors need is taken once, by [`Program::new`]. The definitions take memory in proportion to
/// those alive, whatever came before: a definition stands in the list of its selector and in that of each class that it
/// names, and after an edit or a batch, accepted or refused, each list that it touched has room for at most 4 n + 3
/// where it holds n. Where the smaller block isn't found the list keeps its room until an edit touches it again.
#[derive(Debug, Drop)]
pub struct Program {
    parts: Parts,
}

impl Model for Program {
    ghost use Rattle.dt_definitions.specs.Program as shown;
    ghost use Rattle.dt_definitions.specs.Parts.{program_of};
    ghost use Rattle.dt_definitions.specs.Lawful.{Lawful};

    ghost Value = { shown.Program };

    ghost view = { λ p. program_of p.parts };

    ghost invariant = { λ p. Lawful (program_of p.parts) };
}

impl Program {
    /// The program with nothing in it. What classes and selectors will ever need is taken here; [`NoMemory`] where none
    /// was found. The time and the memory are in proportion to the limits of classes and selectors.
    pub fn new(alloc: Global) -> Result<Program, NoMemory>
        ensures { IfOk result (λ program. program ≡ empty_program) }
    {
        steps_keep_law();
        let parts = Parts {
            graph: ClassGraph::new(alloc)?,
            selectors: Selectors::new(alloc)?,
            definitions: AllDefinitions::new(alloc)?,
        };
        Ok(Program { parts })
    }

    /// An equal program, with memory of its own; [`NoMemory`] where none was found. It isn't `Clone`, since memory may be
    /// wanting. It costs as much as [`Program::new`], and more in proportion to the definitions.
    pub fn copy(&self) -> Result<Program, NoMemory>
        ensures { IfOk result (λ program. program ≡ self.now) }
    {
        let parts = Parts {
            graph: self.parts.graph.copy()?,
            selectors: self.parts.selectors.copy()?,
            definitions: self.parts.definitions.copy()?,
        };
        Ok(Program { parts })
    }

    /// Whether the class is live. It costs the same in every program.
    pub fn is_live(&self, class: ClassNo) -> bool
        ensures { result ≡ is_live self.now.graph class }
    {
        self.parts.graph.is_live(class)
    }

    /// How many arguments the selector takes; `None` exactly where it isn't live. It costs the same in every program.
    pub fn arity(&self, selector: SelNo) -> Option<Arity>
        ensures { result ≡ arity_of self.now selector }
    {
        self.parts.selectors.arity(selector)
    }

    /// How many definitions there are, at most [`DEFINITIONS`](crate::DEFINITIONS). It costs the same in every program.
    pub fn definitions(&self) -> u32
        ensures { result ≡ length self.now.definitions }
    {
        self.parts.definitions.len()
    }

    /// The live classes and their links.
    pub fn graph(&self) -> &ClassGraph
        ensures { result.now ≡ self.now.graph }
    {
        &self.parts.graph
    }

    /// What holds of every program. It does nothing: a caller whose reasoning needs this calls it.
    pub fn law(&self)
        ensures lawful { Lawful self.now }
        ensures live_in_range { (class : ℕ) → IsTrue (is_live self.now.graph class) → class < CLASSES }
        ensures definitions_fit { (selector : ℕ) → All (λ d. (arity_of self.now selector ≡ Some (length d.classes))
            × All (λ class. IsTrue (is_live self.now.graph class)) d.classes) (definitions_of self.now selector) }
        ensures defined_once { (selector : ℕ) (classes : List ℕ) → count_by (is_definition selector classes) self.now.definitions ≤ 1 }
        ensures no_cycle { HasNoCycle self.now.graph.links }
    {
        self.parts.graph.law();
    }

    /// The definitions of the selector, in ascending order of their classes. It costs the same in every program.
    pub fn definitions_of(&self, selector: SelNo) -> &[Defined]
        ensures { with_selector selector result.now ≡ definitions_of self.now selector }
    {
        self.parts.definitions.of(selector)
    }

    /// The body of the selector at these classes; `None` exactly where it isn't defined there. The selector's definitions
    /// are searched by halves.
    pub fn body(&self, selector: SelNo, classes: &[ClassNo]) -> Option<BodyNo>
        ensures { result ≡ body_of self.now.definitions selector classes.now }
    {
        self.parts.definitions.body(selector, classes)
    }

    /// Where the definitions that name the class stand, each once, in ascending order of selector, then classes. It costs
    /// the same in every program.
    pub fn naming(&self, class: ClassNo) -> &[DefinitionKey]
        ensures { result.now ≡ naming self.now.definitions class }
    {
        self.parts.definitions.naming(class)
    }

    /// The definition at this place, from 1, among those of the selector; `None` exactly where there is no such place.
    pub fn of_selector(&self, selector: SelNo, place: u32) -> Option<(&Tuple, BodyNo)>
        ensures { option_map (λ found. record { selector = selector; classes = found.0.now; body = found.1 }) result
            ≡ nth (definitions_of self.now selector) place }
    {
        let place = place.checked_sub(1)?;
        let defined = self.definitions_of(selector).get(place as usize)?;
        Some((&defined.classes, defined.body))
    }

    /// The program after the edit, or the first cause for which it is refused. After a refusal or want of memory
    /// the program is as it was. Only a definition that isn't refused and isn't there yet takes memory.
    ///
    /// An edit of classes costs what that of [`ClassGraph`] does, and one of selectors the same in every program. `Define`
    /// and `Undefine` search the list of the selector, and those of the classes that they name, by halves, and move what
    /// stands behind in each; it grows with the length of these lists, and with nothing else.
    ///
    /// The causes, in order:
    /// - `AddClass`: the class is live; there are more than 16 parents; a parent isn't live (the first); a parent
    ///   equals an earlier one (the first);
    /// - `DropClass`: the class isn't live; it is a parent of others (the lowest); a definition names it;
    /// - `Link`: the class isn't live; the parent isn't; the link is there; the class has 16 parents; the parent is
    ///   at or below the class;
    /// - `Unlink`: the class isn't live; the parent isn't; the link isn't there;
    /// - `AddSelector`: the selector is live;
    /// - `DropSelector`: the selector isn't live; it has a definition;
    /// - `Define`: the selector isn't live; it takes another number of arguments; a class isn't live (the first);
    ///   there are 65,536 definitions, and none of this selector at these classes;
    /// - `Undefine`: the selector isn't live; it takes another number of arguments; a class isn't live (the first);
    ///   there is no such definition.
    pub fn apply(&mut self, edit: &Edit) -> Result<(), ApplyFault>
        ensures applies { Applies self.old edit.now self.new result }
        ensures memory { NoMemoryOnlyWhere (may_want_memory self.old edit.now) result }
    {
        let answer = self.parts.apply(edit);
        self.parts.give_back(edit);
        answer
    }

    /// The program after all edits of the batch in order, or the first edit that is refused, by its place from 1 and
    /// its cause. After a refusal or want of memory the program is as it was.
    ///
    /// It costs what its edits cost: where a later edit is refused, the earlier ones are undone, each by one edit. A
    /// batch without edits takes no memory, a batch of one edit only what the edit takes by itself, and a batch that only
    /// adds classes and selectors, links and unlinks, none. With other edits among several it takes memory to keep what
    /// they replace or take away.
    pub fn apply_batch(&mut self, batch: &Batch) -> Result<(), BatchFault>
        ensures applies { AppliesBatch self.old batch.now self.new result }
        ensures memory { BatchNoMemoryOnlyWhere (batch_may_want_memory self.old batch.now) result }
    {
        let answer = self.parts.apply_batch(batch);
        self.parts.give_back_all(batch);
        answer
    }

    // Gives back the memory that the lists which the batch touched leave unused. No undo may be wanted any more.
    pub(crate) fn give_back(&mut self, batch: &Batch)
        ensures { self.new ≡ self.old }
    {
        self.parts.give_back_all(batch);
    }

    // As [`Program::apply_batch`], with what undoes it where its edits don't tell it.
    pub(crate) fn apply_kept(&mut self, batch: &Batch) -> Result<Vec<Edit>, BatchFault>
        ensures ok { IfOk result (λ kept. (step_batch self.old batch.now ≡ Ok self.new)
            × LeadsBack self.new (undoing (reverse batch.now) (reverse kept.items)) self.old) }
        ensures err { IfErr result (λ fault. AppliesBatch self.old batch.now self.new (Err fault)) }
    {
        self.parts.apply_kept(batch)
    }

    // Undoes the batch that was applied with what was kept. It takes memory only where the lists of definitions have
    // less room than they had.
    pub(crate) fn undo(&mut self, batch: &Batch, kept: Vec<Edit>) -> Result<(), NoMemory>
        ensures { (old : Program) → LeadsBack self.old (undoing (reverse batch.now) (reverse kept.items)) old
            → OnOk result (self.new ≡ old) }
    {
        self.parts.undo(batch.as_slice(), kept)
    }
}
