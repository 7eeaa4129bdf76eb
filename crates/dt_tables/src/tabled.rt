ghost use Rattle.std.specs.Prelude.{◌≡◌, ◌≤◌, IfOk};
ghost use Rattle.dt_pages.specs.Image.{look_up};
ghost use Rattle.dt_definitions.specs.Lawful.{Lawful};
ghost use Rattle.dt_propagate.specs.Limits.{IsWithinLimits};
ghost use Rattle.dt_scratch.specs.Resolve.{reply};
ghost use Rattle.dt_cells.specs.Serving.{Serves};
ghost use Rattle.dt_tables.specs.Commit.{Commits};
ghost use Rattle.dt_tables.specs.Words.{empty_with_table, Renews};

use crate::commit_fault::CommitFault;
use crate::following::follow_tried;
use crate::laws::limits_are_counted;
use dt_cells::{TableKind, first_table};
use dt_definitions::{Batch, Program, TwoPrograms};
use dt_graph::NoMemory;
use dt_pages::Tree;
use dt_propagate::Sizes;
use dt_scratch::{Query, Reply, law_of_cells, resolve};
use std::alloc::Global;
use std::marker::Model;

/// A program and its table, kept in step. It is seen as the program and the words of its table.
///
/// Along any batches, each committed or refused, from the empty program on, the words of [`tree`](Tabled::tree) serve the
/// program that stands, and they are those that the kind makes of this history: see [`commits_make_words`].
///
/// [`commits_make_words`]: crate::commits_make_words
#[derive(Drop)]
pub struct Tabled<K: TableKind> {
    alloc: Global,
    programs: TwoPrograms,
    kind: K,
    tree: Tree,
    // At most how many cells and rows the program has.
    sizes: Sizes,
}

impl<K: TableKind> Model for Tabled<K> {
    ghost use Rattle.std.specs.Ordering.{nat_cmp};
    ghost use Rattle.std.specs.FinMap.{code};
    ghost use Rattle.std.specs.Coded.{coded_ℕ, codes};
    ghost use Rattle.dt_pages.specs.Image.{look_up};
    ghost use Rattle.dt_tables.specs.Words.{WithTable};
    ghost use Rattle.dt_tables.specs.Kept.{IsKept};

    ghost Value = { WithTable };

    ghost coded = { Prim.hlevel (codes, code {R = nat_cmp} coded_ℕ coded_ℕ) };

    ghost view = { λ t. record { program = t.programs.stands; words = t.tree } };

    ghost invariant = { λ t. IsKept K.kind (K.stands t.kind) (K.low t.kind) (look_up t.tree) t.programs t.sizes };
}

impl<K: TableKind> Tabled<K> {
    /// The empty program with its table. [`NoMemory`] where none was found.
    pub fn new(alloc: Global) -> Result<Tabled<K>, NoMemory>
        requires { 1 ≤ K.kind.most_low }
        ensures { IfOk result (λ tabled. tabled ≡ empty_with_table) }
    {
        let programs = TwoPrograms::new(alloc)?;
        let (kind, tree) = first_table::<K>(alloc, 1)?;
        Ok(Tabled {
            alloc,
            programs,
            kind,
            tree,
            sizes: Sizes::none(),
        })
    }

    /// The program that stands.
    pub fn program(&self) -> &Program
        ensures { result.now ≡ self.now.program }
    {
        self.programs.stands()
    }

    /// The words of the table: look-up over them gives the program's reply to every query whose arity the kind covers.
    pub fn tree(&self) -> &Tree
        ensures serves { Serves 1 K.kind self.now.program (look_up result.now) }
        ensures words { result.now ≡ self.now.words }
    {
        self.programs.stands().law();
        law_of_cells();
        &self.tree
    }

    /// What holds of every program that has a table: it is within the limits of cells and rows. It does nothing: a caller
    /// whose reasoning needs this calls it.
    pub fn law(&self)
        ensures lawful { Lawful self.now.program }
        ensures within { IsWithinLimits self.now.program }
    {
        self.programs.stands().law();
    }

    /// The new program stands from now on, and its table with it, where every edit of the batch is accepted and the new
    /// program is within the limits of cells and rows. After every fault the old program stands on, and its table.
    ///
    /// It costs what the batch costs on one program, with the batch that was committed before it, and the finding of what
    /// it changes; and setting the words of these changes. Under selector table indexing no other word of a cell is set;
    /// under a kind with places a selector or row that moves has all its cells set anew.
    pub fn commit(&mut self, batch: &Batch) -> Result<(), CommitFault>
        ensures program { Commits self.old.program batch.now self.new.program result }
        ensures words { Renews K.kind self.old self.new result }
    {
        limits_are_counted();
        self.programs.try_batch(batch.copy()?)?;
        self.programs.tried().law();
        match follow_tried(
            self.alloc,
            &mut self.kind,
            &mut self.tree,
            batch,
            &self.programs,
            &mut self.sizes,
        ) {
            Ok(()) => {
                self.programs.accept();
                Ok(())
            }
            Err(fault) => {
                self.programs.refuse();
                Err(CommitFault::from(fault))
            }
        }
    }

    /// The reply to the query: by the table where the kind covers the query's arity, else by look-up from scratch.
    pub fn reply(&mut self, query: &Query) -> Reply
        ensures value { result ≡ reply self.old.program query.now }
        ensures same { self.new ≡ self.old }
    {
        query.law();
        self.programs.stands().law();
        law_of_cells();
        if query.arity() <= K::ARITIES {
            K::find(&mut self.tree, query)
        } else {
            resolve(self.programs.stands(), query)
        }
    }
}
