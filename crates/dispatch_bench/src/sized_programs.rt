ghost use Rattle.std.specs.Prelude.{◌≡◌, ◌<◌, true, Ok, IfOk, IfSome, OnOk};
ghost use Rattle.dt_definitions.specs.Step.{step_batch};
ghost use Rattle.dt_propagate.specs.Limits.{AreSizesOf};

use dt_definitions::{Batch, BatchFault, NoMemory, Program, TwoPrograms};
use dt_graph::Steps;
use dt_propagate::{ChangeFault, Sizes, changes_counted};
use dt_scratch::Change;
use std::alloc::Global;
use std::marker::{Brand, Model};
use std::sync::ledger::{Blank, Ledger};

/// What a batch changes.
#[derive(Drop)]
pub struct Difference {
    /// The cells that change.
    pub changes: Vec<Change>,
    /// How many steps it took to find them.
    pub steps: u64,
    /// The sizes of the new program.
    pub sizes: Sizes,
}

/// Two programs, and the sizes of the one that stands.
#[derive(Drop)]
pub struct SizedPrograms {
    alloc: Global,
    programs: TwoPrograms,
    sizes: Sizes,
}

impl Model for SizedPrograms {
    ghost use Rattle.dt_definitions.specs.TwoPrograms.{Two};
    ghost use Rattle.dt_propagate.specs.Limits.{AreSizesOf};

    ghost Value = { Two };

    ghost view = { λ s. s.programs };

    ghost invariant = { λ s. AreSizesOf s.programs.stands s.sizes };
}

// The differences of two programs, counted in the ledger that the blank becomes.
fn counted_by<L: Ledger>(
    alloc: Global,
    old: &Program,
    batch: &Batch,
    new: &Program,
    sizes: &mut Sizes,
    blank: Blank,
) -> Result<(Vec<Change>, u64), ChangeFault>
    requires batch { step_batch old.now batch.now ≡ Ok new.now }
    requires sizes { AreSizesOf old.now sizes.old }
    requires name { blank.name ≡ L.name }
    requires parts { blank.parts ≡ L.parts }
    requires some_part { 0 < blank.parts }
    ensures { OnOk result (AreSizesOf new.now sizes.new) }
{
    let mut steps = Steps::<L>::start(blank);
    changes_counted(alloc, old, batch, new, sizes, &mut steps)
}

// The differences of two programs, of which the old one has these sizes; `None` where the new one is too large.
fn find_difference(
    alloc: Global,
    old: &Program,
    batch: &Batch,
    new: &Program,
    sizes: Sizes,
) -> Result<Option<Difference>, NoMemory>
    requires batch { step_batch old.now batch.now ≡ Ok new.now }
    requires sizes { AreSizesOf old.now sizes }
    ensures { IfOk result (λ found. IfSome found (λ difference. AreSizesOf new.now difference.sizes)) }
{
    let mut sizes = sizes;
    match counted_by::<Brand>(alloc, old, batch, new, &mut sizes, Blank::new(1)) {
        Ok((changes, steps)) => Ok(Some(Difference {
            changes,
            steps,
            sizes,
        })),
        Err(ChangeFault::NoMemory) => Err(NoMemory),
        Err(_) => Ok(None),
    }
}

impl SizedPrograms {
    /// Two empty programs.
    pub fn new(alloc: Global) -> Result<SizedPrograms, NoMemory> {
        let programs = TwoPrograms::new(alloc)?;
        Ok(SizedPrograms {
            alloc,
            programs,
            sizes: Sizes::none(),
        })
    }

    /// Tries the batch, and tells whether it is accepted.
    pub fn try_batch(&mut self, batch: &Batch) -> Result<bool, NoMemory>
        ensures { IfOk result (λ is_tried. is_tried ≡ true → step_batch self.new.stands batch.now ≡ Ok self.new.tried) }
    {
        match self.programs.try_batch(batch.copy()?) {
            Ok(()) => Ok(true),
            Err(BatchFault::Refused { .. }) => Ok(false),
            Err(BatchFault::NoMemory) => Err(NoMemory),
        }
    }

    /// What the batch that is tried changes; `None` where the new program is too large for a table.
    pub fn difference(&self, batch: &Batch) -> Result<Option<Difference>, NoMemory>
        requires { step_batch self.now.stands batch.now ≡ Ok self.now.tried }
        ensures { IfOk result (λ found. IfSome found (λ difference. AreSizesOf self.now.tried difference.sizes)) }
    {
        let (old, new) = (self.programs.stands(), self.programs.tried());
        find_difference(self.alloc, old, batch, new, self.sizes)
    }

    /// The new program stands from now on, and has these sizes.
    pub fn accept(&mut self, sizes: Sizes)
        requires { AreSizesOf self.old.tried sizes }
    {
        self.programs.accept();
        self.sizes = sizes;
    }
}
