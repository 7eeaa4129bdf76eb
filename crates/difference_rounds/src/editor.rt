ghost use Rattle.std.specs.Prelude.{◌≡◌, Ok};
ghost use Rattle.dt_definitions.specs.Step.{step_batch};

use dt_definitions::{Batch, BatchFault, Program, TwoPrograms};
use dt_graph::Steps;
use dt_propagate::{ChangeFault, Sizes, changes_counted};
use dt_scratch::Change;
use dt_trials::Fault;
use std::alloc::Global;
use std::marker::Model;
use std::sync::ledger::Ledger;

/// What became of a batch.
#[derive(Drop)]
pub enum Told {
    /// What it changes, and in how many steps that was found.
    Changes { changes: Vec<Change>, steps: u64 },
    /// An edit was refused.
    Refused,
    /// The new program would have too many cells, or too many rows.
    Full { fault: ChangeFault },
}

/// A program, and a batch that is tried, each with its sizes.
#[derive(Drop)]
pub struct Editor {
    two: TwoPrograms,
    // Those of the program that stands.
    sizes: Sizes,
    // Those of the program that is tried, where it was told what the batch changes.
    tried: Option<Sizes>,
}

impl Model for Editor {
    ghost use Rattle.std.specs.Prelude.{IfSome};
    ghost use Rattle.dt_definitions.specs.TwoPrograms.{Two};
    ghost use Rattle.dt_propagate.specs.Limits.{AreSizesOf};

    ghost Value = { Two };

    ghost view = { λ e. e.two };

    ghost invariant = { λ e. AreSizesOf e.two.stands e.sizes × IfSome e.tried (AreSizesOf e.two.tried) };
}

impl Editor {
    /// The empty program.
    pub fn new(alloc: Global) -> Result<Editor, Fault> {
        let two = TwoPrograms::new(alloc)?;
        Ok(Editor {
            two,
            sizes: Sizes::none(),
            tried: None,
        })
    }

    // Asks what the batch that is tried changes.
    fn ask<L: Ledger>(
        &mut self,
        alloc: Global,
        batch: &Batch,
        steps: &mut Steps<L>,
    ) -> Result<Told, Fault>
        requires { step_batch self.old.stands batch.now ≡ Ok self.old.tried }
    {
        let mut sizes = self.sizes;
        match changes_counted(
            alloc,
            self.two.stands(),
            batch,
            self.two.tried(),
            &mut sizes,
            steps,
        ) {
            Ok((changes, steps)) => {
                self.tried = Some(sizes);
                Ok(Told::Changes { changes, steps })
            }
            Err(ChangeFault::NoMemory) => Err(Fault::NoMemory),
            Err(fault) => Ok(Told::Full { fault }),
        }
    }

    /// Tries a batch, and tells what it changes; nothing is kept yet.
    pub fn try_batch<L: Ledger>(
        &mut self,
        alloc: Global,
        batch: &Batch,
        steps: &mut Steps<L>,
    ) -> Result<Told, Fault> {
        let copy = batch.copy()?;
        self.tried = None;
        match self.two.try_batch(copy) {
            Ok(()) => self.ask(alloc, batch, steps),
            Err(BatchFault::Refused { .. }) => Ok(Told::Refused),
            Err(BatchFault::NoMemory) => Err(Fault::NoMemory),
        }
    }

    /// The program that stands.
    pub fn stands(&self) -> &Program {
        self.two.stands()
    }

    /// The program after the batch that is tried.
    pub fn tried(&self) -> &Program {
        self.two.tried()
    }

    /// Keeps the batch that is tried, where it was told what it changes, and else takes it back.
    pub fn accept(&mut self) {
        match self.tried {
            Some(sizes) => {
                self.two.accept();
                self.sizes = sizes;
            }
            None => self.two.refuse(),
        }
        self.tried = None;
    }

    /// Takes it back.
    pub fn refuse(&mut self) {
        self.tried = None;
        self.two.refuse();
    }
}
