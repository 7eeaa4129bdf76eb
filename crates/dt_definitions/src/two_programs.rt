ghost use Rattle.std.specs.Prelude.{◌≡◌, Ok, IfOk, IfErr, reverse};
ghost use Rattle.dt_definitions.specs.Program as shown;
ghost use Rattle.dt_definitions.specs.Program.{empty_program};
ghost use Rattle.dt_definitions.specs.SecondProgram.{tried_or, IsSecondOf};
ghost use Rattle.dt_definitions.specs.Step.{step_batch, AppliesBatch};
ghost use Rattle.dt_definitions.specs.TwoPrograms.{IsSettledAt};
ghost use Rattle.dt_definitions.specs.Undo.{undoing, LeadsBack};

use crate::batch::Batch;
use crate::edit::Edit;
use crate::program::Program;
use crate::why::BatchFault;
use dt_graph::NoMemory;
use std::alloc::Global;
use std::marker::Model;
use std::mem;

// The program beside the one that stands.
#[derive(Debug, Drop)]
enum Second {
    // It is behind the one that stands, by this batch.
    Behind {
        program: Program,
        batch: Batch,
    },
    // It is before the one that stands, by this batch, which is tried; with what was kept the batch is undone.
    Tried {
        program: Program,
        batch: Batch,
        kept: Vec<Edit>,
    },
    // There is none. A copy takes its place.
    Gone,
}

// The second program is this one. The old one is dropped here, so that no other function's proof takes its drop apart.
fn put(second: &mut Second, new: Second)
    ensures { second.new ≡ new }
{
    drop(mem::replace(second, new));
}

// What becomes of the second program where the batch that is tried on it is refused: it is behind by no edit. Where no room
// was found to undo the batch, it is gone.
fn undone(alloc: Global, mut program: Program, batch: Batch, kept: Vec<Edit>) -> Second
    ensures { (old : shown.Program) → LeadsBack program (undoing (reverse batch) (reverse kept.items)) old
        → IsSecondOf old result × (tried_or old result ≡ old) }
{
    if program.undo(&batch, kept).is_err() {
        return Second::Gone;
    }
    program.give_back(&batch);
    Second::Behind {
        program,
        batch: Batch::new(alloc),
    }
}

// Tries the batch on a program that is equal to the one that stands, and makes it the second.
fn try_on(
    alloc: Global,
    second: &mut Second,
    mut program: Program,
    batch: Batch,
) -> Result<(), BatchFault>
    ensures applies { AppliesBatch program batch (tried_or program second.new) result }
    ensures second { IsSecondOf program second.new }
{
    match program.apply_kept(&batch) {
        Ok(kept) => {
            let tried = Second::Tried {
                program,
                batch,
                kept,
            };
            put(second, tried);
            Ok(())
        }
        Err(fault) => {
            program.give_back(&batch);
            let behind = Second::Behind {
                program,
                batch: Batch::new(alloc),
            };
            put(second, behind);
            Err(fault)
        }
    }
}

/// A program as it stands, and the program after a batch that is tried. The batch is accepted or refused without
/// memory.
#[derive(Debug, Drop)]
pub struct TwoPrograms {
    alloc: Global,
    stands: Program,
    second: Second,
}

impl Model for TwoPrograms {
    ghost use Rattle.dt_definitions.specs.TwoPrograms.{Two};

    ghost Value = { Two };

    ghost use Rattle.dt_definitions.specs.SecondProgram.{tried_or, IsSecondOf};

    ghost view = { λ two. record { stands = two.stands; tried = tried_or two.stands two.second } };

    ghost invariant = { λ two. IsSecondOf two.stands two.second };
}

impl TwoPrograms {
    /// Two programs with nothing in them. [`NoMemory`] where none was found for the first; the second is made where a
    /// batch is first tried. It costs what [`Program::new`] does.
    pub fn new(alloc: Global) -> Result<TwoPrograms, NoMemory>
        ensures { IfOk result (λ two. IsSettledAt empty_program two) }
    {
        Ok(TwoPrograms {
            alloc,
            stands: Program::new(alloc)?,
            second: Second::Gone,
        })
    }

    /// The program that stands.
    pub fn stands(&self) -> &Program
        ensures { result.now ≡ self.now.stands }
    {
        &self.stands
    }

    /// The program after the batch that is tried; where none is, the program that stands.
    pub fn tried(&self) -> &Program
        ensures { result.now ≡ self.now.tried }
    {
        match &self.second {
            Second::Tried { program, .. } => program,
            _ => &self.stands,
        }
    }

    // Makes the batch that it is behind by on a program that was taken out. [`NoMemory`] where none was found; then it is
    // the second program.
    fn bring_up(&mut self, mut program: Program, batch: Batch) -> Result<Program, NoMemory>
        requires settled { IsSettledAt self.old.stands self.old }
        requires behind { step_batch program batch ≡ Ok self.old.stands }
        ensures second { IfOk result (λ program. program ≡ self.old.stands) }
        ensures stays { IsSettledAt self.old.stands self.new }
    {
        match program.apply_batch(&batch) {
            Ok(()) => {
                self.stands.give_back(&batch);
                Ok(program)
            }
            Err(_) => {
                put(&mut self.second, Second::Behind { program, batch });
                Err(NoMemory)
            }
        }
    }

    // Takes the second program out, equal to the one that stands. [`NoMemory`] where none was found; then both are as
    // they were.
    fn take_second(&mut self) -> Result<Program, NoMemory>
        requires { IsSettledAt self.old.stands self.old }
        ensures second { IfOk result (λ program. program ≡ self.old.stands) }
        ensures stays { IsSettledAt self.old.stands self.new }
    {
        match mem::replace(&mut self.second, Second::Gone) {
            Second::Behind { program, batch } => self.bring_up(program, batch),
            Second::Tried { program, .. } => Ok(program),
            Second::Gone => self.stands.copy(),
        }
    }

    /// Tries the batch on the second program, as [`Program::apply_batch`] does: it is the new program, or the first edit
    /// that is refused. A batch that is still tried is refused first. The program that stands stays; after a refusal or
    /// want of memory it is also the one that is tried.
    ///
    /// The second program is brought up with the batch that was last accepted first, so it costs what the two batches
    /// cost, each on one program. Memory may be wanted for the definitions of both and to keep what undoes them; and for
    /// the second program, at the first try, and after a refusal that found no room to undo its batch.
    pub fn try_batch(&mut self, batch: Batch) -> Result<(), BatchFault>
        ensures applies { AppliesBatch self.old.stands batch self.new.tried result }
        ensures stays { self.new.stands ≡ self.old.stands }
    {
        self.refuse();
        let Ok(program) = self.take_second() else {
            return Err(BatchFault::NoMemory);
        };
        try_on(self.alloc, &mut self.second, program, batch)
    }

    /// The new program stands from now on. It takes no memory, and time that doesn't grow with the programs or the batch:
    /// the second program is brought up where the next batch is tried.
    pub fn accept(&mut self)
        ensures { IsSettledAt self.old.tried self.new }
    {
        match mem::replace(&mut self.second, Second::Gone) {
            Second::Tried { program, batch, .. } => {
                let program = mem::replace(&mut self.stands, program);
                put(&mut self.second, Second::Behind { program, batch });
            }
            second => put(&mut self.second, second),
        }
    }

    /// The old program stands on. It takes no memory: the batch is undone in the second program, at its own cost.
    pub fn refuse(&mut self)
        ensures { IsSettledAt self.old.stands self.new }
    {
        let second = match mem::replace(&mut self.second, Second::Gone) {
            Second::Tried {
                program,
                batch,
                kept,
            } => undone(self.alloc, program, batch, kept),
            second => second,
        };
        put(&mut self.second, second);
    }
}
