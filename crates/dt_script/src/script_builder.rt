ghost use Rattle.std.specs.Prelude.{◌≡◌, ◌<◌, ◌≤◌, ◌+◌, ◌^◌, [], IfOk, OnOk};
ghost use Rattle.dt_script.specs.ScriptBuilder.{open_length, Holds, Takes, batches_with, parts_with, script_in};
ghost use Rattle.dt_script.specs.declared.line.Line.TheVariants as line;

use crate::batches_builder::BatchesBuilder;
use crate::line::Line;
use crate::meaning::Meaning;
use crate::name_book::NameBook;
use crate::parts_builder::PartsBuilder;
use crate::script::{Phase, Script};
use dt_definitions::NoMemory;
use std::alloc::Global;
use std::mem;

/// The script of the lines so far, without its names: the phases that have ended, and what the last one has.
#[derive(Drop)]
pub struct ScriptBuilder {
    pub phases: Vec<Phase>,
    pub batches: BatchesBuilder,
    pub parts: PartsBuilder,
}

impl ScriptBuilder {
    /// No line yet.
    pub fn new(alloc: Global) -> ScriptBuilder
        ensures holds { Holds result [] }
        ensures current { open_length result.batches.current ≡ 0 }
    {
        ScriptBuilder {
            phases: Vec::new(alloc),
            batches: BatchesBuilder::new(alloc),
            parts: PartsBuilder::new(alloc),
        }
    }

    /// Takes the line behind the others.
    pub fn take(&mut self, alloc: Global, line: Line) -> Result<(), NoMemory>
        requires { open_length self.old.batches.current < 2 ^ 31 }
        ensures taken { OnOk result (Takes self.old line self.new) }
        ensures grown { OnOk result (open_length self.new.batches.current ≤ open_length self.old.batches.current + 1) }
    {
        match Meaning::of(line) {
            Meaning::Edit { edit } => self.batches.push(alloc, edit),
            Meaning::Begin => {
                self.batches.begin(alloc);
                Ok(())
            }
            Meaning::Commit => self.batches.commit(alloc),
            Meaning::Phase => self.next_phase(alloc),
            Meaning::Caller { caller } => self.parts.begin(alloc, caller),
            Meaning::CallerLine { line } => self.parts.push(line),
            Meaning::Nothing => Ok(()),
        }
    }

    // Ends the phase, and begins the next.
    fn next_phase(&mut self, alloc: Global) -> Result<(), NoMemory>
        ensures taken { OnOk result (Takes self.old line.Phase self.new) }
        ensures current { open_length self.new.batches.current ≡ 0 }
    {
        let batches = mem::replace(&mut self.batches, BatchesBuilder::new(alloc));
        let parts = mem::replace(&mut self.parts, PartsBuilder::new(alloc));
        let phase = phase_of(batches, parts)?;
        self.phases.push(phase)?;
        Ok(())
    }

    /// The script of the lines, whose names these are.
    pub fn finish(self, names: NameBook) -> Result<Script, NoMemory>
        ensures { IfOk result (λ script. script ≡ script_in names self) }
    {
        let ScriptBuilder {
            mut phases,
            batches,
            parts,
        } = self;
        let phase = phase_of(batches, parts)?;
        phases.push(phase)?;
        Ok(Script { names, phases })
    }
}

// The phase of its batches and callers.
fn phase_of(batches: BatchesBuilder, parts: PartsBuilder) -> Result<Phase, NoMemory>
    ensures { IfOk result (λ phase. phase ≡ record { edits = batches_with batches []; callers = parts_with parts [] }) }
{
    let edits = batches.finish()?;
    let callers = parts.finish()?;
    Ok(Phase { edits, callers })
}
