ghost use Rattle.std.specs.Prelude.{◌≡◌, [], None, Some, IfOk, OnOk};
ghost use Rattle.dt_script.specs.ScriptBuilder.{HasParts, closed_parts, with_line, parts_with};

use crate::line::CallerLine;
use crate::script::Part;
use dt_definitions::NoMemory;
use std::alloc::Global;
use std::mem;

/// The callers of a phase so far: those whose lines are all there, and the one whose lines may follow, if one is.
#[derive(Drop)]
pub struct PartsBuilder {
    pub closed: Vec<Part>,
    pub current: Option<Part>,
}

impl PartsBuilder {
    /// No caller yet.
    pub fn new(alloc: Global) -> PartsBuilder
        ensures closed { result.closed.items ≡ [] }
        ensures current { result.current ≡ None }
    {
        PartsBuilder {
            closed: Vec::new(alloc),
            current: None,
        }
    }

    /// The lines that follow are this caller's.
    pub fn begin(&mut self, alloc: Global, caller: u16) -> Result<(), NoMemory>
        ensures { OnOk result (HasParts self.new (closed_parts self.old.current self.old.closed.items) (Some (record { caller = caller; lines = [] }))) }
    {
        let next = Part {
            caller,
            lines: Vec::new(alloc),
        };
        if let Some(part) = mem::replace(&mut self.current, Some(next)) {
            self.closed.push(part)?;
        }
        Ok(())
    }

    /// Puts the line last of the caller whose lines follow; where there is none, the line is nobody's.
    pub fn push(&mut self, line: CallerLine) -> Result<(), NoMemory>
        ensures { OnOk result (HasParts self.new self.old.closed.items (with_line self.old.current line)) }
    {
        if let Some(part) = &mut self.current {
            part.lines.push(line)?;
        }
        Ok(())
    }

    /// All callers.
    pub fn finish(self) -> Result<Vec<Part>, NoMemory>
        ensures { IfOk result (λ parts. parts.items ≡ parts_with self []) }
    {
        let PartsBuilder {
            mut closed,
            current,
        } = self;
        if let Some(part) = current {
            closed.push(part)?;
        }
        Ok(closed)
    }
}
