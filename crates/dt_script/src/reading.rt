ghost use Rattle.std.specs.Prelude.{◌≡◌, ◌<◌, ◌≤◌, ◌+◌, ◌^◌, ℕ, List, [], ◌∷◌, not, true, false, IsTrue, Some, IfOk, IfErr, OnOk, IfSome, ◌⊎◌};
ghost use Rattle.std.specs.List.{list_all};
ghost use Rattle.dt_selectors.specs.Names.{is_name};
ghost use Rattle.dt_script.specs.NameBook as book;
ghost use Rattle.dt_script.specs.NameBook.{is_within_limits};
ghost use Rattle.dt_script.specs.Line.{LineOf};
ghost use Rattle.dt_script.specs.Lines.{is_silent};
ghost use Rattle.dt_script.specs.Place.{may_stand, has_ended, StandsAfter};
ghost use Rattle.dt_script.specs.Written.{texts_of, tokens_of, with_tokens, is_written_in_range, line_in};
ghost use Rattle.dt_script.specs.WrittenLine.{IsWrittenLine};
ghost use Rattle.dt_script.specs.NumberedLine.{IsLineNumbered};
ghost use Rattle.dt_script.specs.ScriptBuilder.{open_length, script_in};
ghost use Rattle.dt_script.specs.Reading.{HasRead, TakesWritten, IsFaultAt};
ghost use Rattle.dt_script.specs.declared.limits.TheConstants.{CALLERS};

use crate::line::Line;
use crate::line_read::is_silent;
use crate::name_book::NameBook;
use crate::numbered_line::number_line;
use crate::place::Places;
use crate::script::Script;
use crate::script_builder::ScriptBuilder;
use crate::script_fault::ScriptFault;
use crate::written::Written;
use crate::written_line::written_line;
use dt_definitions::NoMemory;
use dt_selectors::NameFault;
use std::alloc::Global;

/// The script of the lines so far: their names, what they say of the next line's place, and what they built.
#[derive(Drop)]
pub struct Reading {
    pub names: NameBook,
    pub places: Places,
    pub ended: bool,
    pub builder: ScriptBuilder,
}

impl Reading {
    /// After the header.
    pub fn new(alloc: Global) -> Result<Reading, NoMemory>
        ensures { IfOk result (λ reading. (readers : ℕ) → HasRead readers reading [] (Line.Header ∷ [])) }
    {
        let names = NameBook::new(alloc)?;
        Ok(Reading {
            names,
            places: after_header(),
            ended: false,
            builder: ScriptBuilder::new(alloc),
        })
    }

    /// Reads the line of this number.
    pub fn read(
        &mut self,
        alloc: Global,
        readers: u16,
        number: u32,
        text: &[u8],
    ) -> Result<(), ScriptFault>
        requires readers { readers ≤ CALLERS }
        requires few { open_length self.old.builder.batches.current < 2 ^ 31 }
        ensures read { OnOk result ((texts : List (List ℕ)) (past : List Line) → HasRead readers self.old texts past
            → (now : List Line) × HasRead readers self.new (text.now ∷ texts) now) }
        ensures fault { IfErr result (λ fault. (texts : List (List ℕ)) (past : List Line)
            → HasRead readers self.old texts past → IsFaultAt readers text.now self.old.names past number fault) }
    {
        if is_silent(text) {
            return Ok(());
        }
        let Some(line) = written_line(text) else {
            return Err(ScriptFault::Malformed { line: number });
        };
        if !self.places.may_stand(readers, &line) {
            return Err(ScriptFault::Malformed { line: number });
        }
        self.take(alloc, number, &line)
    }

    /// The script of all lines; `NoEnd` where the last is not its end.
    pub fn finish(self) -> Result<Script, ScriptFault>
        ensures script { IfOk result (λ script. script ≡ script_in self.names self.builder) }
        ensures ended { OnOk result (self.ended ≡ true) }
        ensures fault { IfErr result (λ fault. (fault ≡ ScriptFault.NoMemory)
            ⊎ ((fault ≡ ScriptFault.NoEnd) × (self.ended ≡ false))) }
    {
        let Reading {
            names,
            places: _,
            ended,
            builder,
        } = self;
        if !ended {
            return Err(ScriptFault::NoEnd);
        }
        match builder.finish(names) {
            Ok(script) => Ok(script),
            Err(NoMemory) => Err(ScriptFault::NoMemory),
        }
    }

    // Takes a line that may stand.
    fn take(&mut self, alloc: Global, number: u32, line: &Written<'_>) -> Result<(), ScriptFault>
        requires names { IsTrue (list_all is_name (texts_of line.now)) }
        requires in_range { IsTrue (is_written_in_range line.now) }
        requires few { open_length self.old.builder.batches.current < 2 ^ 31 }
        ensures taken { OnOk result (TakesWritten self.old line.now self.new) }
        ensures full { IfErr result (λ fault. (fault ≡ ScriptFault.NoMemory) ⊎ ((fault ≡ ScriptFault.NamesFull number)
            × IsTrue (not (is_within_limits (with_tokens self.old.names (tokens_of line.now)))))) }
    {
        let numbered = match number_line(alloc, &mut self.names, line) {
            Ok(numbered) => numbered,
            Err(NameFault::NamesFull) => return Err(ScriptFault::NamesFull { line: number }),
            Err(NameFault::NoMemory) => return Err(ScriptFault::NoMemory),
        };
        self.places.take(line);
        self.ended = is_end(line);
        match self.builder.take(alloc, numbered) {
            Ok(()) => Ok(()),
            Err(NoMemory) => Err(ScriptFault::NoMemory),
        }
    }
}

// The places after the header.
fn after_header() -> Places
    ensures { StandsAfter result (Line.Header ∷ []) }
{
    let mut places = Places::new();
    if let Some(header) = written_line(b"dispatch 1") {
        places.take(&header);
    }
    places
}

// Whether the line is the end of a script.
fn is_end(line: &Written<'_>) -> bool
    ensures { (past : List Line) (names : book.NameBook) → result ≡ has_ended (line_in names line.now ∷ past) }
{
    matches!(line, Written::End)
}
