ghost use Rattle.std.specs.Prelude.{◌≡◌, ◌≤◌, ◌&&◌, not, nat_le, List, [], ◌∷◌, IsTrue};
ghost use Rattle.dt_script.specs.NameBook.{NameBook};
ghost use Rattle.dt_script.specs.Written.{line_in, is_written_in_range};
ghost use Rattle.dt_script.specs.Place.{is_in_batch, caller_after, has_stood, may_pin, may_unpin, may_stand, StandsAfter};
ghost use Rattle.dt_script.specs.declared.limits.TheConstants.{CALLERS};
ghost use Rattle.dt_script.specs.declared.line.Line.{Line};

use crate::callers::Callers;
use crate::written::Written;

/// What the lines so far say of where the next one may stand. It takes the same space after however many lines.
#[derive(Drop)]
pub struct Places {
    // Whether no line stood yet.
    is_first: bool,
    // Whether a batch is open.
    in_batch: bool,
    // The callers of this phase, and their pins.
    callers: Callers,
    // Whether the script has ended.
    ended: bool,
}

impl Places {
    /// Before the first line.
    pub fn new() -> Places
        ensures { StandsAfter result [] }
    {
        Places {
            is_first: true,
            in_batch: false,
            callers: Callers::new(),
            ended: false,
        }
    }

    /// Whether the line may stand next, in a script for so many readers.
    pub fn may_stand(&self, readers: u16, line: &Written<'_>) -> bool
        requires { readers ≤ CALLERS }
        ensures { (past : List Line) → StandsAfter self.now past → (book : NameBook)
            → result ≡ may_stand readers past (line_in book line.now) }
    {
        if self.ended {
            return false;
        }
        match line {
            Written::Header => self.is_first,
            Written::Begin => self.callers.current.is_none() && !self.in_batch,
            Written::Commit => self.in_batch,
            Written::Phase => !self.in_batch,
            Written::Caller { caller } => self.may_begin(readers, *caller),
            Written::Call { .. } => self.callers.current.is_some(),
            Written::Pin => self.callers.has_pin() == Some(false),
            Written::Unpin => self.callers.has_pin() == Some(true),
            Written::End => !self.in_batch,
            _ => self.callers.current.is_none(),
        }
    }

    // Whether the lines of this caller may follow.
    fn may_begin(&self, readers: u16, caller: u16) -> bool
        requires { readers ≤ CALLERS }
        ensures { (past : List Line) → StandsAfter self.now past
            → result ≡ (not (is_in_batch past) && (nat_le caller readers && not (has_stood caller past))) }
    {
        if self.in_batch || caller > readers {
            return false;
        }
        !self.callers.stood.contains(caller)
    }

    /// The line stands from now on.
    pub fn take(&mut self, line: &Written<'_>)
        requires { IsTrue (is_written_in_range line.now) }
        ensures { (past : List Line) (book : NameBook) → StandsAfter self.old past
            → StandsAfter self.new (line_in book line.now ∷ past) }
    {
        self.is_first = false;
        self.ended = matches!(line, Written::End);
        match line {
            Written::Begin => self.in_batch = true,
            Written::Commit => self.in_batch = false,
            Written::Phase => self.callers.next_phase(),
            Written::Caller { caller } => self.callers.begin(*caller),
            Written::Pin => self.callers.pin(),
            Written::Unpin => self.callers.unpin(),
            _ => {}
        }
    }
}
