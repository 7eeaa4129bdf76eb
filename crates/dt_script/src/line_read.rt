ghost use Rattle.std.specs.Prelude.{◌≡◌, ◌↔◌, not, IsTrue, Ok, Err, None, IfOk, IfSome, IsErrOf};
ghost use Rattle.dt_script.specs.NameBook as book;
ghost use Rattle.dt_script.specs.NameBook.{is_within_limits};
ghost use Rattle.dt_script.specs.Growth.{GrewAtEnd};
ghost use Rattle.dt_script.specs.Line.{LineOf};
ghost use Rattle.dt_script.specs.LineRead.{IsAnswerTo};
ghost use Rattle.dt_script.specs.Lines.{is_silent};

use crate::laws::spellings_have_one_line;
use crate::line::Line;
use crate::name_book::NameBook;
use crate::numbered_line::number_line;
use crate::written_line::written_line;
use dt_selectors::NameFault;
use std::alloc::Global;
use thiserror::Error;

/// Why bytes give no line.
#[derive(Clone, Copy, Debug, PartialEq, Eq, Error)]
pub enum LineFault {
    /// No line is spelled so.
    #[error("no line is spelled so")]
    Malformed,
    /// The line has a new name, and there are as many names of its kind as there may be.
    #[error("there are as many names as there may be")]
    NamesFull,
    /// Memory was wanted, and none was found.
    #[error("no memory")]
    NoMemory,
}

/// The line that is spelled so, without its line feed; `None` exactly for a line that means nothing: an empty one, or one
/// that begins with `#`. New names are numbered from left to right, after those before, which keep their numbers whatever
/// the answer. It takes memory.
///
/// The cost grows with the bytes, and with one hash a name.
///
/// # Errors
///
/// [`LineFault::Malformed`] exactly where the bytes mean something and no line is spelled so; the names are as
/// they were then.
/// [`LineFault::NamesFull`] exactly where there is such a line and its new names are more than there may be, and
/// [`LineFault::NoMemory`] only where there is such a line. After either there may be names more: of the line's own new
/// names of each kind the first, and no others.
pub fn read_line(
    alloc: Global,
    bytes: &[u8],
    names: &mut NameBook,
) -> Result<Option<Line>, LineFault>
    ensures silent { (result ≡ Ok None) ↔ IsTrue (is_silent bytes.now) }
    ensures silent_names { result ≡ Ok None → names.new ≡ names.old }
    ensures line { IfOk result (λ meant. IfSome meant (λ line. LineOf bytes.now names.old line names.new)) }
    ensures fits { IsTrue (is_within_limits names.new) }
    ensures malformed { IsErrOf result LineFault.Malformed
        → (line : Line) (after : book.NameBook) → LineOf bytes.now names.old line after → ⊥ }
    ensures malformed_names { IsErrOf result LineFault.Malformed → names.new ≡ names.old }
    ensures full { IsErrOf result LineFault.NamesFull → (line : Line) × (after : book.NameBook)
        × LineOf bytes.now names.old line after × IsTrue (not (is_within_limits after)) }
    ensures no_memory { IsErrOf result LineFault.NoMemory → (line : Line) × (after : book.NameBook)
        × LineOf bytes.now names.old line after }
    ensures grew { GrewAtEnd names.old names.new }
    ensures own { (line : Line) (after : book.NameBook) → LineOf bytes.now names.old line after → GrewAtEnd names.new after }
    ensures exact { (line : Line) (after : book.NameBook) → LineOf bytes.now names.old line after
        → IsAnswerTo line after result names.new }
{
    names.law();
    spellings_have_one_line();
    if is_silent(bytes) {
        return Ok(None);
    }
    let Some(written) = written_line(bytes) else {
        return Err(LineFault::Malformed);
    };
    match number_line(alloc, names, &written) {
        Ok(line) => Ok(Some(line)),
        Err(NameFault::NamesFull) => Err(LineFault::NamesFull),
        Err(NameFault::NoMemory) => Err(LineFault::NoMemory),
    }
}

/// Whether the line means nothing.
pub fn is_silent(bytes: &[u8]) -> bool
    ensures { result ≡ is_silent bytes.now }
{
    match *bytes {
        [] => true,
        [first, ..] => first == b'#',
    }
}
