ghost use Rattle.std.specs.Prelude.{◌≡◌, ◌≤◌, ◌+◌, ℕ, List, [], ◌∷◌, length, reverse, IfOk, IfErr, OnOk, IfSome, MatchOption, ◌⊎◌};
ghost use Rattle.dt_outside.specs.Faults.{Rose};
ghost use Rattle.dt_outside.specs.Losing.{LosesAtMost};
ghost use Rattle.dt_script.specs.Lines.{lines_of};
ghost use Rattle.dt_script.specs.ScriptOf.{HasHeader, IsScriptOf, IsFaultOf};
ghost use Rattle.dt_script.specs.ReadScript.{WasRead, IsFaultOfSource, IsFaultCounted, IsAnswerFor};
ghost use Rattle.dt_script.specs.Reading.{HasRead};
ghost use Rattle.dt_script.specs.declared.limits.TheConstants.{CALLERS, SCRIPT_BYTES};
ghost use Rattle.dt_script.specs.declared.line.Line.{Line};
ghost use Rattle.dt_script.specs.declared.line.Line.TheVariants.{Header};

use crate::limits::SCRIPT_BYTES;
use crate::lines::first_line;
use crate::one_answer::bytes_have_one_answer;
use crate::reading::Reading;
use crate::script::Script;
use crate::script_fault::ScriptFault;
use crate::words::is_word;
use dt_outside::{ReadFault, Source, read_to_end};
use std::alloc::Global;

/// The script that the source gives, for callers from 1 to `readers`, which is 1 to [`CALLERS`](crate::CALLERS). The source
/// is read to its end, or up to one byte more than a script may have. It takes memory: the bytes while they are read, and
/// room for the names, the batches and the lines of the callers; a batch of one edit takes room for one.
///
/// The cost grows with the bytes, and with one hash a name; no line is looked at twice.
///
/// # Errors
///
/// The first of these, in this order. [`ScriptFault::ReadFault`] where the source failed, whose count of faults is one
/// more then; [`ScriptFault::TooLong`] exactly where it gave one byte more than [`SCRIPT_BYTES`]. Else the bytes were
/// read to their end. [`ScriptFault::NoHeader`] where the first line isn't `dispatch 1`. [`ScriptFault::Malformed`] or
/// [`ScriptFault::NamesFull`] with the first line that has a fault: it is malformed where no line with its bytes may
/// stand there, and else its new names are more than there may be. [`ScriptFault::NoEnd`] where the last line that means
/// something isn't `end`. [`ScriptFault::NoMemory`] may come instead of any of these.
pub fn read_script<S: Source>(
    alloc: Global,
    source: &mut S,
    readers: u16,
) -> Result<Script, ScriptFault>
    requires least { 1 ≤ readers }
    requires greatest { readers ≤ CALLERS }
    ensures script { IfOk result (λ script. (bytes : List ℕ)
        × WasRead (S.left source.old) (S.left source.new) bytes × IsScriptOf readers bytes script) }
    ensures fault { IfErr result (IsFaultOfSource readers (S.left source.old) (S.left source.new)) }
    ensures exact { (Rose (S.faults source.old) (S.faults source.new) → ⊥) → IfSome (S.left source.old)
        (λ bytes. length bytes ≤ SCRIPT_BYTES → IsAnswerFor readers bytes result) }
    ensures lost { LosesAtMost (SCRIPT_BYTES + 1) (S.left source.old) (S.left source.new) }
    ensures counted { IsFaultCounted result (S.faults source.old) (S.faults source.new) }
    ensures counts { S.faults source.old ≤ S.faults source.new }
{
    bytes_have_one_answer();
    let bytes = match read_to_end(alloc, source, SCRIPT_BYTES) {
        Ok(bytes) => bytes,
        Err(ReadFault::Read) => return Err(ScriptFault::ReadFault),
        Err(ReadFault::TooLong) => return Err(ScriptFault::TooLong),
        Err(ReadFault::NoMemory) => return Err(ScriptFault::NoMemory),
    };
    script_of_bytes(alloc, &bytes, readers)
}

// The script that the bytes are.
fn script_of_bytes(alloc: Global, bytes: &[u8], readers: u16) -> Result<Script, ScriptFault>
    requires readers { readers ≤ CALLERS }
    requires short { length bytes.now ≤ SCRIPT_BYTES }
    ensures script { IfOk result (λ script. IsScriptOf readers bytes.now script) }
    ensures fault { IfErr result (λ fault. (fault ≡ ScriptFault.NoMemory) ⊎ IsFaultOf readers bytes.now fault) }
{
    let Some(lines) = after_header(bytes) else {
        return Err(ScriptFault::NoHeader);
    };
    let Ok(mut reading) = Reading::new(alloc) else {
        return Err(ScriptFault::NoMemory);
    };
    match read_lines(alloc, &mut reading, readers, lines) {
        Ok(()) => reading.finish(),
        Err(fault) => Err(fault),
    }
}

// The bytes after the header; `None` exactly where there is none.
fn after_header(bytes: &[u8]) -> Option<&[u8]>
    ensures header { MatchOption result ((texts : List (List ℕ)) → HasHeader bytes.now texts → ⊥)
        (λ lines. HasHeader bytes.now (lines_of lines.now)) }
    ensures shorter { IfSome result (λ lines. length lines.now ≤ length bytes.now) }
{
    if bytes.is_empty() {
        return None;
    }
    let (line, rest) = first_line(bytes);
    if is_word(line, b"dispatch 1") {
        Some(rest)
    } else {
        None
    }
}

// Reads the lines after the header.
fn read_lines(
    alloc: Global,
    reading: &mut Reading,
    readers: u16,
    lines: &[u8],
) -> Result<(), ScriptFault>
    requires readers { readers ≤ CALLERS }
    requires short { length lines.now ≤ SCRIPT_BYTES }
    requires header { HasRead readers reading.old [] (Header ∷ []) }
    ensures read { OnOk result ((past : List Line) × HasRead readers reading.new (reverse (lines_of lines.now)) past) }
    ensures fault { IfErr result (λ fault. (bytes : List ℕ) → HasHeader bytes (lines_of lines.now)
        → (fault ≡ ScriptFault.NoMemory) ⊎ IsFaultOf readers bytes fault) }
{
    let mut left = lines;
    let mut number = 1;
    while !left.is_empty() {
        let (text, rest) = first_line(left);
        number += 1;
        reading.read(alloc, readers, number, text)?;
        left = rest;
    }
    Ok(())
}
