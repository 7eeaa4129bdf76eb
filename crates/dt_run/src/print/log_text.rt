ghost use Rattle.std.specs.Prelude.{◌≡◌, ◌≤◌, flat_map, IsTrue, OnOk};
ghost use Rattle.dt_outside.specs.Faults.{IsCounted};
ghost use Rattle.dt_run.specs.Text.{is_named, words_of_phase_line, words_of_call_line};
ghost use Rattle.dt_run.specs.Printed.{TookText, TookPrefix};
ghost use Rattle.dt_run.specs.Putting.{Puts, line_text, edits_text, part_text, phase_text, phases_text, log_text};

use crate::log::{CallLine, EditLine, Log, PartLog, PhaseLog};
use crate::print::call_line::put_call_line;
use crate::print::edit_line::put_edit_line;
use crate::print::put_buffer::PutBuffer;
use crate::print::words::{LogWord, put_line};
use dt_outside::{Failed, Sink};
use dt_script::NameBook;

/// Puts the text of the log: for each phase its first line, a line for each batch and the lines of its callers, and a line
/// with the last version at the end. Each number of a class or a body in the log has a name. It takes no memory, and puts
/// the text in pieces of some 16 KiB, each before the next is made.
///
/// # Errors
///
/// [`Failed`] where the sink failed; it took a prefix of the text then, and isn't called again.
pub fn print_log<K: Sink>(log: &Log, names: &NameBook, sink: &mut K) -> Result<(), Failed>
    requires { IsTrue (is_named names.now log.now) }
    ensures ok { OnOk result (TookText names.now log.now (K.taken sink.old) (K.taken sink.new)) }
    ensures prefix { TookPrefix names.now log.now (K.taken sink.old) (K.taken sink.new) }
    ensures counted { IsCounted result (K.faults sink.old) (K.faults sink.new) }
    ensures counts { K.faults sink.old ≤ K.faults sink.new }
{
    let mut out = PutBuffer::new();
    put_log(&mut out, sink, names, log)?;
    out.flush(sink)
}

// Puts the lines of the log.
fn put_log<K: Sink>(
    out: &mut PutBuffer,
    sink: &mut K,
    names: &NameBook,
    log: &Log,
) -> Result<(), Failed>
    ensures { Puts K.taken K.faults result sink.old out.old sink.new out.new (log_text names.now log.now) }
{
    put_phases(out, sink, names, &log.phases)?;
    put_line(out, sink, b"done", &[LogWord::Number(log.last)])
}

// Puts the lines of the phases.
fn put_phases<K: Sink>(
    out: &mut PutBuffer,
    sink: &mut K,
    names: &NameBook,
    phases: &[PhaseLog],
) -> Result<(), Failed>
    ensures { Puts K.taken K.faults result sink.old out.old sink.new out.new (phases_text names.now 1 phases.now) }
{
    for (place, phase) in phases.iter().enumerate() {
        put_phase(out, sink, names, place as u64 + 1, phase)?;
    }
    Ok(())
}

// Puts the lines of a phase, whose number is this.
fn put_phase<K: Sink>(
    out: &mut PutBuffer,
    sink: &mut K,
    names: &NameBook,
    number: u64,
    phase: &PhaseLog,
) -> Result<(), Failed>
    ensures { Puts K.taken K.faults result sink.old out.old sink.new out.new (phase_text names.now number phase.now) }
{
    put_phase_line(out, sink, names, number, phase)?;
    put_edit_lines(out, sink, names, &phase.edits)?;
    put_parts(out, sink, names, &phase.callers)
}

// Puts the first line of a phase, whose number is this.
fn put_phase_line<K: Sink>(
    out: &mut PutBuffer,
    sink: &mut K,
    names: &NameBook,
    number: u64,
    phase: &PhaseLog,
) -> Result<(), Failed>
    ensures { Puts K.taken K.faults result sink.old out.old sink.new out.new (line_text names.now (words_of_phase_line number phase.now)) }
{
    let from = LogWord::Number(phase.from);
    let to = LogWord::Number(phase.to);
    put_line(out, sink, b"phase", &[LogWord::Number(number), from, to])
}

// Puts the lines of batches.
fn put_edit_lines<K: Sink>(
    out: &mut PutBuffer,
    sink: &mut K,
    names: &NameBook,
    lines: &[EditLine],
) -> Result<(), Failed>
    ensures { Puts K.taken K.faults result sink.old out.old sink.new out.new (edits_text names.now lines.now) }
{
    for line in lines {
        put_edit_line(out, sink, names, *line)?;
    }
    Ok(())
}

// Puts the lines of callers.
fn put_parts<K: Sink>(
    out: &mut PutBuffer,
    sink: &mut K,
    names: &NameBook,
    parts: &[PartLog],
) -> Result<(), Failed>
    ensures { Puts K.taken K.faults result sink.old out.old sink.new out.new (flat_map (part_text names.now) parts.now) }
{
    for part in parts {
        put_part(out, sink, names, part)?;
    }
    Ok(())
}

// Puts the lines of a caller.
fn put_part<K: Sink>(
    out: &mut PutBuffer,
    sink: &mut K,
    names: &NameBook,
    part: &PartLog,
) -> Result<(), Failed>
    ensures { Puts K.taken K.faults result sink.old out.old sink.new out.new (part_text names.now part.now) }
{
    put_call_lines(out, sink, names, part.caller, &part.lines)
}

// Puts lines of this caller.
fn put_call_lines<K: Sink>(
    out: &mut PutBuffer,
    sink: &mut K,
    names: &NameBook,
    caller: u16,
    lines: &[CallLine],
) -> Result<(), Failed>
    ensures { Puts K.taken K.faults result sink.old out.old sink.new out.new (flat_map (λ line. line_text names.now (words_of_call_line caller line)) lines.now) }
{
    for line in lines {
        put_call_line(out, sink, names, caller, *line)?;
    }
    Ok(())
}
