ghost use Rattle.std.specs.Prelude.{◌≡◌, ◌≤◌, [], OnOk};
ghost use Rattle.std.specs.Io.KnownBytes.{Appends};
ghost use Rattle.dt_outside.specs.Faults.{IsCounted};
ghost use Rattle.dt_outside.specs.Putting.{AppendsPrefix};
ghost use Rattle.dt_run.specs.FaultText.{fault_text, numbered_text};
ghost use Rattle.dt_run.specs.Putting.{Puts};

use crate::print::put_buffer::PutBuffer;
use crate::print::words::{LogWord, put_line};
use dt_outside::{Failed, Sink};
use dt_script::ScriptFault;

// Puts bytes, a space, a number and a line feed.
fn put_numbered<K: Sink>(
    out: &mut PutBuffer,
    sink: &mut K,
    first: &[u8],
    number: u32,
) -> Result<(), Failed>
    ensures { Puts K.taken K.faults result sink.old out.old sink.new out.new (numbered_text first.now number) }
{
    put_line(out, sink, first, &[LogWord::Number(u64::from(number))])
}

// Puts the line of a fault.
fn put_fault_line<K: Sink>(
    out: &mut PutBuffer,
    sink: &mut K,
    fault: ScriptFault,
) -> Result<(), Failed>
    ensures { Puts K.taken K.faults result sink.old out.old sink.new out.new (fault_text fault) }
{
    match fault {
        ScriptFault::ReadFault => out.put(sink, b"fault read\n"),
        ScriptFault::TooLong => out.put(sink, b"fault too-long\n"),
        ScriptFault::NoHeader => out.put(sink, b"fault no-header\n"),
        ScriptFault::Malformed { line } => put_numbered(out, sink, b"fault malformed", line),
        ScriptFault::NamesFull { line } => put_numbered(out, sink, b"fault names-full", line),
        ScriptFault::NoEnd => out.put(sink, b"fault no-end\n"),
        ScriptFault::NoMemory => out.put(sink, b"fault memory\n"),
    }
}

// Puts the line of a fault to a sink that nothing is held for. It takes no memory.
pub(crate) fn print_fault<K: Sink>(sink: &mut K, fault: ScriptFault) -> Result<(), Failed>
    ensures ok { OnOk result (Appends (K.taken sink.old) (K.taken sink.new) (fault_text fault)) }
    ensures prefix { AppendsPrefix (K.taken sink.old) (K.taken sink.new) (fault_text fault) }
    ensures counted { IsCounted result (K.faults sink.old) (K.faults sink.new) }
    ensures counts { K.faults sink.old ≤ K.faults sink.new }
{
    let mut out = PutBuffer::new();
    put_fault_line(&mut out, sink, fault)?;
    out.flush(sink)
}
