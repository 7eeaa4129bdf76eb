ghost use Rattle.std.specs.Prelude.{◌≡◌, ℕ, ◌+◌, ◌≤◌, ◌⊎◌, List, None, Some, IfSome};
ghost use Rattle.dt_outside.specs.Faults.{Rose};
ghost use Rattle.dt_outside.specs.Losing.{LosesAtMost};
ghost use Rattle.dt_script.specs.Named.{HasNames};
ghost use Rattle.dt_script.specs.Playable.{Playable};
ghost use Rattle.dt_script.specs.ScriptOf.{IsScriptOf};
ghost use Rattle.dt_script.specs.declared.limits.TheConstants.{CALLERS, SCRIPT_BYTES};
ghost use Rattle.dt_run.specs.Ending.{outside, readers_of, Ending, IsGeneration, RunEnding, Performed};
ghost use Rattle.dt_run.specs.Outcome.{Outcome};
ghost use Rattle.dt_run.specs.Run.{IsScript, IsNoScript};
ghost use Rattle.dt_words.specs.CommandOf.{command_of};
ghost use Rattle.dt_words.specs.declared.limits.TheConstants.{VERSIONS};

use crate::generating::generate_by;
use crate::log::Log;
use crate::perform::perform_script;
use crate::print::print_log;
use crate::ran::{Ran, end_with_fault, end_with_usage};
use crate::status::Status;
use crate::turnstile::Turnstile;
use dt_cells::{Pair, TableKind};
use dt_colour::Colour;
use dt_definitions::NoMemory;
use dt_mrd::Mrd;
use dt_outside::{Failed, Sink, Source};
use dt_row::Row;
use dt_script::{
    Script, ScriptFault, bytes_have_one_answer, read_script, scripts_read_are_playable,
};
use dt_sti::Sti;
use dt_words::{ArgWords, Command, Table, VERSIONS, WordsFault, read_words};
use std::alloc::Global;
use std::thread::Threads;

// Prints the log of a script, and hands it back.
fn print<K: Sink>(sink: &mut K, script: &Script, log: Log) -> Ran
    requires names { HasNames script.now }
    requires outcome { Outcome script.now VERSIONS log }
    ensures printed { (readers : ℕ) (bytes : List ℕ) → IsScriptOf readers bytes script.now
        → Performed readers bytes result.status result.log
        (outside None 0 (K.taken sink.old) (K.faults sink.old)) (outside None 0 (K.taken sink.new) (K.faults sink.new)) }
    ensures counts { K.faults sink.old ≤ K.faults sink.new }
{
    let status = match print_log(&log, &script.names, sink) {
        Ok(()) => Status::Done,
        Err(Failed) => Status::WriteFault,
    };
    Ran {
        status,
        log: Some(log),
    }
}

// Performs a script, and prints its log.
fn perform_and_print<Kind: TableKind, K: Sink, T: Turnstile>(
    alloc: Global,
    sink: &mut K,
    script: &Script,
    readers: u16,
    turnstile: &T,
) -> Ran
    requires kind { 1 ≤ Kind.kind.most_low }
    requires playable { Playable readers script.now }
    requires names { HasNames script.now }
    ensures ends { (bytes : List ℕ) → IsScriptOf readers bytes script.now
        → Performed readers bytes result.status result.log
        (outside None 0 (K.taken sink.old) (K.faults sink.old)) (outside None 0 (K.taken sink.new) (K.faults sink.new)) }
    ensures counts { K.faults sink.old ≤ K.faults sink.new }
{
    match perform_script::<Kind, T>(alloc, script, readers, VERSIONS, turnstile) {
        Ok(log) => print(sink, script, log),
        Err(NoMemory) => end_with_fault(sink, ScriptFault::NoMemory),
    }
}

// Reads the source to its end, performs the script that its bytes are, and prints the log.
fn run_source<Kind: TableKind, S: Source, K: Sink, T: Turnstile>(
    alloc: Global,
    source: &mut S,
    sink: &mut K,
    readers: u16,
    turnstile: &T,
) -> Ran
    requires kind { 1 ≤ Kind.kind.most_low }
    requires least { 1 ≤ readers }
    requires greatest { readers ≤ CALLERS }
    ensures ends { Ending readers result.status result.log
        (outside (S.left source.old) (S.faults source.old) (K.taken sink.old) (K.faults sink.old))
        (outside (S.left source.new) (S.faults source.new) (K.taken sink.new) (K.faults sink.new)) }
    ensures lost { LosesAtMost (SCRIPT_BYTES + 1) (S.left source.old) (S.left source.new) }
    ensures source_counts { S.faults source.old ≤ S.faults source.new }
    ensures sink_counts { K.faults sink.old ≤ K.faults sink.new }
{
    scripts_read_are_playable();
    match read_script(alloc, source, readers) {
        Ok(script) => perform_and_print::<Kind, K, T>(alloc, sink, &script, readers, turnstile),
        Err(fault) => end_with_fault(sink, fault),
    }
}

// The same by the kind of table that the words name, a line for each.
fn run_by<S: Source, K: Sink, T: Turnstile>(
    alloc: Global,
    table: Table,
    source: &mut S,
    sink: &mut K,
    readers: u16,
    turnstile: &T,
) -> Ran
    requires least { 1 ≤ readers }
    requires greatest { readers ≤ CALLERS }
    ensures ends { Ending readers result.status result.log
        (outside (S.left source.old) (S.faults source.old) (K.taken sink.old) (K.faults sink.old))
        (outside (S.left source.new) (S.faults source.new) (K.taken sink.new) (K.faults sink.new)) }
    ensures lost { LosesAtMost (SCRIPT_BYTES + 1) (S.left source.old) (S.left source.new) }
    ensures source_counts { S.faults source.old ≤ S.faults source.new }
    ensures sink_counts { K.faults sink.old ≤ K.faults sink.new }
{
    match table {
        Table::Sti => run_source::<Pair<Sti, Mrd>, S, K, T>(
            alloc, source, sink, readers, turnstile,
        ),
        Table::Colour => run_source::<Pair<Colour, Mrd>, S, K, T>(
            alloc, source, sink, readers, turnstile,
        ),
        Table::Row => run_source::<Pair<Row, Mrd>, S, K, T>(
            alloc, source, sink, readers, turnstile,
        ),
        Table::Mrd => run_source::<Mrd, S, K, T>(alloc, source, sink, readers, turnstile),
    }
}

/// Runs the program. The words ask for one of two things. `run` reads the source to its end, performs the script that its
/// bytes are, and prints the log to the sink. `gen` makes a script from a number, performs it, and prints the summary of
/// its log; nothing is read.
///
/// Each call is answered after the edits of its phase, or at the version of its caller's pin. Calls without a pin in force
/// are answered by the table: those with one argument by selector table indexing (`sti`), selector colouring (`colour`) or row
/// displacement (`row`), those with more by multiple row displacement; and with `mrd` all of them by that. Calls under a pin are
/// looked up from scratch. What is answered is the same.
///
/// The status tells how it ended. [`Status::Done`]: the log is an outcome of the script (of the one that the bytes are, for
/// as many readers as the words say; or of the generated one), and the sink took its text, or its summary.
/// [`Status::Usage`]: exactly where the words write no command and memory was found to read them; the source wasn't read.
/// [`Status::Script`]: the source gave more bytes than a script may have, or its bytes to the end have a fault, which is
/// told. [`Status::ReadFault`]: the source failed, and had given no more bytes than a script may have.
/// [`Status::WriteFault`]: the sink failed while the log or the summary was printed, and took a prefix of it.
/// [`Status::NoMemory`]: memory was wanted. Where the status is another than done or a write fault, the sink took the
/// text of the fault or the usage text, or a prefix of it where the sink failed. It starts no thread.
///
/// The source's count of faults is one more at a read fault, and else it stands as it was; the sink's is as it was at done
/// and one more at a write fault. Nothing is read after a fault, after the end, or after one byte more than a script may
/// have; and nothing is put after a fault. Printing takes no memory.
pub fn run<H: Threads + Sync, S: Source, K: Sink, T: Turnstile>(
    _rt: &H,
    alloc: Global,
    words: &ArgWords,
    source: &mut S,
    sink: &mut K,
    turnstile: &T,
) -> Ran
    // How it ends, command by command and status by status.
    ensures ends { RunEnding words.now result.status result.log
        (outside (S.left source.old) (S.faults source.old) (K.taken sink.old) (K.faults sink.old))
        (outside (S.left source.new) (S.faults source.new) (K.taken sink.new) (K.faults sink.new)) }

    // The words decide whether there is a command; where they ask for no script of the source's, nothing is read.
    ensures usage { command_of words.now ≡ None → (result.status ≡ Status.Usage) ⊎ (result.status ≡ Status.NoMemory) }
    ensures unread { readers_of words.now ≡ None → source.new ≡ source.old }

    // A fault of a script is always found, and a script is always performed, unless the outside fails or memory is
    // wanted.
    ensures script_always { (readers : ℕ) → readers_of words.now ≡ Some readers
        → (Rose (S.faults source.old) (S.faults source.new) → ⊥)
        → IfSome (S.left source.old) (λ bytes. IsNoScript readers bytes
        → (result.status ≡ Status.Script) ⊎ (result.status ≡ Status.NoMemory)) }
    ensures complete { (readers : ℕ) → readers_of words.now ≡ Some readers
        → (Rose (S.faults source.old) (S.faults source.new) → ⊥)
        → (Rose (K.faults sink.old) (K.faults sink.new) → ⊥)
        → IfSome (S.left source.old) (λ bytes. IsScript readers bytes
        → (result.status ≡ Status.Done) ⊎ (result.status ≡ Status.NoMemory)) }

    // A generated script is always performed, unless the sink fails or memory is wanted.
    ensures generated { IsGeneration (command_of words.now) → (Rose (K.faults sink.old) (K.faults sink.new) → ⊥)
        → (result.status ≡ Status.Done) ⊎ (result.status ≡ Status.NoMemory) }

    // What is read, and the counts.
    ensures reads_at_most { LosesAtMost (SCRIPT_BYTES + 1) (S.left source.old) (S.left source.new) }
    ensures source_counts { S.faults source.old ≤ S.faults source.new }
    ensures sink_counts { K.faults sink.old ≤ K.faults sink.new }
{
    bytes_have_one_answer();
    match read_words(alloc, words) {
        Ok(Command::Run { table, limits }) => {
            run_by(alloc, table, source, sink, limits.readers(), turnstile)
        }
        Ok(
            Command::Gen {
                table,
                number,
                classes,
                selectors,
            },
        ) => generate_by(alloc, table, number, classes, selectors, sink, turnstile),
        Err(WordsFault::Usage) => end_with_usage(sink),
        Err(WordsFault::NoMemory) => end_with_fault(sink, ScriptFault::NoMemory),
    }
}
