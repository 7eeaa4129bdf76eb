ghost use Rattle.std.specs.Prelude.{◌≡◌, ◌+◌, ◌≤◌, ◌⊎◌, ℕ, None, Some, IfSome, IfErr, map, drop, string_bytes};
ghost use Rattle.std.specs.Vec.Iter.{into_iter_items};
ghost use Rattle.std.specs.IoError.{error_kind};
ghost use Rattle.dt_outside.specs.Faults.{Rose};
ghost use Rattle.dt_outside.specs.Losing.{LosesAtMost};
ghost use Rattle.dt_script.specs.declared.limits.TheConstants.{SCRIPT_BYTES};
ghost use Rattle.dt_run.specs.Run.{IsScript, IsNoScript};
ghost use Rattle.dt_run.specs.Ending.{outside, readers_of, IsGeneration, EndsAs};
ghost use Rattle.dt_words.specs.CommandOf.{command_of};
ghost use Rattle.dispatch_cli.specs.Arguments.{words_in};

use crate::command_line::words_of;
use dt_graph::NoMemory;
use dt_outside::{Sink, Source};
use dt_run::{OpenTurnstile, Status, run};
use std::alloc::Global;
use std::env::Args;
use std::io;
use std::io::ErrorKind;
use std::thread::Threads;

/// The whole program over what the machine gives: its arguments, of which the first is the program's name, where the
/// script comes from, and where the text goes to. Tells the exit status. Arguments that aren't text are no words.
pub fn exit_status<H: Threads + Sync, S: Source, K: Sink>(
    rt: &H,
    alloc: Global,
    args: io::Result<Args>,
    source: &mut S,
    sink: &mut K,
) -> u8
    // How it ends: as a run does; or memory was wanted for the words, and nothing was read or put.
    ensures ends { EndsAs (words_in (λ all. drop 1 (map string_bytes (into_iter_items all))) args)
        ((source.new ≡ source.old) × (sink.new ≡ sink.old)) result
        (outside (S.left source.old) (S.faults source.old) (K.taken sink.old) (K.faults sink.old))
        (outside (S.left source.new) (S.faults source.new) (K.taken sink.new) (K.faults sink.new)) }

    // Where the machine finds no memory for its arguments, nothing is read or put.
    ensures no_memory_for_words { IfErr args (λ error. error_kind error ≡ ErrorKind.OutOfMemory
        → (result ≡ 6) × (source.new ≡ source.old) × (sink.new ≡ sink.old)) }

    // The words decide whether there is a command, unless memory is wanted; where they ask for no script of the source's,
    // nothing is read.
    ensures usage { command_of (words_in (λ all. drop 1 (map string_bytes (into_iter_items all))) args) ≡ None
        → (result ≡ 2) ⊎ (result ≡ 6) }
    ensures unread { readers_of (words_in (λ all. drop 1 (map string_bytes (into_iter_items all))) args) ≡ None
        → source.new ≡ source.old }

    // A fault of a script is always found, and a script is always performed, unless the outside fails or memory is
    // wanted.
    ensures script_always { (readers : ℕ)
        → readers_of (words_in (λ all. drop 1 (map string_bytes (into_iter_items all))) args) ≡ Some readers
        → (Rose (S.faults source.old) (S.faults source.new) → ⊥)
        → IfSome (S.left source.old) (λ bytes. IsNoScript readers bytes → (result ≡ 3) ⊎ (result ≡ 6)) }
    ensures complete { (readers : ℕ)
        → readers_of (words_in (λ all. drop 1 (map string_bytes (into_iter_items all))) args) ≡ Some readers
        → (Rose (S.faults source.old) (S.faults source.new) → ⊥)
        → (Rose (K.faults sink.old) (K.faults sink.new) → ⊥)
        → IfSome (S.left source.old) (λ bytes. IsScript readers bytes → (result ≡ 0) ⊎ (result ≡ 6)) }

    // A generated script is always performed, unless the sink fails or memory is wanted.
    ensures generated { IsGeneration (command_of (words_in (λ all. drop 1 (map string_bytes (into_iter_items all))) args))
        → (Rose (K.faults sink.old) (K.faults sink.new) → ⊥) → (result ≡ 0) ⊎ (result ≡ 6) }

    // What is read, and the counts.
    ensures reads_at_most { LosesAtMost (SCRIPT_BYTES + 1) (S.left source.old) (S.left source.new) }
    ensures source_counts { S.faults source.old ≤ S.faults source.new }
    ensures sink_counts { K.faults sink.old ≤ K.faults sink.new }
{
    let status = match words_of(alloc, args) {
        Ok(words) => run(rt, alloc, &words, source, sink, &OpenTurnstile).status,
        Err(NoMemory) => Status::NoMemory,
    };
    status.number()
}
