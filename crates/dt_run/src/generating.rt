ghost use Rattle.std.specs.Prelude.{◌≡◌, ◌≤◌, None, IfOk};
ghost use Rattle.dt_graph.specs.declared.limits.TheConstants.{CLASSES};
ghost use Rattle.dt_script.specs.GeneratedLaws.{generated_script};
ghost use Rattle.dt_script.specs.Playable.{Playable};
ghost use Rattle.dt_selectors.specs.declared.limits.TheConstants.{SELECTORS};
ghost use Rattle.dt_run.specs.Ending.{outside, SummedEnding};
ghost use Rattle.dt_run.specs.Log as shown;
ghost use Rattle.dt_run.specs.Outcome.{Outcome};
ghost use Rattle.dt_run.specs.Summary.{IsCountable};
ghost use Rattle.dt_words.specs.declared.limits.TheConstants.{VERSIONS};

use crate::log::Log;
use crate::perform::perform_script;
use crate::print::print_summary;
use crate::ran::{Ran, end_with_fault};
use crate::status::Status;
use crate::turnstile::Turnstile;
use dt_cells::{Pair, TableKind};
use dt_colour::Colour;
use dt_definitions::NoMemory;
use dt_mrd::Mrd;
use dt_outside::{Failed, Sink, SureSource};
use dt_row::Row;
use dt_script::{
    Script, ScriptFault, bytes_have_one_answer, generated_texts_are_scripts, make_script,
    read_script, scripts_read_are_playable,
};
use dt_sti::Sti;
use dt_words::{Table, VERSIONS};
use std::alloc::Global;

// How many readers a generated script is for: it has as many callers.
const GENERATED_READERS: u16 = 4;

// The generated script: its text is made, and read as any other.
fn generate(alloc: Global, number: u32, classes: u16, selectors: u16) -> Result<Script, NoMemory>
    requires two_classes { 2 ≤ classes }
    requires classes_in_range { classes ≤ CLASSES }
    requires one_selector { 1 ≤ selectors }
    requires selectors_in_range { selectors ≤ SELECTORS }
    ensures { IfOk result (λ script. script ≡ generated_script number classes selectors) }
{
    bytes_have_one_answer();
    generated_texts_are_scripts();
    let text = make_script(alloc, number, classes, selectors)?;
    let mut source = SureSource::new(text);
    match read_script(alloc, &mut source, GENERATED_READERS) {
        Ok(script) => Ok(script),
        // The text is a script, and the source never fails: what was wanted is memory.
        Err(_fault) => Err(NoMemory),
    }
}

// Prints the summary of a script's log, and hands the log back.
fn sum_up<K: Sink>(sink: &mut K, script: &Script, log: Log) -> Ran
    requires countable { IsCountable log }
    requires outcome { Outcome script.now VERSIONS log }
    ensures ends { SummedEnding script.now result.status result.log
        (outside None 0 (K.taken sink.old) (K.faults sink.old)) (outside None 0 (K.taken sink.new) (K.faults sink.new)) }
    ensures counts { K.faults sink.old ≤ K.faults sink.new }
{
    let status = match print_summary(&log, &script.names, sink) {
        Ok(()) => Status::Done,
        Err(Failed) => Status::WriteFault,
    };
    Ran {
        status,
        log: Some(log),
    }
}

// Performs a script, and prints the summary of its log.
fn perform_and_sum_up<Kind: TableKind, K: Sink, T: Turnstile>(
    alloc: Global,
    sink: &mut K,
    script: &Script,
    turnstile: &T,
) -> Ran
    requires kind { 1 ≤ Kind.kind.most_low }
    requires playable { Playable GENERATED_READERS script.now }
    requires countable { (log : shown.Log) → Outcome script.now VERSIONS log → IsCountable log }
    ensures ends { SummedEnding script.now result.status result.log
        (outside None 0 (K.taken sink.old) (K.faults sink.old)) (outside None 0 (K.taken sink.new) (K.faults sink.new)) }
    ensures counts { K.faults sink.old ≤ K.faults sink.new }
{
    match perform_script::<Kind, T>(alloc, script, GENERATED_READERS, VERSIONS, turnstile) {
        Ok(log) => sum_up(sink, script, log),
        Err(NoMemory) => end_with_fault(sink, ScriptFault::NoMemory),
    }
}

// Makes a script from a number, performs it, and prints the summary of its log.
fn run_generated<Kind: TableKind, K: Sink, T: Turnstile>(
    alloc: Global,
    number: u32,
    classes: u16,
    selectors: u16,
    sink: &mut K,
    turnstile: &T,
) -> Ran
    requires kind { 1 ≤ Kind.kind.most_low }
    requires two_classes { 2 ≤ classes }
    requires classes_in_range { classes ≤ CLASSES }
    requires one_selector { 1 ≤ selectors }
    requires selectors_in_range { selectors ≤ SELECTORS }
    ensures ends { SummedEnding (generated_script number classes selectors) result.status result.log
        (outside None 0 (K.taken sink.old) (K.faults sink.old)) (outside None 0 (K.taken sink.new) (K.faults sink.new)) }
    ensures counts { K.faults sink.old ≤ K.faults sink.new }
{
    generated_texts_are_scripts();
    scripts_read_are_playable();
    match generate(alloc, number, classes, selectors) {
        Ok(script) => perform_and_sum_up::<Kind, K, T>(alloc, sink, &script, turnstile),
        Err(NoMemory) => end_with_fault(sink, ScriptFault::NoMemory),
    }
}

// The same by the kind of table that the words name, a line for each.
pub(crate) fn generate_by<K: Sink, T: Turnstile>(
    alloc: Global,
    table: Table,
    number: u32,
    classes: u16,
    selectors: u16,
    sink: &mut K,
    turnstile: &T,
) -> Ran
    requires two_classes { 2 ≤ classes }
    requires classes_in_range { classes ≤ CLASSES }
    requires one_selector { 1 ≤ selectors }
    requires selectors_in_range { selectors ≤ SELECTORS }
    ensures ends { SummedEnding (generated_script number classes selectors) result.status result.log
        (outside None 0 (K.taken sink.old) (K.faults sink.old)) (outside None 0 (K.taken sink.new) (K.faults sink.new)) }
    ensures counts { K.faults sink.old ≤ K.faults sink.new }
{
    match table {
        Table::Sti => run_generated::<Pair<Sti, Mrd>, K, T>(
            alloc, number, classes, selectors, sink, turnstile,
        ),
        Table::Colour => run_generated::<Pair<Colour, Mrd>, K, T>(
            alloc, number, classes, selectors, sink, turnstile,
        ),
        Table::Row => run_generated::<Pair<Row, Mrd>, K, T>(
            alloc, number, classes, selectors, sink, turnstile,
        ),
        Table::Mrd => run_generated::<Mrd, K, T>(
            alloc, number, classes, selectors, sink, turnstile,
        ),
    }
}
