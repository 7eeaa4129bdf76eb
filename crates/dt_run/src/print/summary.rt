ghost use Rattle.std.specs.Prelude.{◌≡◌, ◌≤◌, flat_map, OnOk};
ghost use Rattle.dt_outside.specs.Faults.{IsCounted};
ghost use Rattle.dt_run.specs.Putting.{Puts};
ghost use Rattle.dt_run.specs.Summary.{figure_text, number_of, summary_of, IsCountable, TookSummary, TookSummaryPrefix};

use crate::log::Log;
use crate::print::figure::{Figure, Told};
use crate::print::mix::mix_of;
use crate::print::put_buffer::PutBuffer;
use crate::print::tally::{count_batches, count_told};
use crate::print::words::{LogWord, put_line};
use dt_outside::{Failed, Sink};
use dt_script::NameBook;

// The number of a line.
fn number_of(names: &NameBook, log: &Log, figure: &Figure) -> u64
    requires { IsCountable log.now }
    ensures { result ≡ number_of names.now log.now figure.now }
{
    match figure {
        Figure::Classes => u64::from(names.class_count()),
        Figure::Selectors => u64::from(names.selector_count()),
        Figure::Accepted => count_batches(true, log),
        Figure::Refused => count_batches(false, log),
        Figure::Method => count_told(Told::Method, log),
        Figure::Ambiguous => count_told(Told::Ambiguous, log),
        Figure::NotUnderstood => count_told(Told::NotUnderstood, log),
        Figure::Other => count_told(Told::Other, log),
        Figure::Mix => u64::from(mix_of(log)),
        Figure::Done => log.last,
    }
}

// Puts a line.
fn put_figure<K: Sink>(
    out: &mut PutBuffer,
    sink: &mut K,
    names: &NameBook,
    log: &Log,
    figure: &Figure,
) -> Result<(), Failed>
    requires { IsCountable log.now }
    ensures { Puts K.taken K.faults result sink.old out.old sink.new out.new (figure_text names.now log.now figure.now) }
{
    let number = LogWord::Number(number_of(names, log, figure));
    put_line(out, sink, figure.word().as_bytes(), &[number])
}

// Puts lines.
fn put_figures<K: Sink>(
    out: &mut PutBuffer,
    sink: &mut K,
    names: &NameBook,
    log: &Log,
    figures: &[Figure],
) -> Result<(), Failed>
    requires { IsCountable log.now }
    ensures { Puts K.taken K.faults result sink.old out.old sink.new out.new (flat_map (figure_text names.now log.now) figures.now) }
{
    for figure in figures {
        put_figure(out, sink, names, log, figure)?;
    }
    Ok(())
}

// Puts all lines.
fn put_summary<K: Sink>(
    out: &mut PutBuffer,
    sink: &mut K,
    names: &NameBook,
    log: &Log,
) -> Result<(), Failed>
    requires { IsCountable log.now }
    ensures { Puts K.taken K.faults result sink.old out.old sink.new out.new (summary_of names.now log.now) }
{
    let figures = [
        Figure::Classes,
        Figure::Selectors,
        Figure::Accepted,
        Figure::Refused,
        Figure::Method,
        Figure::Ambiguous,
        Figure::NotUnderstood,
        Figure::Other,
        Figure::Mix,
        Figure::Done,
    ];
    put_figures(out, sink, names, log, &figures)
}

/// Puts the summary of the log: how many classes and selectors have names, how many batches were accepted and how many
/// weren't, how many calls came to a method, to an ambiguous answer, to one that isn't understood, and to none; the mix of
/// all calls, by which two logs of a script can be compared; and the last version. The log has fewer than 2^64 lines of
/// batches, and of callers. It takes no memory.
///
/// # Errors
///
/// [`Failed`] where the sink failed; it took a prefix of the summary then, and isn't called again.
pub fn print_summary<K: Sink>(log: &Log, names: &NameBook, sink: &mut K) -> Result<(), Failed>
    requires { IsCountable log.now }
    ensures ok { OnOk result (TookSummary names.now log.now (K.taken sink.old) (K.taken sink.new)) }
    ensures prefix { TookSummaryPrefix names.now log.now (K.taken sink.old) (K.taken sink.new) }
    ensures counted { IsCounted result (K.faults sink.old) (K.faults sink.new) }
    ensures counts { K.faults sink.old ≤ K.faults sink.new }
{
    let mut out = PutBuffer::new();
    put_summary(&mut out, sink, names, log)?;
    out.flush(sink)
}
