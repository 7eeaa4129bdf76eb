ghost use Rattle.std.specs.Prelude.{◌≡◌, ◌+◌, min};
ghost use Rattle.std.specs.List.{sum_by};
ghost use Rattle.dt_run.specs.Summary.{batches_in, count_batches, count_told, is_accepted, is_answer_told, is_as, is_other, is_reply_told, is_told, one_if, told_by, told_in};
ghost use Rattle.dt_run.specs.Tallying.{greatest};

use crate::log::{CallLine, EditLine, Log, PartLog, PhaseLog};
use crate::print::figure::Told;
use dt_scratch::{Answer, Reply};

// The greatest number of 64 bits stands for all that are more.

// One more, where it holds.
fn add_if(count: u64, holds: bool) -> u64
    ensures { result ≡ min (count + one_if holds) greatest }
{
    if holds {
        count.saturating_add(1)
    } else {
        count
    }
}

// Whether the answer is told as this.
fn is_answer_told(told: Told, answer: Answer) -> bool
    ensures { result ≡ is_answer_told told answer }
{
    match told {
        Told::Method => matches!(answer, Answer::Method { .. }),
        Told::Ambiguous => matches!(answer, Answer::Ambiguous),
        Told::NotUnderstood => matches!(answer, Answer::NotUnderstood),
        Told::Other => false,
    }
}

// Whether a call that came to no answer is told as this.
fn is_other(told: Told) -> bool
    ensures { result ≡ is_other told }
{
    matches!(told, Told::Other)
}

// Whether the reply is told as this.
fn is_reply_told(told: Told, reply: Reply) -> bool
    ensures { result ≡ is_reply_told told reply }
{
    match reply {
        Reply::Answered { answer } => is_answer_told(told, answer),
        Reply::NoSelector | Reply::WrongArity | Reply::NoClass { .. } => is_other(told),
    }
}

// Whether the line is told as this.
fn is_told(told: Told, line: CallLine) -> bool
    ensures { result ≡ is_told told line }
{
    match line {
        CallLine::Called { stamped } => is_reply_told(told, stamped.reply),
        CallLine::CallWorn { .. } => is_other(told),
        CallLine::PinnedAt { .. } | CallLine::PinWorn { .. } | CallLine::Unpinned => false,
    }
}

// So many, and the lines that are told as this.
fn tell_lines(told: Told, lines: &[CallLine], before: u64) -> u64
    ensures { result ≡ min (before + sum_by (λ line. one_if (is_told told line)) lines.now) greatest }
{
    let mut count = before;
    for line in lines {
        count = add_if(count, is_told(told, *line));
    }
    count
}

// So many, and those of a caller.
fn tell_part(told: Told, part: &PartLog, before: u64) -> u64
    ensures { result ≡ min (before + told_by told part.now) greatest }
{
    tell_lines(told, &part.lines, before)
}

// So many, and those of callers.
fn tell_parts(told: Told, parts: &[PartLog], before: u64) -> u64
    ensures { result ≡ min (before + sum_by (told_by told) parts.now) greatest }
{
    let mut count = before;
    for part in parts {
        count = tell_part(told, part, count);
    }
    count
}

// So many, and those of a phase.
fn tell_phase(told: Told, phase: &PhaseLog, before: u64) -> u64
    ensures { result ≡ min (before + told_in told phase.now) greatest }
{
    tell_parts(told, &phase.callers, before)
}

// How many calls of the phases are told as this.
fn tell_phases(told: Told, phases: &[PhaseLog]) -> u64
    ensures { result ≡ min (sum_by (told_in told) phases.now) greatest }
{
    let mut count = 0;
    for phase in phases {
        count = tell_phase(told, phase, count);
    }
    count
}

// How many calls of the log are told as this.
pub(crate) fn count_told(told: Told, log: &Log) -> u64
    ensures { result ≡ min (count_told told log.now) greatest }
{
    tell_phases(told, &log.phases)
}

// Whether the batch was accepted.
fn is_accepted(line: EditLine) -> bool
    ensures { result ≡ is_accepted line }
{
    matches!(line, EditLine::Accepted { .. })
}

// Whether it was as this says.
fn is_as(accepted: bool, line: EditLine) -> bool
    ensures { result ≡ is_as accepted line }
{
    if accepted {
        is_accepted(line)
    } else {
        !is_accepted(line)
    }
}

// So many, and the batches that were accepted, or those that weren't.
fn count_lines(accepted: bool, lines: &[EditLine], before: u64) -> u64
    ensures { result ≡ min (before + sum_by (λ line. one_if (is_as accepted line)) lines.now) greatest }
{
    let mut count = before;
    for line in lines {
        count = add_if(count, is_as(accepted, *line));
    }
    count
}

// So many, and those of a phase.
fn count_phase(accepted: bool, phase: &PhaseLog, before: u64) -> u64
    ensures { result ≡ min (before + batches_in accepted phase.now) greatest }
{
    count_lines(accepted, &phase.edits, before)
}

// How many batches of the phases were accepted, or weren't.
fn count_phases(accepted: bool, phases: &[PhaseLog]) -> u64
    ensures { result ≡ min (sum_by (batches_in accepted) phases.now) greatest }
{
    let mut count = 0;
    for phase in phases {
        count = count_phase(accepted, phase, count);
    }
    count
}

// How many batches of the log were accepted, or weren't.
pub(crate) fn count_batches(accepted: bool, log: &Log) -> u64
    ensures { result ≡ min (count_batches accepted log.now) greatest }
{
    count_phases(accepted, &log.phases)
}
