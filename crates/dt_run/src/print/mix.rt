ghost use Rattle.std.specs.Prelude.{◌≡◌};
ghost use Rattle.std.specs.List.{fold};
ghost use Rattle.dt_run.specs.Summary.{code_of_answer, code_of_reply, mix_of, mixed, mixed_by, mixed_in, mixed_with};

use crate::log::{CallLine, Log, PartLog, PhaseLog};
use dt_scratch::{Answer, Reply};

// The code of an answer.
fn code_of_answer(answer: Answer) -> u32
    ensures { result ≡ code_of_answer answer }
{
    match answer {
        Answer::Method { body } => u32::from(body.number()) + 2,
        Answer::Ambiguous => 1,
        Answer::NotUnderstood => 0,
    }
}

// The code of a reply.
fn code_of_reply(reply: Reply) -> u32
    ensures { result ≡ code_of_reply reply }
{
    match reply {
        Reply::Answered { answer } => code_of_answer(answer),
        Reply::NoSelector | Reply::WrongArity | Reply::NoClass { .. } => 0,
    }
}

// The mix with a code.
fn mixed_with(mix: u32, code: u32) -> u32
    ensures { result ≡ mixed_with mix code }
{
    ((u64::from(mix) * 31 + u64::from(code)) % (1 << 32)) as u32
}

// The mix after a line.
fn mixed(mix: u32, line: CallLine) -> u32
    ensures { result ≡ mixed mix line }
{
    match line {
        CallLine::Called { stamped } => mixed_with(mix, code_of_reply(stamped.reply)),
        CallLine::CallWorn { .. } => mixed_with(mix, 0),
        CallLine::PinnedAt { .. } | CallLine::PinWorn { .. } | CallLine::Unpinned => mix,
    }
}

// The mix after lines.
fn mixed_lines(mix: u32, lines: &[CallLine]) -> u32
    ensures { result ≡ fold mixed mix lines.now }
{
    let mut after = mix;
    for line in lines {
        after = mixed(after, *line);
    }
    after
}

// The mix after the lines of a caller.
fn mixed_by(mix: u32, part: &PartLog) -> u32
    ensures { result ≡ mixed_by mix part.now }
{
    mixed_lines(mix, &part.lines)
}

// The mix after those of callers.
fn mixed_parts(mix: u32, parts: &[PartLog]) -> u32
    ensures { result ≡ fold mixed_by mix parts.now }
{
    let mut after = mix;
    for part in parts {
        after = mixed_by(after, part);
    }
    after
}

// The mix after those of a phase.
fn mixed_in(mix: u32, phase: &PhaseLog) -> u32
    ensures { result ≡ mixed_in mix phase.now }
{
    mixed_parts(mix, &phase.callers)
}

// The mix after those of phases.
fn mixed_phases(phases: &[PhaseLog]) -> u32
    ensures { result ≡ fold mixed_in 0 phases.now }
{
    let mut after = 0;
    for phase in phases {
        after = mixed_in(after, phase);
    }
    after
}

// The mix of all calls of a log.
pub(crate) fn mix_of(log: &Log) -> u32
    ensures { result ≡ mix_of log.now }
{
    mixed_phases(&log.phases)
}
