ghost use Rattle.std.specs.Prelude.{◌≡◌, ◌≤◌, ◌<◌, ◌++◌, IfOk, OnOk, length, map};
ghost use Rattle.std.specs.List.{All};
ghost use Rattle.dt_run.specs.Performing.{after_batches, edit_lines, call_lines, pin_after_lines, room, part_logs, with_parts, phase_log, after_phase};

use crate::log::{CallLine, EditLine, PartLog, PhaseLog};
use crate::perform::caller::Caller;
use crate::perform::current::Current;
use crate::turnstile::Turnstile;
use dt_cells::TableKind;
use dt_definitions::{Batch, NoMemory};
use dt_script::{CallerLine, Part, Phase};
use std::alloc::Global;

// Applies the batches in order, and answers a line for each.
fn perform_edits<K: TableKind>(
    alloc: Global,
    current: &mut Current<K>,
    batches: &[Batch],
    limit: u64,
) -> Result<Vec<EditLine>, NoMemory>
    requires { current.old.version ≤ limit }
    ensures lines { IfOk result (λ lines. lines.items ≡ edit_lines limit current.old batches.now) }
    ensures version { OnOk result (current.new ≡ after_batches limit current.old batches.now) }
    ensures few { OnOk result (current.new.version ≤ limit) }
{
    let mut lines = Vec::with_capacity(alloc, batches.len())?;
    for batch in batches {
        let line: EditLine = current.apply(batch, limit)?;
        lines.push(line)?;
    }
    Ok(lines)
}

// A log for each caller of a phase, with room for its lines.
fn room_for(alloc: Global, parts: &[Part]) -> Result<Vec<PartLog>, NoMemory>
    ensures { IfOk result (λ logs. logs.items ≡ map room parts.now) }
{
    let mut logs = Vec::with_capacity(alloc, parts.len())?;
    for part in parts {
        let lines = Vec::with_capacity(alloc, part.lines.len())?;
        logs.push(PartLog {
            caller: part.caller,
            lines,
        })?;
    }
    Ok(logs)
}

// Performs the lines of the caller with this number in order, and puts what is logged of each behind the others.
fn perform_lines<K: TableKind, T: Turnstile>(
    number: u16,
    lines: &[CallerLine],
    caller: &mut Caller,
    current: &mut Current<K>,
    turnstile: &T,
    logged: &mut Vec<CallLine>,
) -> Result<(), NoMemory>
    ensures lines { OnOk result (logged.new.items ≡ logged.old.items ++ call_lines current.old caller.old lines.now) }
    ensures pin { OnOk result (caller.new ≡ pin_after_lines current.old caller.old lines.now) }
    ensures same { current.new ≡ current.old }
{
    for line in lines {
        let call: CallLine = caller.perform::<K, T>(number, line, current, turnstile)?;
        logged.push(call)?;
    }
    Ok(())
}

// Performs a caller of a phase, whose log has no line yet.
fn perform_part<K: TableKind, T: Turnstile>(
    part: &Part,
    caller: &mut Caller,
    current: &mut Current<K>,
    turnstile: &T,
    log: &mut PartLog,
) -> Result<(), NoMemory>
    requires { log.old ≡ room part.now }
    ensures log { OnOk result (log.new ≡ record { caller = part.now.caller; lines = call_lines current.old caller.old part.now.lines }) }
    ensures pin { OnOk result (caller.new ≡ pin_after_lines current.old caller.old part.now.lines) }
    ensures same { current.new ≡ current.old }
{
    perform_lines::<K, T>(
        part.caller,
        &part.lines,
        caller,
        current,
        turnstile,
        &mut log.lines,
    )
}

// Performs the callers of a phase in order, each with the room for its lines.
fn perform_parts<K: TableKind, T: Turnstile>(
    parts: &[Part],
    callers: &mut [Caller],
    current: &mut Current<K>,
    turnstile: &T,
    logs: &mut [PartLog],
) -> Result<(), NoMemory>
    requires fits { All (λ part. part.caller < length callers.old) parts.now }
    requires room { logs.old ≡ map room parts.now }
    ensures logs { OnOk result (logs.new ≡ part_logs current.old callers.old parts.now) }
    ensures pins { OnOk result (callers.new ≡ with_parts current.old callers.old parts.now) }
    ensures same { current.new ≡ current.old }
{
    for (place, part) in parts.iter().enumerate() {
        let caller = &mut callers[usize::from(part.caller)];
        perform_part::<K, T>(part, caller, current, turnstile, &mut logs[place])?;
    }
    Ok(())
}

// Performs a phase: its batches, and then its callers at the version after them. The room for their lines is made
// before.
pub(crate) fn perform_phase<K: TableKind, T: Turnstile>(
    alloc: Global,
    phase: &Phase,
    callers: &mut [Caller],
    current: &mut Current<K>,
    limit: u64,
    turnstile: &T,
) -> Result<PhaseLog, NoMemory>
    requires fits { All (λ part. part.caller < length callers.old) phase.now.callers }
    requires few { current.old.version ≤ limit }
    ensures log { IfOk result (λ log. log ≡ phase_log limit (record { current = current.old; pins = callers.old }) phase.now) }
    ensures after { OnOk result (record { current = current.new; pins = callers.new }
        ≡ after_phase limit (record { current = current.old; pins = callers.old }) phase.now) }
    ensures few { OnOk result (current.new.version ≤ limit) }
{
    let from = current.version();
    let mut logs = room_for(alloc, &phase.callers)?;
    let edits = perform_edits::<K>(alloc, current, &phase.edits, limit)?;
    perform_parts::<K, T>(&phase.callers, callers, current, turnstile, &mut logs)?;
    Ok(PhaseLog {
        from,
        to: current.version(),
        edits,
        callers: logs,
    })
}
