ghost use Rattle.std.specs.Prelude.{◌≡◌, ◌+◌, ◌≤◌, ◌<◌, IfOk, OnOk, length, replicate, None};
ghost use Rattle.std.specs.List.{All};
ghost use Rattle.dt_run.specs.Outcome.{Outcome};
ghost use Rattle.dt_script.specs.Playable.{Playable};
ghost use Rattle.dt_run.specs.Performing.{first_version, at_first, phase_logs, after_phases};

use crate::log::{Log, PhaseLog};
use crate::turnstile::Turnstile;
use caller::Caller;
use current::Current;
use dt_cells::TableKind;
use dt_definitions::{NoMemory, histories_go_on_by_one};
use dt_script::{Phase, Script};
use phase::perform_phase;
use std::alloc::Global;

mod caller;
mod current;
mod phase;
mod snapshot;

// Callers that keep no version, in the places from 0 to the greatest number.
fn callers_up_to(alloc: Global, greatest: u16) -> Result<Vec<Caller>, NoMemory>
    ensures { IfOk result (λ callers. callers.items ≡ replicate (greatest + 1) None) }
{
    let count = usize::from(greatest) + 1;
    let mut callers = Vec::with_capacity(alloc, count)?;
    for _number in 0..count {
        callers.push(Caller::new())?;
    }
    Ok(callers)
}

// Performs the phases in order, and answers the log of each.
fn perform_phases<K: TableKind, T: Turnstile>(
    alloc: Global,
    phases: &[Phase],
    callers: &mut [Caller],
    current: &mut Current<K>,
    limit: u64,
    turnstile: &T,
) -> Result<Vec<PhaseLog>, NoMemory>
    requires fits { All (λ phase. All (λ part. part.caller < length callers.old) phase.callers) phases.now }
    requires few { current.old.version ≤ limit }
    ensures logs { IfOk result (λ logs. logs.items
        ≡ phase_logs limit (record { current = current.old; pins = callers.old }) phases.now) }
    ensures after { OnOk result (record { current = current.new; pins = callers.new }
        ≡ after_phases limit (record { current = current.old; pins = callers.old }) phases.now) }
{
    let mut logs = Vec::with_capacity(alloc, phases.len())?;
    for phase in phases {
        let log = perform_phase::<K, T>(alloc, phase, callers, current, limit, turnstile)?;
        logs.push(log)?;
    }
    Ok(logs)
}

// Performs the phases in order, with callers up to the number of readers that keep no version at first.
fn perform_all<K: TableKind, T: Turnstile>(
    alloc: Global,
    phases: &[Phase],
    readers: u16,
    current: &mut Current<K>,
    limit: u64,
    turnstile: &T,
) -> Result<Vec<PhaseLog>, NoMemory>
    requires fits { All (λ phase. All (λ part. (1 ≤ part.caller) × (part.caller ≤ readers)) phase.callers) phases.now }
    requires first { current.old ≡ first_version }
    ensures logs { IfOk result (λ logs. logs.items ≡ phase_logs limit (at_first readers) phases.now) }
    ensures last { OnOk result (current.new ≡ (after_phases limit (at_first readers) phases.now).current) }
{
    let mut callers = callers_up_to(alloc, readers)?;
    perform_phases::<K, T>(alloc, phases, &mut callers, current, limit, turnstile)
}

/// Performs a script with callers up to the number of readers: each phase in order, its batches and then its callers,
/// one after the other in the script's order, and each call between the two calls of the turnstile. What happened is the
/// log.
///
/// A call is answered at the version that stands, or at the one that its caller keeps since its last `pin`. At the
/// version that stands it is answered by the table of this kind, where the kind covers so many arguments; else, and at a
/// version that is kept, by look-up from scratch. Of a version that callers keep there is one copy; its memory is given
/// back once a later version stands and no caller keeps it any more.
///
/// There are at most `limit` versions after the first: a batch that comes when there are as many is told so and changes
/// nothing. Nor does one with an edit that is refused, or one whose program would have more understood queries or more
/// rows than a table can have.
///
/// Memory is taken for the program, its table, the log and the versions that are kept; a call takes none. The time is
/// that of the batches, of what they change in the table, and of the look-ups, and that of one copy of the program for
/// each version that is kept.
///
/// # Errors
///
/// [`NoMemory`] where no memory was found.
pub fn perform_script<K: TableKind, T: Turnstile>(
    alloc: Global,
    script: &Script,
    readers: u16,
    limit: u64,
    turnstile: &T,
) -> Result<Log, NoMemory>
    requires kind { 1 ≤ K.kind.most_low }
    requires playable { Playable readers script.now }
    ensures { IfOk result (λ log. Outcome script.now limit log) }
{
    histories_go_on_by_one();
    let mut current = Current::<K>::new(alloc)?;
    let phases = perform_all::<K, T>(
        alloc,
        &script.phases,
        readers,
        &mut current,
        limit,
        turnstile,
    )?;
    Ok(Log {
        phases,
        last: current.version(),
    })
}
