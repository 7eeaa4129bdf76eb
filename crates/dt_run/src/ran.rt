ghost use Rattle.std.specs.Prelude.{◌≡◌, ◌≤◌, ◌⊎◌, None};
ghost use Rattle.dt_outside.specs.Faults.{one_fault_more};
ghost use Rattle.dt_outside.specs.Putting.{Told};
ghost use Rattle.dt_run.specs.Ending.{status_of};
ghost use Rattle.dt_run.specs.FaultText.{fault_text, usage_text};

use crate::log::Log;
use crate::print::print_fault;
use crate::status::Status;
use dt_outside::{Sink, put_all};
use dt_script::ScriptFault;

/// How a run ended, and the log of what was performed: it is there exactly where the status is done or a write fault.
#[derive(Debug, Drop)]
pub struct Ran {
    /// How the run ended.
    pub status: Status,
    /// What was performed: there at done and at a write fault alone.
    pub log: Option<Log>,
}

// What is told where the words ask for no run.
const USAGE: &str =
    "usage: dispatch run --table sti|colour|row|mrd [--readers R] [--pages P] [--limit L]\n       dispatch gen --table sti|colour|row|mrd --number N --classes C --selectors S\n";

// The status that a fault ends with.
fn status_of(fault: ScriptFault) -> Status
    ensures { result ≡ status_of fault }
{
    match fault {
        ScriptFault::ReadFault => Status::ReadFault,
        ScriptFault::NoMemory => Status::NoMemory,
        _ => Status::Script,
    }
}

// Puts the usage text. A sink that fails here changes nothing of the status.
pub(crate) fn end_with_usage<K: Sink>(sink: &mut K) -> Ran
    ensures status { result.status ≡ Status.Usage }
    ensures log { result.log ≡ None }
    ensures told { Told (K.taken sink.old) (K.taken sink.new) (K.faults sink.old) (K.faults sink.new) usage_text }
    ensures counted { (K.faults sink.new ≡ K.faults sink.old) ⊎ (K.faults sink.new ≡ one_fault_more (K.faults sink.old)) }
    ensures counts { K.faults sink.old ≤ K.faults sink.new }
{
    let _ = put_all(sink, USAGE.as_bytes());
    Ran {
        status: Status::Usage,
        log: None,
    }
}

// Puts the line of a fault, and ends with its status.
pub(crate) fn end_with_fault<K: Sink>(sink: &mut K, fault: ScriptFault) -> Ran
    ensures status { result.status ≡ status_of fault }
    ensures log { result.log ≡ None }
    ensures told { Told (K.taken sink.old) (K.taken sink.new) (K.faults sink.old) (K.faults sink.new) (fault_text fault) }
    ensures counted { (K.faults sink.new ≡ K.faults sink.old) ⊎ (K.faults sink.new ≡ one_fault_more (K.faults sink.old)) }
    ensures counts { K.faults sink.old ≤ K.faults sink.new }
{
    let _ = print_fault(sink, fault);
    Ran {
        status: status_of(fault),
        log: None,
    }
}
