ghost use Rattle.std.specs.Prelude.{◌≡◌, IfOk, OnOk, None};
ghost use Rattle.dt_run.specs.Performing.{seen, stamped, call_line, pin_by};

use crate::log::{CallLine, Stamped};
use crate::perform::current::Current;
use crate::perform::snapshot::Snapshot;
use crate::turnstile::Turnstile;
use dt_cells::TableKind;
use dt_definitions::NoMemory;
use dt_scratch::Query;
use dt_script::CallerLine;
use std::marker::Model;
use std::rc::Rc;

// A caller: the version that it keeps, if it does, and how many calls it has made, up to the greatest number.
#[derive(Drop)]
pub(crate) struct Caller {
    pin: Option<Rc<Snapshot>>,
    calls: u32,
}

impl Model for Caller {
    ghost use Rattle.std.specs.Prelude.{Option};
    ghost use Rattle.std.specs.Option.{option_map};
    ghost use Rattle.dt_run.specs.declared.perform.snapshot.Snapshot.{Snapshot};

    ghost Value = { Option Snapshot };

    ghost view = { λ c. option_map (λ kept. kept.value) c.pin };
}

impl Caller {
    // A caller that keeps no version, and hasn't called.
    pub(crate) fn new() -> Caller
        ensures { result ≡ None }
    {
        Caller {
            pin: None,
            calls: 0,
        }
    }

    // The reply at the version that the caller sees: one that it keeps has no table.
    fn answer<K: TableKind>(&self, query: &Query, current: &mut Current<K>) -> Stamped
        ensures answer { result ≡ stamped (seen current.old self.now) query.now }
        ensures same { current.new ≡ current.old }
    {
        match &self.pin {
            Some(kept) => kept.as_ref().answer(query),
            None => current.answer(query),
        }
    }

    // Makes a call, between the two calls of the turnstile.
    fn call<K: TableKind, T: Turnstile>(
        &mut self,
        number: u16,
        query: &Query,
        current: &mut Current<K>,
        turnstile: &T,
    ) -> Stamped
        ensures answer { result ≡ stamped (seen current.old self.old) query.now }
        ensures pin { self.new ≡ self.old }
        ensures same { current.new ≡ current.old }
    {
        self.calls = self.calls.saturating_add(1);
        turnstile.before(number, self.calls);
        let stamped: Stamped = self.answer::<K>(query, current);
        turnstile.after(number, self.calls);
        stamped
    }

    // Performs a line of the caller with this number, and answers what is logged of it.
    pub(crate) fn perform<K: TableKind, T: Turnstile>(
        &mut self,
        number: u16,
        line: &CallerLine,
        current: &mut Current<K>,
        turnstile: &T,
    ) -> Result<CallLine, NoMemory>
        ensures line { IfOk result (λ logged. logged ≡ call_line current.old self.old line.now) }
        ensures pin { OnOk result (self.new ≡ pin_by current.old self.old line.now) }
        ensures same { current.new ≡ current.old }
    {
        match line {
            CallerLine::Call { query } => Ok(CallLine::Called {
                stamped: self.call::<K, T>(number, query, current, turnstile),
            }),
            CallerLine::Pin => {
                self.pin = Some(current.keep()?);
                Ok(CallLine::PinnedAt {
                    version: current.version(),
                })
            }
            CallerLine::Unpin => {
                self.pin = None;
                Ok(CallLine::Unpinned)
            }
        }
    }
}
