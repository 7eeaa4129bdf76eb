ghost use Rattle.std.specs.Prelude.{◌≡◌, ◌≤◌, ℕ, IfOk, OnOk};
ghost use Rattle.dt_run.specs.Edits.{edit_line};
ghost use Rattle.dt_run.specs.Performing.{first_version, Tells, after_batch, stamped};

use crate::log::{EditLine, Stamped};
use crate::perform::snapshot::Snapshot;
use dt_cells::TableKind;
use dt_definitions::{Batch, NoMemory};
use dt_scratch::{Query, Reply};
use dt_tables::{CommitFault, Tabled};
use std::alloc::Global;
use std::marker::Model;
use std::rc::Rc;

// Commits a batch to a program and its table.
fn commit<K: TableKind>(tabled: &mut Tabled<K>, batch: &Batch) -> Result<(), CommitFault>
    ensures { (version : ℕ) → Tells version tabled.old.program batch.now tabled.new.program result }
{
    tabled.commit(batch)
}

// The version that stands, with the table of its program. A copy of the program is made where a caller keeps this version
// first, and all callers that keep it share that one.
#[derive(Drop)]
pub(crate) struct Current<K: TableKind> {
    alloc: Global,
    version: u64,
    tabled: Tabled<K>,
    copy: Option<Rc<Snapshot>>,
}

impl<K: TableKind> Model for Current<K> {
    ghost use Rattle.std.specs.Prelude.{◌≡◌, IfSome};
    ghost use Rattle.dt_run.specs.declared.perform.snapshot.Snapshot.{Snapshot};

    ghost Value = { Snapshot };

    ghost view = { λ c. record { version = c.version; program = c.tabled.program } };

    ghost invariant = { λ c. IfSome c.copy (λ kept. kept.value ≡ record { version = c.version; program = c.tabled.program }) };
}

impl<K: TableKind> Current<K> {
    // Version 0, of the empty program.
    pub(crate) fn new(alloc: Global) -> Result<Current<K>, NoMemory>
        requires { 1 ≤ K.kind.most_low }
        ensures { IfOk result (λ current. current ≡ first_version) }
    {
        let tabled = Tabled::<K>::new(alloc)?;
        Ok(Current {
            alloc,
            version: 0,
            tabled,
            copy: None,
        })
    }

    // The version that stands.
    pub(crate) fn version(&self) -> u64
        ensures { result ≡ self.now.version }
    {
        self.version
    }

    // The reply at this version: by the table where it covers the query, and else from scratch.
    pub(crate) fn answer(&mut self, query: &Query) -> Stamped
        ensures answer { result ≡ stamped self.old query.now }
        ensures same { self.new ≡ self.old }
    {
        let reply: Reply = self.tabled.reply(query);
        Stamped {
            version: self.version,
            reply,
        }
    }

    // Applies a batch, where there may be a further version, and answers its line.
    pub(crate) fn apply(&mut self, batch: &Batch, limit: u64) -> Result<EditLine, NoMemory>
        requires { self.old.version ≤ limit }
        ensures line { IfOk result (λ line. line ≡ edit_line limit self.old.version self.old.program batch.now) }
        ensures version { OnOk result (self.new ≡ after_batch limit self.old batch.now) }
        ensures few { OnOk result (self.new.version ≤ limit) }
    {
        if self.version == limit {
            return Ok(EditLine::VersionsFull);
        }
        match commit::<K>(&mut self.tabled, batch) {
            Ok(()) => {
                self.version += 1;
                self.copy = None;
                Ok(EditLine::Accepted {
                    version: self.version,
                })
            }
            Err(CommitFault::Refused { at, why }) => Ok(EditLine::Refused { at, why }),
            Err(CommitFault::CellsFull) => Ok(EditLine::CellsFull),
            Err(CommitFault::RowsFull) => Ok(EditLine::RowsFull),
            Err(CommitFault::NoMemory) => Err(NoMemory),
        }
    }

    // An equal version, with memory of its own and without a table.
    fn copied(&self) -> Result<Snapshot, NoMemory>
        ensures { IfOk result (λ snapshot. snapshot ≡ self.now) }
    {
        Ok(Snapshot {
            version: self.version,
            program: self.tabled.program().copy()?,
        })
    }

    // The version that stands, to be kept.
    pub(crate) fn keep(&mut self) -> Result<Rc<Snapshot>, NoMemory>
        ensures kept { IfOk result (λ kept. kept.value ≡ self.old) }
        ensures same { self.new ≡ self.old }
    {
        if let Some(copy) = &self.copy {
            return Ok(copy.clone()?);
        }
        let copy = Rc::new(self.alloc, self.copied()?)?;
        self.copy = Some(copy.clone()?);
        Ok(copy)
    }
}
