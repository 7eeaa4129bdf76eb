ghost use Rattle.std.specs.Prelude.{◌≡◌, ◌<◌, ◌≤◌, ◌+◌, ◌^◌, [], ◌∷◌, ◌++◌, length, None, IfOk, OnOk};
ghost use Rattle.dt_script.specs.ScriptBuilder.{open_length, HasBatches, TakesEdit, opened, open_or_empty, batches_with};

use dt_definitions::{Batch, Edit, NoMemory};
use std::alloc::Global;
use std::mem;

/// The batches of a phase so far: those that are closed, and the one that is open, if one is.
#[derive(Drop)]
pub struct BatchesBuilder {
    pub closed: Vec<Batch>,
    pub current: Option<Batch>,
}

impl BatchesBuilder {
    /// No batch yet.
    pub fn new(alloc: Global) -> BatchesBuilder
        ensures closed { result.closed.items ≡ [] }
        ensures current { result.current ≡ None }
    {
        BatchesBuilder {
            closed: Vec::new(alloc),
            current: None,
        }
    }

    /// Puts the edit last in the open batch; where none is open, it is a batch of its own.
    pub fn push(&mut self, alloc: Global, edit: Edit) -> Result<(), NoMemory>
        requires { open_length self.old.current < 2 ^ 31 }
        ensures edit { OnOk result (TakesEdit self.old edit self.new) }
        ensures grown { OnOk result (open_length self.new.current ≤ open_length self.old.current + 1) }
    {
        match &mut self.current {
            Some(batch) => push_last(batch, edit),
            None => {
                let batch = single(alloc, edit)?;
                self.closed.push(batch)?;
                Ok(())
            }
        }
    }

    /// Opens a batch; one that is open stays so.
    pub fn begin(&mut self, alloc: Global)
        ensures begun { HasBatches self.new self.old.closed.items (opened self.old.current) }
        ensures grown { open_length self.new.current ≤ open_length self.old.current }
    {
        if self.current.is_none() {
            self.current = Some(Batch::new(alloc));
        }
    }

    /// Closes the open batch; where none is open, it is one without edits.
    pub fn commit(&mut self, alloc: Global) -> Result<(), NoMemory>
        ensures committed { OnOk result (HasBatches self.new (self.old.closed.items ++ open_or_empty self.old.current ∷ []) None) }
        ensures grown { open_length self.new.current ≡ 0 }
    {
        let batch = match mem::replace(&mut self.current, None) {
            Some(batch) => batch,
            None => Batch::new(alloc),
        };
        self.closed.push(batch)?;
        Ok(())
    }

    /// All batches. One that is still open is closed, where it has an edit.
    pub fn finish(self) -> Result<Vec<Batch>, NoMemory>
        ensures { IfOk result (λ batches. batches.items ≡ batches_with self []) }
    {
        let BatchesBuilder {
            mut closed,
            current,
        } = self;
        match current {
            Some(batch) if !batch.is_empty() => {
                closed.push(batch)?;
                Ok(closed)
            }
            _ => Ok(closed),
        }
    }
}

// Puts the edit last in the batch.
fn push_last(batch: &mut Batch, edit: Edit) -> Result<(), NoMemory>
    requires { length batch.old < 2 ^ 31 }
    ensures { OnOk result (batch.new ≡ batch.old ++ edit ∷ []) }
{
    match batch.push(edit) {
        Ok(()) => Ok(()),
        Err(_) => Err(NoMemory),
    }
}

// A batch of this edit alone, which takes room for exactly one.
fn single(alloc: Global, edit: Edit) -> Result<Batch, NoMemory>
    ensures { IfOk result (λ batch. batch ≡ edit ∷ []) }
{
    let mut batch = Batch::new(alloc);
    push_last(&mut batch, edit)?;
    batch.copy()
}
