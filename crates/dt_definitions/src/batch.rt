ghost use Rattle.std.specs.Prelude.{◌≡◌, ◌^◌, ◌<◌, ◌≤◌, ◌==◌, [], ◌∷◌, ◌++◌, length, IfOk, IfErr, OnOk, OnErr};
ghost use Rattle.std.specs.Option.{option_copied};
ghost use Rattle.dt_definitions.specs.Laws.{AreInRange};
ghost use Rattle.dt_definitions.specs.Nth.{nth};

use crate::edit::Edit;
use dt_graph::NoMemory;
use std::alloc::Global;
use std::marker::Model;

/// Edits in order, which are applied together or not at all.
#[derive(Debug, Drop)]
pub struct Batch {
    edits: Vec<Edit>,
}

impl Model for Batch {
    ghost use Rattle.std.specs.Prelude.{List, length, ◌≤◌, ◌^◌};
    ghost use Rattle.dt_definitions.specs.declared.edit.Edit.{Edit};

    ghost Value = { List Edit };

    ghost view = { λ b. b.edits.items };

    ghost invariant = { λ b. length b.edits.items ≤ 2 ^ 31 };
}

impl Batch {
    /// A batch with no edit. It takes no memory.
    pub fn new(alloc: Global) -> Batch
        ensures { result ≡ [] }
    {
        Batch {
            edits: Vec::new(alloc),
        }
    }

    /// Puts the edit last. For want of memory it is handed back, and the batch is as it was. The batch has fewer than
    /// 2^31 edits.
    pub fn push(&mut self, edit: Edit) -> Result<(), Edit>
        requires { length self.old < 2 ^ 31 }
        ensures ok { OnOk result (self.new ≡ self.old ++ edit ∷ []) }
        ensures err { OnErr result (self.new ≡ self.old) }
        ensures handed_back { IfErr result (λ e. e ≡ edit) }
    {
        match self.edits.push(edit) {
            Ok(()) => Ok(()),
            Err(failed) => Err(failed.value),
        }
    }

    /// How many edits there are.
    pub fn len(&self) -> u32
        ensures { result ≡ length self.now }
    {
        self.edits.len() as u32
    }

    /// Whether there is no edit.
    pub fn is_empty(&self) -> bool
        ensures { result ≡ (length self.now == 0) }
    {
        self.edits.is_empty()
    }

    /// The edit at this place, from 1; `None` exactly where there is no such place.
    pub fn edit(&self, place: u32) -> Option<&Edit>
        ensures { option_copied result ≡ nth self.now place }
    {
        let place = place.checked_sub(1)?;
        self.edits.get(place as usize)
    }

    /// What holds of every batch: the numbers of its edits are in range, and there are at most 2^31 of them. It does
    /// nothing: a caller whose reasoning needs this calls it.
    pub fn law(&self)
        ensures in_range { AreInRange self.now }
        ensures few { length self.now ≤ 2 ^ 31 }
    {
        for edit in &self.edits {
            edit.law();
        }
    }

    // The edits.
    pub(crate) fn as_slice(&self) -> &[Edit]
        ensures value { result.now ≡ self.now }
        ensures in_range { length result.now ≤ 2 ^ 31 }
    {
        &self.edits
    }

    // The allocator.
    pub(crate) fn allocator(&self) -> Global {
        *self.edits.allocator()
    }

    /// An equal batch, with memory of its own; [`NoMemory`] where none was found.
    pub fn copy(&self) -> Result<Batch, NoMemory>
        ensures { IfOk result (λ batch. batch ≡ self.now) }
    {
        let mut edits = Vec::with_capacity(self.allocator(), self.edits.len())?;
        for edit in &self.edits {
            edits.push(edit.copy()?)?;
        }
        Ok(Batch { edits })
    }
}
