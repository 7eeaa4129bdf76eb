ghost use Rattle.std.specs.Prelude.{◌≡◌, [], ◌∷◌, IfOk, IfErr, reverse};
ghost use Rattle.std.specs.List.{list_any};
ghost use Rattle.dt_definitions.specs.Parts.{program_of};
ghost use Rattle.dt_definitions.specs.Lawful.{Lawful};
ghost use Rattle.dt_definitions.specs.Step.{step_batch, AppliesBatch};
ghost use Rattle.dt_definitions.specs.Undo.{undoing, LeadsBack};
ghost use Rattle.dt_definitions.specs.Memory.{may_want_memory, undoing_takes_memory, batch_may_want_memory, BatchNoMemoryOnlyWhere};

use crate::batch::Batch;
use crate::edit::Edit;
use crate::parts::Parts;
use crate::why::BatchFault;

impl Parts {
    // The one edit of a batch.
    fn apply_alone(&mut self, edit: &Edit) -> Result<(), BatchFault>
        requires { Lawful (program_of self.old) }
        ensures applies { AppliesBatch (program_of self.old) (edit.now ∷ []) (program_of self.new) result }
        ensures memory { BatchNoMemoryOnlyWhere (may_want_memory (program_of self.old) edit.now) result }
        ensures lawful { Lawful (program_of self.new) }
    {
        match self.apply(edit) {
            Ok(()) => Ok(()),
            Err(fault) => Err(BatchFault::at(1, fault)),
        }
    }

    // All edits in order, with what undoes them where they don't tell it, or none where one is refused or memory is
    // wanting.
    pub(crate) fn apply_kept(&mut self, batch: &Batch) -> Result<Vec<Edit>, BatchFault>
        requires { Lawful (program_of self.old) }
        ensures ok { IfOk result (λ kept. (step_batch (program_of self.old) batch.now ≡ Ok (program_of self.new))
            × LeadsBack (program_of self.new) (undoing (reverse batch.now) (reverse kept.items)) (program_of self.old)) }
        ensures err { IfErr result (λ fault. AppliesBatch (program_of self.old) batch.now (program_of self.new) (Err fault)) }
        ensures memory { IfErr result (λ fault. BatchNoMemoryOnlyWhere (list_any undoing_takes_memory batch.now) (Err fault)) }
        ensures lawful { Lawful (program_of self.new) }
    {
        let edits = batch.as_slice();
        let mut kept = Vec::new(batch.allocator());
        for (index, edit) in edits.iter().enumerate() {
            edit.law();
            if let Err(fault) = self.apply_keeping(edit, &mut kept) {
                if self.undo(&edits[..index], kept).is_err() {
                    unreachable!();
                }
                return Err(BatchFault::at(index as u32 + 1, fault));
            }
        }
        Ok(kept)
    }

    // The edits of the batch in order, or none where one is refused or memory is wanting. Only where there are
    // several can one have to be undone.
    pub(crate) fn apply_batch(&mut self, batch: &Batch) -> Result<(), BatchFault>
        requires { Lawful (program_of self.old) }
        ensures applies { AppliesBatch (program_of self.old) batch.now (program_of self.new) result }
        ensures memory { BatchNoMemoryOnlyWhere (batch_may_want_memory (program_of self.old) batch.now) result }
        ensures lawful { Lawful (program_of self.new) }
    {
        match batch.as_slice() {
            [] => Ok(()),
            [edit] => self.apply_alone(edit),
            _ => {
                let _kept = self.apply_kept(batch)?;
                Ok(())
            }
        }
    }

    // Gives back the memory that the lists which the edit touched leave unused. It comes where no undo is wanted any
    // more, since undoing needs the room.
    pub(crate) fn give_back(&mut self, edit: &Edit)
        ensures { program_of self.new ≡ program_of self.old }
    {
        match edit {
            Edit::Define {
                selector,
                classes,
                ..
            } => self.definitions.give_back(*selector, classes.classes()),
            Edit::Undefine { selector, classes } => {
                self.definitions.give_back(*selector, classes.classes());
            }
            _ => {}
        }
    }

    // The same for all edits of the batch.
    pub(crate) fn give_back_all(&mut self, batch: &Batch)
        ensures { program_of self.new ≡ program_of self.old }
    {
        for edit in batch.as_slice() {
            self.give_back(edit);
        }
    }
}
