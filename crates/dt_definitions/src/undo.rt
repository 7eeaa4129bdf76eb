ghost use Rattle.std.specs.Prelude.{◌≡◌, ◌∷◌, ◌++◌, List, reverse, None, Ok, option_to_list, IsTrue, IsOk, IfOk, OnOk, OnErr};
ghost use Rattle.dt_definitions.specs.Parts.{program_of};
ghost use Rattle.dt_definitions.specs.Program.{Program};
ghost use Rattle.dt_definitions.specs.Lawful.{Lawful};
ghost use Rattle.dt_definitions.specs.Step.{refusal, step_edit, Applies};
ghost use Rattle.dt_definitions.specs.Memory.{undoing_takes_memory, NoMemoryOnlyWhere};
ghost use Rattle.dt_definitions.specs.SelectorLists.{RoomStays};
ghost use Rattle.dt_definitions.specs.Undo.{inverse, kept_of, undoing, LeadsBack, HasRoom, HasRooms};
ghost use Rattle.dt_definitions.specs.declared.edit.Edit.{Edit};

use crate::edit::Edit;
use crate::parents::Parents;
use crate::parts::Parts;
use crate::tuple::Tuple;
use crate::why::ApplyFault;
use dt_graph::NoMemory;
use dt_selectors::SelNo;
use std::alloc::Global;

// What undoes the last edit that isn't undone: the edit tells it, or it was kept last.
fn take_inverse(edit: &Edit, kept: &mut Vec<Edit>) -> Option<Edit>
    ensures { (earlier : List Edit) → undoing (edit.now ∷ earlier) (reverse kept.old.items)
        ≡ option_to_list result ++ undoing earlier (reverse kept.new.items) }
{
    match edit {
        Edit::AddClass { class, .. } => Some(Edit::DropClass { class: *class }),
        Edit::Link { class, parent } => Some(Edit::Unlink {
            class: *class,
            parent: *parent,
        }),
        Edit::Unlink { class, parent } => Some(Edit::Link {
            class: *class,
            parent: *parent,
        }),
        Edit::AddSelector { selector, .. } => Some(Edit::DropSelector {
            selector: *selector,
        }),
        _ => kept.pop(),
    }
}

impl Parts {
    // The edit by which the selector has the arity that it has.
    fn arity_again(&self, selector: SelNo) -> Edit
        ensures { result ≡ inverse (program_of self.now) (Edit.DropSelector selector) }
    {
        match self.selectors.arity(selector) {
            Some(arity) => Edit::AddSelector { selector, arity },
            None => Edit::DropSelector { selector },
        }
    }

    // The edit by which the selector has the body that it has at these classes.
    fn body_again(&self, selector: SelNo, classes: &Tuple) -> Edit
        ensures { result ≡ inverse (program_of self.now) (Edit.Undefine selector classes.now) }
    {
        match self.definitions.body(selector, classes.classes()) {
            Some(body) => Edit::Define {
                selector,
                classes: *classes,
                body,
            },
            None => Edit::Undefine {
                selector,
                classes: *classes,
            },
        }
    }

    // What undoes the edit, where the edit doesn't tell it.
    fn kept(&self, alloc: Global, edit: &Edit) -> Result<Option<Edit>, NoMemory>
        ensures ok { IfOk result (λ kept. option_to_list kept ≡ kept_of (program_of self.now) edit.now) }
        ensures memory { OnErr result (IsTrue (undoing_takes_memory edit.now)) }
    {
        match edit {
            Edit::DropClass { class } => {
                let parents = Parents::new(alloc, self.graph.parents(*class))?;
                Ok(Some(Edit::AddClass {
                    class: *class,
                    parents,
                }))
            }
            Edit::DropSelector { selector } => Ok(Some(self.arity_again(*selector))),
            Edit::Define {
                selector,
                classes,
                ..
            } => Ok(Some(self.body_again(*selector, classes))),
            Edit::Undefine { selector, classes } => Ok(Some(self.body_again(*selector, classes))),
            _ => Ok(None),
        }
    }

    // The edit, or the first cause for which it is refused; what undoes it is kept, where the edit doesn't tell it.
    pub(crate) fn apply_keeping(
        &mut self,
        edit: &Edit,
        kept: &mut Vec<Edit>,
    ) -> Result<(), ApplyFault>
        requires { Lawful (program_of self.old) }
        ensures applies { Applies (program_of self.old) edit.now (program_of self.new) result }
        ensures memory { NoMemoryOnlyWhere (undoing_takes_memory edit.now) result }
        ensures lawful { Lawful (program_of self.new) }
        ensures room { OnOk result (HasRoom self.new.definitions edit.now) }
        ensures room_stays { RoomStays self.old.definitions.rooms self.new.definitions.rooms }
        ensures kept { OnOk result (kept.new.items ≡ kept.old.items ++ kept_of (program_of self.old) edit.now) }
        ensures stays { OnErr result (kept.new.items ≡ kept.old.items) }
    {
        let Some(inverse) = self.kept(*kept.allocator(), edit)? else {
            return self.apply(edit);
        };
        if kept.reserve(1).is_err() {
            return Err(ApplyFault::NoMemory);
        }
        self.apply(edit)?;
        kept.push_reserved(inverse);
        Ok(())
    }

    // The edit, which isn't refused. It succeeds where the definitions have room.
    fn make(&mut self, edit: Edit) -> Result<(), NoMemory>
        requires lawful { Lawful (program_of self.old) }
        ensures ok { OnOk result (step_edit (program_of self.old) edit ≡ Ok (program_of self.new)) }
        ensures lawful { Lawful (program_of self.new) }
        ensures succeeds { refusal (program_of self.old) edit ≡ None → HasRoom self.old.definitions edit → IsOk result }
        ensures room_stays { RoomStays self.old.definitions.rooms self.new.definitions.rooms }
    {
        match self.apply(&edit) {
            Ok(()) => Ok(()),
            Err(_) => Err(NoMemory),
        }
    }

    // Undoes these edits, the last first. It succeeds where the definitions have room; else the program may stand between.
    pub(crate) fn undo(&mut self, edits: &[Edit], mut kept: Vec<Edit>) -> Result<(), NoMemory>
        requires { Lawful (program_of self.old) }
        ensures ok { (old : Program) → LeadsBack (program_of self.old) (undoing (reverse edits.now) (reverse kept.items)) old
            → OnOk result (program_of self.new ≡ old) }
        ensures lawful { Lawful (program_of self.new) }
        ensures succeeds { (old : Program) → LeadsBack (program_of self.old) (undoing (reverse edits.now) (reverse kept.items)) old
            → HasRooms self.old.definitions.rooms (program_of self.old) (undoing (reverse edits.now) (reverse kept.items))
            → IsOk result }
    {
        let mut left = edits.len();
        while left > 0 {
            left -= 1;
            if let Some(inverse) = take_inverse(&edits[left], &mut kept) {
                self.make(inverse)?;
            }
        }
        Ok(())
    }
}
