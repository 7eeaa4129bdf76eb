ghost use Rattle.std.specs.Prelude.{◌≡◌, false, OnOk};
ghost use Rattle.dt_definitions.specs.Parts.{program_of};
ghost use Rattle.dt_definitions.specs.Lawful.{Lawful};
ghost use Rattle.dt_definitions.specs.Undo.{HasRoom};
ghost use Rattle.dt_definitions.specs.SelectorLists.{HasRoomFor, RoomStays};
ghost use Rattle.dt_definitions.specs.declared.edit.Edit.{Edit};
ghost use Rattle.dt_definitions.specs.Step.{Applies};
ghost use Rattle.dt_definitions.specs.Memory.{may_want_memory, NoMemoryOnlyWhere};

use crate::all_definitions::AllDefinitions;
use crate::edit::Edit;
use crate::tuple::Tuple;
use crate::why::ApplyFault;
use dt_graph::{ClassGraph, ClassNo};
use dt_selectors::{Arity, BodyNo, SelNo, Selectors};

// The three parts of a program, and the edits of them.
#[derive(Debug, Drop)]
pub(crate) struct Parts {
    pub(crate) graph: ClassGraph,
    pub(crate) selectors: Selectors,
    pub(crate) definitions: AllDefinitions,
}

impl Parts {
    // The edit, or the first cause for which it is refused.
    pub(crate) fn apply(&mut self, edit: &Edit) -> Result<(), ApplyFault>
        requires { Lawful (program_of self.old) }
        ensures applies { Applies (program_of self.old) edit.now (program_of self.new) result }
        ensures memory { NoMemoryOnlyWhere (may_want_memory (program_of self.old) edit.now) result }
        ensures lawful { Lawful (program_of self.new) }
        ensures enough { HasRoom self.old.definitions edit.now → NoMemoryOnlyWhere false result }
        ensures room { OnOk result (HasRoom self.new.definitions edit.now) }
        ensures room_stays { RoomStays self.old.definitions.rooms self.new.definitions.rooms }
    {
        edit.law();
        self.perform(edit)
    }

    fn perform(&mut self, edit: &Edit) -> Result<(), ApplyFault>
        requires { Lawful (program_of self.old) }
        ensures applies { Applies (program_of self.old) edit.now (program_of self.new) result }
        ensures memory { NoMemoryOnlyWhere (may_want_memory (program_of self.old) edit.now) result }
        ensures enough { HasRoom self.old.definitions edit.now → NoMemoryOnlyWhere false result }
        ensures room { OnOk result (HasRoom self.new.definitions edit.now) }
        ensures room_stays { RoomStays self.old.definitions.rooms self.new.definitions.rooms }
    {
        match edit {
            Edit::AddClass { class, parents } => self.add_class(*class, parents.classes()),
            Edit::DropClass { class } => self.drop_class(*class),
            Edit::Link { class, parent } => self.link(*class, *parent),
            Edit::Unlink { class, parent } => self.unlink(*class, *parent),
            Edit::AddSelector { selector, arity } => self.add_selector(*selector, *arity),
            Edit::DropSelector { selector } => self.drop_selector(*selector),
            Edit::Define {
                selector,
                classes,
                body,
            } => self.define(*selector, *classes, *body),
            Edit::Undefine { selector, classes } => self.undefine(*selector, classes.classes()),
        }
    }

    fn add_class(&mut self, class: ClassNo, parents: &[ClassNo]) -> Result<(), ApplyFault>
        ensures applies { Applies (program_of self.old) (Edit.AddClass class parents.now) (program_of self.new) result }
        ensures memory { NoMemoryOnlyWhere false result }
        ensures definitions_stay { self.new.definitions ≡ self.old.definitions }
    {
        Ok(self.graph.add(class, parents)?)
    }

    fn drop_class(&mut self, class: ClassNo) -> Result<(), ApplyFault>
        ensures applies { Applies (program_of self.old) (Edit.DropClass class) (program_of self.new) result }
        ensures memory { NoMemoryOnlyWhere false result }
        ensures definitions_stay { self.new.definitions ≡ self.old.definitions }
    {
        if self.definitions.names(class) {
            return Err(ApplyFault::from(self.cause_to_keep(class)));
        }
        Ok(self.graph.drop_class(class)?)
    }

    fn link(&mut self, class: ClassNo, parent: ClassNo) -> Result<(), ApplyFault>
        ensures applies { Applies (program_of self.old) (Edit.Link class parent) (program_of self.new) result }
        ensures memory { NoMemoryOnlyWhere false result }
        ensures definitions_stay { self.new.definitions ≡ self.old.definitions }
    {
        Ok(self.graph.link(class, parent)?)
    }

    fn unlink(&mut self, class: ClassNo, parent: ClassNo) -> Result<(), ApplyFault>
        ensures applies { Applies (program_of self.old) (Edit.Unlink class parent) (program_of self.new) result }
        ensures memory { NoMemoryOnlyWhere false result }
        ensures definitions_stay { self.new.definitions ≡ self.old.definitions }
    {
        Ok(self.graph.unlink(class, parent)?)
    }

    fn add_selector(&mut self, selector: SelNo, arity: Arity) -> Result<(), ApplyFault>
        ensures applies { Applies (program_of self.old) (Edit.AddSelector selector arity) (program_of self.new) result }
        ensures memory { NoMemoryOnlyWhere false result }
        ensures definitions_stay { self.new.definitions ≡ self.old.definitions }
    {
        Ok(self.selectors.add(selector, arity)?)
    }

    fn drop_selector(&mut self, selector: SelNo) -> Result<(), ApplyFault>
        ensures applies { Applies (program_of self.old) (Edit.DropSelector selector) (program_of self.new) result }
        ensures memory { NoMemoryOnlyWhere false result }
        ensures definitions_stay { self.new.definitions ≡ self.old.definitions }
    {
        if let Some(why) = self.drop_selector_cause(selector) {
            return Err(ApplyFault::from(why));
        }
        Ok(self.selectors.drop_sel(selector)?)
    }

    fn define(&mut self, selector: SelNo, classes: Tuple, body: BodyNo) -> Result<(), ApplyFault>
        requires { Lawful (program_of self.old) }
        ensures applies { Applies (program_of self.old) (Edit.Define selector classes body) (program_of self.new) result }
        ensures memory { NoMemoryOnlyWhere (may_want_memory (program_of self.old) (Edit.Define selector classes body)) result }
        ensures enough { HasRoomFor self.old.definitions selector classes → NoMemoryOnlyWhere false result }
        ensures room { OnOk result (HasRoomFor self.new.definitions selector classes) }
        ensures room_stays { RoomStays self.old.definitions.rooms self.new.definitions.rooms }
    {
        if let Some(why) = self.define_cause(selector, classes.classes()) {
            return Err(ApplyFault::from(why));
        }
        Ok(self.definitions.put(selector, classes, body)?)
    }

    fn undefine(&mut self, selector: SelNo, classes: &[ClassNo]) -> Result<(), ApplyFault>
        ensures applies { Applies (program_of self.old) (Edit.Undefine selector classes.now) (program_of self.new) result }
        ensures memory { NoMemoryOnlyWhere false result }
        ensures room { OnOk result (HasRoomFor self.new.definitions selector classes.now) }
        ensures room_stays { RoomStays self.old.definitions.rooms self.new.definitions.rooms }
    {
        if let Some(why) = self.undefine_cause(selector, classes) {
            return Err(ApplyFault::from(why));
        }
        self.definitions.remove(selector, classes);
        Ok(())
    }
}
