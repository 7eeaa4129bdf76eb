ghost use Rattle.std.specs.Prelude.{◌≡◌, ◌==◌, ℕ, ◌≤◌, [], length, filter, not, false, true, IsTrue, IsOk, IfOk, OnOk, OnErr};
ghost use Rattle.std.specs.List.{list_any};
ghost use Rattle.dt_graph.specs.Graph.{has_number};
ghost use Rattle.dt_definitions.specs.declared.limits.TheConstants.{DEFINITIONS};
ghost use Rattle.dt_definitions.specs.Program.{is_definition, insert_definition, body_of};
ghost use Rattle.dt_definitions.specs.Naming.{naming};
ghost use Rattle.dt_definitions.specs.SelectorLists.{with_selector, definitions_from, rooms_of, HasRoomFor, ListRoomFor, RoomStays, NoneShrinks, NoneDefined, HaveSameDefinitions};

use crate::defined::Defined;
use crate::definition_key::DefinitionKey;
use crate::naming_index::NamingIndex;
use crate::selector_definitions::SelectorDefinitions;
use crate::tuple::Tuple;
use dt_graph::{ClassNo, NoMemory};
use dt_selectors::{BodyNo, SELECTORS, SelNo};
use std::alloc::Global;
use std::marker::Model;

// The definitions of a program, each in the row of its selector.
#[derive(Debug, Drop)]
pub(crate) struct AllDefinitions {
    rows: Vec<SelectorDefinitions>,
    count: u32,
    index: NamingIndex,
}

impl Model for AllDefinitions {
    ghost use Rattle.dt_definitions.specs.SelectorLists.{Definitions, shown_by, DefinitionsKept};

    ghost Value = { Definitions };

    ghost view = { λ t. shown_by t.rows.items t.index };

    ghost invariant = { λ t. DefinitionsKept t.rows.items t.count t.index };
}

// A row for each selector, none with a definition.
fn empty_lists(alloc: Global) -> Result<Vec<SelectorDefinitions>, NoMemory>
    ensures { IfOk result (λ rows. (length rows.items ≡ SELECTORS) × NoneDefined rows.items) }
{
    let mut rows = Vec::with_capacity(alloc, SELECTORS as usize)?;
    for _ in 0..SELECTORS {
        rows.push(SelectorDefinitions::new(alloc))?;
    }
    Ok(rows)
}

// Puts the definition into the row of its selector; answers whether it was new.
fn put_in(
    rows: &mut Vec<SelectorDefinitions>,
    selector: SelNo,
    classes: Tuple,
    body: BodyNo,
) -> Result<bool, NoMemory>
    requires { length rows.old.items ≡ SELECTORS }
    ensures ok { OnOk result (definitions_from 0 rows.new.items
        ≡ insert_definition (record { selector = selector; classes = classes; body = body }) (definitions_from 0 rows.old.items)) }
    ensures is_new { IfOk result (λ is_new. is_new ≡ not (list_any (is_definition selector classes) (definitions_from 0 rows.old.items))) }
    ensures err { OnErr result (definitions_from 0 rows.new.items ≡ definitions_from 0 rows.old.items) }
    ensures all_selectors { length rows.new.items ≡ SELECTORS }
    ensures room_stays { NoneShrinks (rooms_of rows.old.items) (rooms_of rows.new.items) }
    ensures succeeds { ListRoomFor (definitions_from 0 rows.old.items) (rooms_of rows.old.items) selector classes → IsOk result }
{
    rows[selector.number() as usize].put(classes, body)
}

// Takes the definition out of the row of its selector; answers whether it was there.
fn remove_from(rows: &mut Vec<SelectorDefinitions>, selector: SelNo, classes: &[ClassNo]) -> bool
    requires { length rows.old.items ≡ SELECTORS }
    ensures after { definitions_from 0 rows.new.items
        ≡ filter (λ d. not (is_definition selector classes.now d)) (definitions_from 0 rows.old.items) }
    ensures was_there { result ≡ list_any (is_definition selector classes.now) (definitions_from 0 rows.old.items) }
    ensures all_selectors { length rows.new.items ≡ SELECTORS }
    ensures room_stays { rooms_of rows.new.items ≡ rooms_of rows.old.items }
    ensures room_left { IsTrue result → ListRoomFor (definitions_from 0 rows.new.items) (rooms_of rows.new.items) selector classes.now }
{
    rows[selector.number() as usize].remove(classes)
}

// Gives back what the list of the selector doesn't use.
fn give_back_in(rows: &mut Vec<SelectorDefinitions>, selector: SelNo)
    requires { length rows.old.items ≡ SELECTORS }
    ensures all_selectors { length rows.new.items ≡ SELECTORS }
    ensures stay { definitions_from 0 rows.new.items ≡ definitions_from 0 rows.old.items }
{
    rows[selector.number() as usize].give_back();
}

// Equal lists.
fn copy_lists(rows: &Vec<SelectorDefinitions>) -> Result<Vec<SelectorDefinitions>, NoMemory>
    ensures { IfOk result (λ copy. HaveSameDefinitions rows.now.items copy.items) }
{
    let alloc = *rows.allocator();
    let mut copy = Vec::with_capacity(alloc, rows.len())?;
    for row in rows {
        copy.push(row.copy()?)?;
    }
    Ok(copy)
}

impl AllDefinitions {
    // A table with no definition.
    pub(crate) fn new(alloc: Global) -> Result<AllDefinitions, NoMemory>
        ensures { IfOk result (λ table. table.all ≡ []) }
    {
        let rows = empty_lists(alloc)?;
        let index = NamingIndex::new(alloc)?;
        Ok(AllDefinitions {
            rows,
            count: 0,
            index,
        })
    }

    // How many definitions there are.
    pub(crate) fn len(&self) -> u32
        ensures { result ≡ length self.now.all }
    {
        self.count
    }

    // The selector's definitions.
    pub(crate) fn of(&self, selector: SelNo) -> &[Defined]
        ensures { with_selector selector result.now ≡ filter (λ d. d.selector == selector) self.now.all }
    {
        self.rows[selector.number() as usize].as_slice()
    }

    // Whether the selector has a definition.
    pub(crate) fn is_defined(&self, selector: SelNo) -> bool
        ensures { result ≡ list_any (λ d. d.selector == selector) self.now.all }
    {
        !self.of(selector).is_empty()
    }

    // Where the definitions that name the class stand, in ascending order.
    pub(crate) fn naming(&self, class: ClassNo) -> &[DefinitionKey]
        ensures { result.now ≡ naming self.now.all class }
    {
        self.index.of(class)
    }

    // Whether a definition names the class.
    pub(crate) fn names(&self, class: ClassNo) -> bool
        ensures { result ≡ list_any (λ d. has_number d.classes class) self.now.all }
    {
        !self.naming(class).is_empty()
    }

    // The body of the selector at these classes; `None` exactly where they aren't defined.
    pub(crate) fn body(&self, selector: SelNo, classes: &[ClassNo]) -> Option<BodyNo>
        ensures { result ≡ body_of self.now.all selector classes.now }
    {
        self.rows[selector.number() as usize].body(classes)
    }

    // Whether the selector is defined at these classes.
    pub(crate) fn has(&self, selector: SelNo, classes: &[ClassNo]) -> bool
        ensures { result ≡ list_any (is_definition selector classes.now) self.now.all }
    {
        self.body(selector, classes).is_some()
    }

    // Gives the selector this body in place of the one that it has at these classes.
    fn put_again(&mut self, selector: SelNo, classes: Tuple, body: BodyNo) -> Result<(), NoMemory>
        requires { IsTrue (list_any (is_definition selector classes) self.old.all) }
        ensures ok { OnOk result (self.new.all
            ≡ insert_definition (record { selector = selector; classes = classes; body = body }) self.old.all) }
        ensures err { OnErr result (self.new.all ≡ self.old.all) }
        ensures room_stays { RoomStays self.old.rooms self.new.rooms }
        ensures succeeds { IsOk result }
    {
        let _is_new = put_in(&mut self.rows, selector, classes, body)?;
        Ok(())
    }

    // Gives the selector this body at these classes, where it has none.
    fn put_new(&mut self, selector: SelNo, classes: Tuple, body: BodyNo) -> Result<(), NoMemory>
        requires absent { list_any (is_definition selector classes) self.old.all ≡ false }
        requires few { length self.old.all ≤ DEFINITIONS }
        ensures ok { OnOk result (self.new.all
            ≡ insert_definition (record { selector = selector; classes = classes; body = body }) self.old.all) }
        ensures err { OnErr result (self.new.all ≡ self.old.all) }
        ensures room_stays { RoomStays self.old.rooms self.new.rooms }
        ensures succeeds { HasRoomFor self.old selector classes → IsOk result }
    {
        // All the room is taken before the first change.
        self.index.reserve(classes.classes())?;
        let _is_new = put_in(&mut self.rows, selector, classes, body)?;
        self.count += 1;
        self.index.insert(&DefinitionKey { selector, classes });
        Ok(())
    }

    // Gives the selector this body at these classes, in place of one that it has there.
    pub(crate) fn put(
        &mut self,
        selector: SelNo,
        classes: Tuple,
        body: BodyNo,
    ) -> Result<(), NoMemory>
        requires { length self.old.all ≤ DEFINITIONS }
        ensures ok { OnOk result (self.new.all
            ≡ insert_definition (record { selector = selector; classes = classes; body = body }) self.old.all) }
        ensures err { OnErr result (self.new.all ≡ self.old.all) }
        ensures room_stays { RoomStays self.old.rooms self.new.rooms }
        ensures succeeds { HasRoomFor self.old selector classes → IsOk result }
    {
        if self.has(selector, classes.classes()) {
            self.put_again(selector, classes, body)
        } else {
            self.put_new(selector, classes, body)
        }
    }

    // Takes the selector's definition at these classes away, if it is there.
    pub(crate) fn remove(&mut self, selector: SelNo, classes: &[ClassNo])
        ensures after { self.new.all ≡ filter (λ d. not (is_definition selector classes.now d)) self.old.all }
        ensures room_stays { RoomStays self.old.rooms self.new.rooms }
        ensures room_left { IsTrue (list_any (is_definition selector classes.now) self.old.all)
            → HasRoomFor self.new selector classes.now }
    {
        if remove_from(&mut self.rows, selector, classes) {
            self.count -= 1;
            self.index.remove(selector, classes);
        }
    }

    // Gives back what the lists of the selector and of these classes don't use.
    pub(crate) fn give_back(&mut self, selector: SelNo, classes: &[ClassNo])
        ensures { self.new.all ≡ self.old.all }
    {
        give_back_in(&mut self.rows, selector);
        self.index.give_back(classes);
    }

    // Equal definitions.
    pub(crate) fn copy(&self) -> Result<AllDefinitions, NoMemory>
        ensures { IfOk result (λ table. table.all ≡ self.now.all) }
    {
        let rows = copy_lists(&self.rows)?;
        let index = self.index.copy()?;
        Ok(AllDefinitions {
            rows,
            count: self.count,
            index,
        })
    }
}
