ghost use Rattle.std.specs.Prelude.{◌≡◌, ℕ, ◌<◌, [], length, if◌then◌else◌, IsTrue, IsOk, IsSome, IfOk, OnOk};
ghost use Rattle.dt_graph.specs.Graph.{has_number};
ghost use Rattle.dt_definitions.specs.Naming.{insert_key, without_key, keys_at, HasRoomIn, HasRoomAgain, KeysStay, RoomsGrow};

use crate::definition_key::DefinitionKey;
use crate::naming::Naming;
use dt_graph::{CLASSES, ClassNo, NoMemory};
use dt_selectors::SelNo;
use std::alloc::Global;
use std::marker::Model;

// For each class, where the definitions that name it stand.
#[derive(Debug, Drop)]
pub(crate) struct NamingIndex {
    lists: Vec<Naming>,
}

impl Model for NamingIndex {
    ghost use Rattle.std.specs.Prelude.{◌≡◌, List, length};
    ghost use Rattle.dt_graph.specs.declared.limits.TheConstants.{CLASSES};
    ghost use Rattle.dt_definitions.specs.Naming.{NamingList};

    ghost Value = { List NamingList };

    ghost view = { λ i. i.lists.items };

    ghost invariant = { λ i. length i.lists.items ≡ CLASSES };
}

// A list for each class, none with a definition.
fn empty_lists(alloc: Global) -> Result<Vec<Naming>, NoMemory>
    ensures { IfOk result (λ lists. (length lists.items ≡ CLASSES) × ((class : ℕ) → keys_at lists.items class ≡ [])) }
{
    let mut lists = Vec::with_capacity(alloc, CLASSES as usize)?;
    for _ in 0..CLASSES {
        lists.push(Naming::new(alloc))?;
    }
    Ok(lists)
}

// Takes the room for one more in the lists of these classes.
fn reserve_in(lists: &mut Vec<Naming>, classes: &[ClassNo]) -> Result<(), NoMemory>
    requires { length lists.old.items ≡ CLASSES }
    ensures all_classes { length lists.new.items ≡ CLASSES }
    ensures keys { KeysStay lists.old.items lists.new.items }
    ensures room_stays { RoomsGrow lists.old.items lists.new.items }
    ensures ok { OnOk result (HasRoomIn lists.new.items classes.now) }
    ensures succeeds { HasRoomIn lists.old.items classes.now → IsOk result }
{
    for class in classes {
        lists[class.number() as usize].reserve()?;
    }
    Ok(())
}

// Puts the key into the list of each class that it names, once, however often the class stands there.
fn insert_in(lists: &mut Vec<Naming>, key: &DefinitionKey)
    requires all_classes { length lists.old.items ≡ CLASSES }
    requires room { HasRoomIn lists.old.items key.now.classes }
    ensures all_classes { length lists.new.items ≡ CLASSES }
    ensures keys { (class : ℕ) → keys_at lists.new.items class
        ≡ (if has_number key.now.classes class then insert_key key.now (keys_at lists.old.items class) else keys_at lists.old.items class) }
    ensures room_stays { RoomsGrow lists.old.items lists.new.items }
{
    let classes = key.classes.classes();
    for (place, class) in classes.iter().enumerate() {
        if !classes[..place].contains(class) {
            lists[class.number() as usize].insert(key);
        }
    }
}

// Takes the selector at these classes out of the list of each of them.
fn remove_in(lists: &mut Vec<Naming>, selector: SelNo, classes: &[ClassNo])
    requires { length lists.old.items ≡ CLASSES }
    ensures all_classes { length lists.new.items ≡ CLASSES }
    ensures keys { (class : ℕ) → keys_at lists.new.items class
        ≡ (if has_number classes.now class then without_key (record { selector = selector; classes = classes.now }) (keys_at lists.old.items class)
        else keys_at lists.old.items class) }
    ensures room_stays { RoomsGrow lists.old.items lists.new.items }
    ensures room_left { HasRoomAgain (record { selector = selector; classes = classes.now }) lists.old.items lists.new.items classes.now }
{
    for (place, class) in classes.iter().enumerate() {
        if classes[..place].contains(class) {
            continue;
        }
        lists[class.number() as usize].remove(selector, classes);
    }
}

// Gives back what the lists of these classes don't use.
fn give_back_in(lists: &mut Vec<Naming>, classes: &[ClassNo])
    requires { length lists.old.items ≡ CLASSES }
    ensures all_classes { length lists.new.items ≡ CLASSES }
    ensures keys { KeysStay lists.old.items lists.new.items }
{
    for class in classes {
        lists[class.number() as usize].give_back();
    }
}

// Equal lists.
fn copy_lists(lists: &Vec<Naming>) -> Result<Vec<Naming>, NoMemory>
    ensures same { IfOk result (λ copy. KeysStay lists.now.items copy.items) }
    ensures all_classes { IfOk result (λ copy. length copy.items ≡ length lists.now.items) }
{
    let alloc = *lists.allocator();
    let mut copy = Vec::with_capacity(alloc, lists.len())?;
    for list in lists {
        copy.push(list.copy()?)?;
    }
    Ok(copy)
}

impl NamingIndex {
    // An index with no definition.
    pub(crate) fn new(alloc: Global) -> Result<NamingIndex, NoMemory>
        ensures { IfOk result (λ index. (class : ℕ) → keys_at index class ≡ []) }
    {
        let lists = empty_lists(alloc)?;
        Ok(NamingIndex { lists })
    }

    // Where the definitions that name the class stand.
    pub(crate) fn of(&self, class: ClassNo) -> &[DefinitionKey]
        ensures value { result.now ≡ keys_at self.now class }
        ensures in_range { class < CLASSES }
    {
        self.lists[class.number() as usize].as_slice()
    }

    // Takes the room for one more in the lists of these classes.
    pub(crate) fn reserve(&mut self, classes: &[ClassNo]) -> Result<(), NoMemory>
        ensures keys { KeysStay self.old self.new }
        ensures room_stays { RoomsGrow self.old self.new }
        ensures ok { OnOk result (HasRoomIn self.new classes.now) }
        ensures succeeds { HasRoomIn self.old classes.now → IsOk result }
    {
        reserve_in(&mut self.lists, classes)
    }

    // Puts the key into the list of each class that it names. There is room.
    pub(crate) fn insert(&mut self, key: &DefinitionKey)
        requires { HasRoomIn self.old key.now.classes }
        ensures keys { (class : ℕ) → keys_at self.new class
            ≡ (if has_number key.now.classes class then insert_key key.now (keys_at self.old class) else keys_at self.old class) }
        ensures room_stays { RoomsGrow self.old self.new }
    {
        insert_in(&mut self.lists, key);
    }

    // Takes the selector at these classes out of the list of each of them.
    pub(crate) fn remove(&mut self, selector: SelNo, classes: &[ClassNo])
        ensures keys { (class : ℕ) → keys_at self.new class
            ≡ (if has_number classes.now class then without_key (record { selector = selector; classes = classes.now }) (keys_at self.old class)
            else keys_at self.old class) }
        ensures room_stays { RoomsGrow self.old self.new }
        ensures room_left { HasRoomAgain (record { selector = selector; classes = classes.now }) self.old self.new classes.now }
    {
        remove_in(&mut self.lists, selector, classes);
    }

    // Gives back what the lists of these classes don't use.
    pub(crate) fn give_back(&mut self, classes: &[ClassNo])
        ensures { KeysStay self.old self.new }
    {
        give_back_in(&mut self.lists, classes);
    }

    // An equal index.
    pub(crate) fn copy(&self) -> Result<NamingIndex, NoMemory>
        ensures { IfOk result (λ index. KeysStay self.now index) }
    {
        let lists = copy_lists(&self.lists)?;
        Ok(NamingIndex { lists })
    }
}
