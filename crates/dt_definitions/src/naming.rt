ghost use Rattle.std.specs.Prelude.{◌≡◌, ◌<◌, ◌≤◌, [], length, IsOk, IsSome, IfOk, OnOk};
ghost use Rattle.dt_graph.specs.InOrder.{find_at};
ghost use Rattle.dt_definitions.specs.Program.{is_key_before, is_same_key};
ghost use Rattle.dt_definitions.specs.Search.{first_place};
ghost use Rattle.dt_definitions.specs.Naming.{itself, insert_key, without_key, KeysAscend, KeySearched};

use crate::class_order::{is_before, is_same};
use crate::definition_key::DefinitionKey;
use dt_graph::{ClassNo, NoMemory};
use dt_selectors::SelNo;
use std::alloc::Global;
use std::marker::Model;

// Where the definitions that name one class stand, in ascending order.
#[derive(Debug, Drop)]
pub(crate) struct Naming {
    keys: Vec<DefinitionKey>,
}

impl Model for Naming {
    ghost use Rattle.std.specs.Vec.{vec_capacity};
    ghost use Rattle.dt_definitions.specs.Naming.{NamingList, KeysAscend};

    ghost Value = { NamingList };

    ghost view = { λ n. record { keys = n.keys.items; room = vec_capacity n.keys } };

    ghost invariant = { λ n. KeysAscend n.keys.items };
}

// Whether the key stands before the selector at these classes.
fn is_key_before(key: &DefinitionKey, selector: SelNo, classes: &[ClassNo]) -> bool
    ensures { result ≡ is_key_before key.now (record { selector = selector; classes = classes.now }) }
{
    key.selector < selector
        || (key.selector == selector && is_before(key.classes.classes(), classes))
}

// Whether the key is the selector at these classes.
fn is_key_of(key: &DefinitionKey, selector: SelNo, classes: &[ClassNo]) -> bool
    ensures { result ≡ is_same_key (record { selector = selector; classes = classes.now }) key.now }
{
    key.selector == selector && is_same(key.classes.classes(), classes)
}

// The first place from 0 whose key doesn't stand before the selector at these classes.
fn key_place(keys: &[DefinitionKey], selector: SelNo, classes: &[ClassNo]) -> usize
    requires { KeysAscend keys.now }
    ensures { result ≡ first_place itself is_key_before (record { selector = selector; classes = classes.now }) keys.now }
{
    let mut low = 0;
    let mut high = keys.len();
    while low < high {
        let middle = low + (high - low) / 2;
        if is_key_before(&keys[middle], selector, classes) {
            low = middle + 1;
        } else {
            high = middle;
        }
    }
    low
}

// The place of the selector at these classes, or else the place at which it would stand.
fn search_keys(keys: &[DefinitionKey], selector: SelNo, classes: &[ClassNo]) -> Result<usize, usize>
    requires { KeysAscend keys.now }
    ensures { KeySearched keys.now (record { selector = selector; classes = classes.now }) result }
{
    let place = key_place(keys, selector, classes);
    let Some(key) = keys.get(place) else {
        return Err(place);
    };
    if is_key_of(key, selector, classes) {
        Ok(place)
    } else {
        Err(place)
    }
}

impl Naming {
    // No definition. It takes no memory.
    pub(crate) fn new(alloc: Global) -> Naming
        ensures { result.keys ≡ [] }
    {
        Naming {
            keys: Vec::new(alloc),
        }
    }

    // The keys.
    pub(crate) fn as_slice(&self) -> &[DefinitionKey]
        ensures { result.now ≡ self.now.keys }
    {
        &self.keys
    }

    // Takes the room for one more.
    pub(crate) fn reserve(&mut self) -> Result<(), NoMemory>
        ensures keys { self.new.keys ≡ self.old.keys }
        ensures room_stays { self.old.room ≤ self.new.room }
        ensures ok { OnOk result (length self.new.keys < self.new.room) }
        ensures succeeds { length self.old.keys < self.old.room → IsOk result }
    {
        Ok(self.keys.reserve(1)?)
    }

    // Puts the key into its place. There is room.
    pub(crate) fn insert(&mut self, key: &DefinitionKey)
        requires { length self.old.keys < self.old.room }
        ensures keys { self.new.keys ≡ insert_key key.now self.old.keys }
        ensures room_stays { self.old.room ≤ self.new.room }
    {
        match search_keys(&self.keys, key.selector, key.classes.classes()) {
            Ok(place) => self.keys[place] = *key,
            Err(place) => {
                if self.keys.insert(place, *key).is_err() {
                    unreachable!();
                }
            }
        }
    }

    // Takes the selector at these classes away, if it is there.
    pub(crate) fn remove(&mut self, selector: SelNo, classes: &[ClassNo])
        ensures keys { self.new.keys ≡ without_key (record { selector = selector; classes = classes.now }) self.old.keys }
        ensures room_stays { self.old.room ≤ self.new.room }
        ensures room_left { IsSome (find_at itself is_same_key (record { selector = selector; classes = classes.now }) self.old.keys)
            → length self.new.keys < self.new.room }
    {
        match search_keys(&self.keys, selector, classes) {
            Ok(place) => {
                self.keys.remove(place);
            }
            Err(_) => {}
        }
    }

    // Gives memory back where less than a quarter of the room is used.
    pub(crate) fn give_back(&mut self)
        ensures { self.new.keys ≡ self.old.keys }
    {
        let used = self.keys.len();
        if used < self.keys.capacity() / 4 {
            self.keys.shrink_to(used * 2);
        }
    }

    // Equal keys.
    pub(crate) fn copy(&self) -> Result<Naming, NoMemory>
        ensures { IfOk result (λ naming. naming.keys ≡ self.now.keys) }
    {
        let keys = self.keys.clone()?;
        Ok(Naming { keys })
    }
}
