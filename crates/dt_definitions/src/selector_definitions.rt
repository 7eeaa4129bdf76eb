ghost use Rattle.std.specs.Prelude.{◌≡◌, ℕ, ◌<◌, ◌≤◌, [], length, filter, not, is_some, is_none, None, IsTrue, IsOk, IfOk, OnErr, OnOk};
ghost use Rattle.dt_definitions.specs.Program.{are_classes_before, insert_definition, is_definition};
ghost use Rattle.dt_definitions.specs.SelectorLists.{ListAscends, ListSearched, classes_at, with_selector, body_in};
ghost use Rattle.dt_definitions.specs.Search.{first_place};

use crate::class_order::{is_before, is_same};
use crate::defined::Defined;
use crate::tuple::Tuple;
use dt_graph::{ClassNo, NoMemory};
use dt_selectors::BodyNo;
use std::alloc::Global;
use std::marker::Model;

// The definitions of one selector, in ascending order of their classes.
#[derive(Debug, Drop)]
pub(crate) struct SelectorDefinitions {
    defined: Vec<Defined>,
}

impl Model for SelectorDefinitions {
    ghost use Rattle.std.specs.Vec.{vec_capacity};
    ghost use Rattle.dt_definitions.specs.SelectorLists.{SelectorList, ListAscends};

    ghost Value = { SelectorList };

    ghost view = { λ r. record { defined = r.defined.items; room = vec_capacity r.defined } };

    ghost invariant = { λ r. ListAscends r.defined.items };
}

// The first place from 0 of the row whose classes don't stand before these.
fn place_in(row: &[Defined], classes: &[ClassNo]) -> usize
    requires { ListAscends row.now }
    ensures { result ≡ first_place classes_at are_classes_before classes.now row.now }
{
    let mut low = 0;
    let mut high = row.len();
    while low < high {
        let middle = low + (high - low) / 2;
        if is_before(row[middle].classes.classes(), classes) {
            low = middle + 1;
        } else {
            high = middle;
        }
    }
    low
}

// The place of the definition at these classes, or else the place at which it would stand.
fn search(row: &[Defined], classes: &[ClassNo]) -> Result<usize, usize>
    requires { ListAscends row.now }
    ensures { ListSearched row.now classes.now result }
{
    let place = place_in(row, classes);
    let Some(defined) = row.get(place) else {
        return Err(place);
    };
    if is_same(defined.classes.classes(), classes) {
        Ok(place)
    } else {
        Err(place)
    }
}

impl SelectorDefinitions {
    // A row with no definition. It takes no memory.
    pub(crate) fn new(alloc: Global) -> SelectorDefinitions
        ensures { result.defined ≡ [] }
    {
        SelectorDefinitions {
            defined: Vec::new(alloc),
        }
    }

    // The definitions.
    pub(crate) fn as_slice(&self) -> &[Defined]
        ensures { result.now ≡ self.now.defined }
    {
        &self.defined
    }

    // The body at these classes; `None` exactly where they aren't defined.
    pub(crate) fn body(&self, classes: &[ClassNo]) -> Option<BodyNo>
        ensures { result ≡ body_in self.now.defined classes.now }
    {
        match search(&self.defined, classes) {
            Ok(place) => Some(self.defined[place].body),
            Err(_) => None,
        }
    }

    // Gives the classes this body, in place of one that they have; answers whether they had none.
    pub(crate) fn put(&mut self, classes: Tuple, body: BodyNo) -> Result<bool, NoMemory>
        ensures is_new { IfOk result (λ is_new. is_new ≡ is_none (body_in self.old.defined classes)) }
        ensures ok { OnOk result ((selector : ℕ) → with_selector selector self.new.defined
            ≡ insert_definition (record { selector = selector; classes = classes; body = body }) (with_selector selector self.old.defined)) }
        ensures err { OnErr result (self.new.defined ≡ self.old.defined) }
        ensures room_stays { self.old.room ≤ self.new.room }
        ensures succeeds { (body_in self.old.defined classes ≡ None → length self.old.defined < self.old.room) → IsOk result }
    {
        match search(&self.defined, classes.classes()) {
            Ok(place) => {
                self.defined[place] = Defined { classes, body };
                Ok(false)
            }
            Err(place) => {
                self.defined.insert(place, Defined { classes, body })?;
                Ok(true)
            }
        }
    }

    // Takes the definition at these classes away; answers whether it was there.
    pub(crate) fn remove(&mut self, classes: &[ClassNo]) -> bool
        ensures was_there { result ≡ is_some (body_in self.old.defined classes.now) }
        ensures after { (selector : ℕ) → with_selector selector self.new.defined
            ≡ filter (λ d. not (is_definition selector classes.now d)) (with_selector selector self.old.defined) }
        ensures room_stays { self.new.room ≡ self.old.room }
        ensures room_left { IsTrue result → length self.new.defined < self.new.room }
    {
        match search(&self.defined, classes) {
            Ok(place) => {
                self.defined.remove(place);
                true
            }
            Err(_) => false,
        }
    }

    // Gives memory back where less than a quarter of the room is used.
    pub(crate) fn give_back(&mut self)
        ensures { self.new.defined ≡ self.old.defined }
    {
        let used = self.defined.len();
        if used < self.defined.capacity() / 4 {
            self.defined.shrink_to(used * 2);
        }
    }

    // An equal list.
    pub(crate) fn copy(&self) -> Result<SelectorDefinitions, NoMemory>
        ensures { IfOk result (λ row. row.defined ≡ self.now.defined) }
    {
        let defined = self.defined.clone()?;
        Ok(SelectorDefinitions { defined })
    }
}
