ghost use Rattle.std.specs.Prelude.{◌≡◌, ◌<◌, ◌==◌, ◌/◌, ℕ, true, length, get_or, is_some, None, OnOk, if◌then◌else◌};
ghost use Rattle.std.specs.FinMap.{get};
ghost use Rattle.dt_pages.specs.Reading.{addresses};
ghost use Rattle.dt_pages.specs.Draft.{laid_over};
ghost use Rattle.dt_pages.specs.TreeForm.{word_of_tree, has_room, has_either, AreRooms};

use crate::changes::Changes;
use crate::draft::Draft;
use crate::middle::{MIDDLE, Middle};
use crate::paged::ADDRESSES;
use dt_graph::NoMemory;
use std::alloc::Global;

// The middle node of this place is there; no word changes.
fn make_middle(
    alloc: Global,
    middles: &mut Vec<Option<Middle>>,
    place: usize,
) -> Result<(), NoMemory>
    requires { place < length middles.old.items }
    ensures count { length middles.new.items ≡ length middles.old.items }
    ensures words { (q : ℕ) → word_of_tree middles.new.items q ≡ word_of_tree middles.old.items q }
    ensures others { (q : ℕ) → has_room middles.old.items q ≡ true → has_room middles.new.items q ≡ true }
    ensures there { OnOk result (is_some (get_or middles.new.items place None) ≡ true) }
{
    if middles[place].is_none() {
        middles[place] = Some(Middle::new(alloc)?);
    }
    Ok(())
}

// The leaf of the address, whose middle node is there, is there; no word changes.
fn make_leaf(alloc: Global, middles: &mut Vec<Option<Middle>>, at: usize) -> Result<(), NoMemory>
    requires count { length middles.old.items ≡ 512 }
    requires within { at < addresses }
    requires there { is_some (get_or middles.old.items (at / 262144) None) ≡ true }
    ensures count { length middles.new.items ≡ 512 }
    ensures words { (q : ℕ) → word_of_tree middles.new.items q ≡ word_of_tree middles.old.items q }
    ensures others { (q : ℕ) → has_room middles.old.items q ≡ true → has_room middles.new.items q ≡ true }
    ensures room { OnOk result (has_room middles.new.items at ≡ true) }
{
    match &mut middles[at / MIDDLE] {
        Some(middle) => middle.make_room(alloc, at % MIDDLE),
        None => Ok(()),
    }
}

// The word at the address, whose leaf is there, is another.
fn lay(middles: &mut Vec<Option<Middle>>, at: usize, word: u64)
    requires count { length middles.old.items ≡ 512 }
    requires within { at < addresses }
    requires room { has_room middles.old.items at ≡ true }
    ensures count { length middles.new.items ≡ 512 }
    ensures words { (q : ℕ) → word_of_tree middles.new.items q ≡ (if q == at then word else word_of_tree middles.old.items q) }
    ensures rooms { (q : ℕ) → has_room middles.new.items q ≡ has_room middles.old.items q }
{
    if let Some(middle) = &mut middles[at / MIDDLE] {
        middle.set(at % MIDDLE, word);
    }
}

// The leaves of all words of the draft are there; no word changes.
pub(crate) fn make_rooms(middles: &mut Vec<Option<Middle>>, draft: &Draft) -> Result<(), NoMemory>
    requires { length middles.old.items ≡ 512 }
    ensures count { length middles.new.items ≡ 512 }
    ensures words { (q : ℕ) → word_of_tree middles.new.items q ≡ word_of_tree middles.old.items q }
    ensures rooms { OnOk result ((q : ℕ) → is_some (get draft.now q) ≡ true → has_room middles.new.items q ≡ true) }
{
    let alloc = *middles.allocator();
    for (at, _word) in &draft.words {
        let at = *at as usize;
        make_middle(alloc, middles, at / MIDDLE)?;
        make_leaf(alloc, middles, at)?;
    }
    Ok(())
}

// The words of the draft, whose leaves are there, are set.
pub(crate) fn lay_all(middles: &mut Vec<Option<Middle>>, draft: &Draft)
    requires count { length middles.old.items ≡ 512 }
    requires rooms { (q : ℕ) → is_some (get draft.now q) ≡ true → has_room middles.old.items q ≡ true }
    ensures count { length middles.new.items ≡ 512 }
    ensures words { (q : ℕ) → word_of_tree middles.new.items q ≡ laid_over draft.now (word_of_tree middles.old.items) q }
{
    for (at, word) in &draft.words {
        lay(middles, *at as usize, *word);
    }
}

// The middle node of this place, where it is missing, is taken from the rooms; no word changes.
fn move_middle(middles: &mut Vec<Option<Middle>>, rooms: &mut Vec<Option<Middle>>, at: usize)
    requires count { length middles.old.items ≡ 512 }
    requires rooms_count { length rooms.old.items ≡ 512 }
    requires within { at < addresses }
    requires zeros { (q : ℕ) → word_of_tree rooms.old.items q ≡ 0 }
    ensures count { length middles.new.items ≡ 512 }
    ensures rooms_count { length rooms.new.items ≡ 512 }
    ensures words { (q : ℕ) → word_of_tree middles.new.items q ≡ word_of_tree middles.old.items q }
    ensures zeros { (q : ℕ) → word_of_tree rooms.new.items q ≡ 0 }
    ensures either { (q : ℕ) → has_either middles.new.items rooms.new.items q ≡ has_either middles.old.items rooms.old.items q }
    ensures there { has_either middles.old.items rooms.old.items at ≡ true → is_some (get_or middles.new.items (at / 262144) None) ≡ true }
{
    let place = at / MIDDLE;
    if middles[place].is_none() {
        middles[place] = rooms[place].take();
    }
}

// The leaf of this address, where it is missing, is taken from the rooms; no word changes.
fn move_leaf(middles: &mut Vec<Option<Middle>>, rooms: &mut Vec<Option<Middle>>, at: usize)
    requires count { length middles.old.items ≡ 512 }
    requires rooms_count { length rooms.old.items ≡ 512 }
    requires within { at < addresses }
    requires zeros { (q : ℕ) → word_of_tree rooms.old.items q ≡ 0 }
    ensures count { length middles.new.items ≡ 512 }
    ensures rooms_count { length rooms.new.items ≡ 512 }
    ensures words { (q : ℕ) → word_of_tree middles.new.items q ≡ word_of_tree middles.old.items q }
    ensures zeros { (q : ℕ) → word_of_tree rooms.new.items q ≡ 0 }
    ensures either { (q : ℕ) → has_either middles.new.items rooms.new.items q ≡ has_either middles.old.items rooms.old.items q }
    ensures there { has_either middles.old.items rooms.old.items at ≡ true → is_some (get_or middles.old.items (at / 262144) None) ≡ true → has_room middles.new.items at ≡ true }
{
    if let Some(middle) = &mut middles[at / MIDDLE] {
        if let Some(room) = &mut rooms[at / MIDDLE] {
            middle.take_leaf(room, at % MIDDLE);
        }
    }
}

// The word at the address, whose leaf is there or among the rooms, is another; nothing changes where the position is no address.
fn lay_one(middles: &mut Vec<Option<Middle>>, rooms: &mut Vec<Option<Middle>>, at: u32, word: u64)
    requires count { length middles.old.items ≡ 512 }
    requires rooms_count { length rooms.old.items ≡ 512 }
    requires zeros { (q : ℕ) → word_of_tree rooms.old.items q ≡ 0 }
    requires room { at < addresses → has_either middles.old.items rooms.old.items at ≡ true }
    ensures count { length middles.new.items ≡ 512 }
    ensures rooms_count { length rooms.new.items ≡ 512 }
    ensures zeros { (q : ℕ) → word_of_tree rooms.new.items q ≡ 0 }
    ensures words { (q : ℕ) → q < addresses → word_of_tree middles.new.items q ≡ (if q == at then word else word_of_tree middles.old.items q) }
    ensures either { (q : ℕ) → has_either middles.new.items rooms.new.items q ≡ has_either middles.old.items rooms.old.items q }
{
    if at < ADDRESSES {
        let at = at as usize;
        move_middle(middles, rooms, at);
        move_leaf(middles, rooms, at);
        lay(middles, at, word);
    }
}

// The words of these changes are set, with leaves from the rooms where one is missing.
pub(crate) fn lay_changes(
    middles: &mut Vec<Option<Middle>>,
    rooms: &mut Vec<Option<Middle>>,
    changes: &Changes,
)
    requires count { length middles.old.items ≡ 512 }
    requires rooms { AreRooms rooms.old.items changes.now }
    ensures count { length middles.new.items ≡ 512 }
    ensures words { (q : ℕ) → q < addresses → word_of_tree middles.new.items q ≡ laid_over changes.now (word_of_tree middles.old.items) q }
{
    for (at, word) in &changes.values {
        lay_one(middles, rooms, *at, *word);
    }
}
