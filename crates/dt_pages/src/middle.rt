ghost use Rattle.std.specs.Prelude.{◌≡◌, ◌<◌, ◌==◌, ℕ, true, length, get_or, None, Some, IfOk, OnOk, if◌then◌else◌};
ghost use Rattle.dt_pages.specs.TreeForm.{word_of_middle, has_leaf, has_either_leaf};

use crate::leaf::{LEAF, Leaf};
use dt_graph::NoMemory;
use std::alloc::Global;
use std::marker::Model;

// How many leaves a middle node stands over.
const LEAVES: usize = 512;

// How many words a middle node stands over.
pub(crate) const MIDDLE: usize = LEAVES * LEAF;

// The words of 512 leaves that follow one another. A leaf that was never written is missing, and its words are 0.
#[derive(Drop)]
pub(crate) struct Middle {
    leaves: Vec<Option<Leaf>>,
}

impl Model for Middle {
    ghost use Rattle.std.specs.Prelude.{◌≡◌, length};
    ghost use Rattle.dt_pages.specs.TreeForm.{MiddleForm};

    ghost Value = { MiddleForm };

    ghost view = { λ m. m.leaves.items };

    ghost invariant = { λ m. length m.leaves.items ≡ 512 };
}

// So many missing leaves.
fn no_leaves(alloc: Global, count: usize) -> Result<Vec<Option<Leaf>>, NoMemory>
    ensures count { IfOk result (λ leaves. length leaves.items ≡ count) }
    ensures missing { IfOk result (λ leaves. (at : ℕ) → get_or leaves.items at None ≡ None) }
{
    let mut leaves = Vec::with_capacity(alloc, count)?;
    for _ in 0..count {
        leaves.push(None)?;
    }
    Ok(leaves)
}

impl Middle {
    // A node without leaves.
    pub(crate) fn new(alloc: Global) -> Result<Middle, NoMemory>
        ensures { IfOk result (λ middle. (at : ℕ) → word_of_middle (Some middle) at ≡ 0) }
    {
        let leaves = no_leaves(alloc, LEAVES)?;
        Ok(Middle { leaves })
    }

    // The word at this place.
    pub(crate) fn word(&self, at: usize) -> u64
        requires { at < 262144 }
        ensures { result ≡ word_of_middle (Some self.now) at }
    {
        match &self.leaves[at / LEAF] {
            Some(leaf) => leaf.word(at % LEAF),
            None => 0,
        }
    }

    // The leaf of this place is there; no word changes.
    pub(crate) fn make_room(&mut self, alloc: Global, at: usize) -> Result<(), NoMemory>
        requires { at < 262144 }
        ensures words { (q : ℕ) → word_of_middle (Some self.new) q ≡ word_of_middle (Some self.old) q }
        ensures others { (q : ℕ) → has_leaf (Some self.old) q ≡ true → has_leaf (Some self.new) q ≡ true }
        ensures room { OnOk result (has_leaf (Some self.new) at ≡ true) }
    {
        let place = at / LEAF;
        if self.leaves[place].is_none() {
            self.leaves[place] = Some(Leaf::new(alloc)?);
        }
        Ok(())
    }

    // The leaf of this place, where it is missing, is taken from a node without words; no word changes.
    pub(crate) fn take_leaf(&mut self, room: &mut Middle, at: usize)
        requires within { at < 262144 }
        requires zeros { (q : ℕ) → q < 262144 → word_of_middle (Some room.old) q ≡ 0 }
        ensures words { (q : ℕ) → word_of_middle (Some self.new) q ≡ word_of_middle (Some self.old) q }
        ensures zeros { (q : ℕ) → q < 262144 → word_of_middle (Some room.new) q ≡ 0 }
        ensures either { (q : ℕ) → has_either_leaf (Some self.new) (Some room.new) q ≡ has_either_leaf (Some self.old) (Some room.old) q }
        ensures there { has_either_leaf (Some self.old) (Some room.old) at ≡ true → has_leaf (Some self.new) at ≡ true }
    {
        let place = at / LEAF;
        if self.leaves[place].is_none() {
            self.leaves[place] = room.leaves[place].take();
        }
    }

    // The word at this place, whose leaf is there, is another.
    pub(crate) fn set(&mut self, at: usize, word: u64)
        requires within { at < 262144 }
        requires room { has_leaf (Some self.old) at ≡ true }
        ensures words { (q : ℕ) → word_of_middle (Some self.new) q ≡ (if q == at then word else word_of_middle (Some self.old) q) }
        ensures rooms { (q : ℕ) → has_leaf (Some self.new) q ≡ has_leaf (Some self.old) q }
    {
        if let Some(leaf) = &mut self.leaves[at / LEAF] {
            leaf.set(at % LEAF, word);
        }
    }
}
