ghost use Rattle.std.specs.Prelude.{◌≡◌, ◌<◌, ℕ, length, get_or, None, IfOk, OnOk, OnErr};
ghost use Rattle.std.specs.FinMap.{empty};
ghost use Rattle.dt_pages.specs.Reading.{addresses};
ghost use Rattle.dt_pages.specs.Image.{IsImage, look_up};
ghost use Rattle.dt_pages.specs.Draft.{laid_over};
ghost use Rattle.dt_pages.specs.TreeForm.{AreRooms};

use crate::changes::Changes;
use crate::draft::Draft;
use crate::middle::{MIDDLE, Middle};
use crate::overlay::{lay_all, lay_changes, make_rooms};
use crate::words::Words;
use dt_graph::NoMemory;
use std::alloc::Global;
use std::marker::Model;

// How many middle nodes a tree has.
const MIDDLES: usize = 512;

/// An image, kept so that a word is read in three steps: the middle node, the leaf, the word. It is seen as the image.
#[derive(Drop)]
pub struct Tree {
    middles: Vec<Option<Middle>>,
}

impl Model for Tree {
    ghost use Rattle.std.specs.Prelude.{◌≡◌, ℕ, length};
    ghost use Rattle.std.specs.Ordering.{nat_cmp};
    ghost use Rattle.std.specs.FinMap.{FinMap, code};
    ghost use Rattle.std.specs.Coded.{coded_ℕ};
    ghost use Rattle.dt_pages.specs.TreeForm.{word_of_tree, image_of};

    ghost Value = { FinMap nat_cmp ℕ };

    ghost coded = { code coded_ℕ coded_ℕ };

    ghost view = { λ t. image_of (word_of_tree t.middles.items) };

    ghost invariant = { λ t. length t.middles.items ≡ 512 };
}

// So many missing nodes.
fn no_middles(alloc: Global, count: usize) -> Result<Vec<Option<Middle>>, NoMemory>
    ensures count { IfOk result (λ middles. length middles.items ≡ count) }
    ensures missing { IfOk result (λ middles. (at : ℕ) → get_or middles.items at None ≡ None) }
{
    let mut middles = Vec::with_capacity(alloc, count)?;
    for _ in 0..count {
        middles.push(None)?;
    }
    Ok(middles)
}

// Nodes without words, and among them the leaf of each word of the draft.
pub(crate) fn rooms_of(alloc: Global, draft: &Draft) -> Result<Vec<Option<Middle>>, NoMemory>
    ensures { IfOk result (λ rooms. AreRooms rooms.items draft.now) }
{
    let mut rooms = no_middles(alloc, MIDDLES)?;
    make_rooms(&mut rooms, draft)?;
    Ok(rooms)
}

impl Tree {
    /// The image in which nothing is set.
    pub fn new(alloc: Global) -> Result<Tree, NoMemory>
        ensures { IfOk result (λ tree. tree ≡ empty) }
    {
        let middles = no_middles(alloc, MIDDLES)?;
        Ok(Tree { middles })
    }

    /// The word at the address, or 0 where none is set.
    pub fn word(&self, at: u32) -> u64
        requires { at < addresses }
        ensures { result ≡ look_up self.now at }
    {
        let at = at as usize;
        match &self.middles[at / MIDDLE] {
            Some(middle) => middle.word(at % MIDDLE),
            None => 0,
        }
    }
    /// What holds of every tree: it is an image, so no word that is set is 0. It does nothing: a caller whose reasoning
    /// needs this calls it.
    pub fn law(&self)
        ensures { IsImage self.now }
    {
        let _middles = &self.middles;
    }

    /// The words of the draft are set. After want of memory the image is as it was. It costs two ways down the tree for
    /// each word of the draft.
    pub fn overlay(&mut self, draft: Draft) -> Result<(), NoMemory>
        ensures ok { OnOk result (look_up self.new ≡ laid_over draft (look_up self.old)) }
        ensures err { OnErr result (self.new ≡ self.old) }
    {
        make_rooms(&mut self.middles, &draft)?;
        lay_all(&mut self.middles, &draft);
        Ok(())
    }

    // The words among the changes are set, with nodes from the rooms where one is missing.
    pub(crate) fn adopt(&mut self, changes: &Changes, rooms: Vec<Option<Middle>>)
        requires { AreRooms rooms.items changes.now }
        ensures { (address : ℕ) → address < addresses → look_up self.new address ≡ laid_over changes.now (look_up self.old) address }
    {
        let mut rooms = rooms;
        lay_changes(&mut self.middles, &mut rooms, changes);
    }
}

// A tree is read at no cost, and nothing changes.
impl Words for Tree {
    ghost use Rattle.std.specs.Prelude.{◌≡◌};
    ghost use Rattle.std.proofs.Common.{refl, ◌∙◌};

    const COST: u32 = 0;

    ghost COST = { 0 };

    ghost image = { λ tree. tree };

    ghost cost = { λ tree. 0 };

    ghost kept = { λ before now. now ≡ before };

    fn word(&mut self, at: u32) -> u64 {
        Tree::word(self, at)
    }

    ghost kept_itself = { λ tree. refl };

    ghost kept_chains = { λ first second third one other. other ∙ one };
}
