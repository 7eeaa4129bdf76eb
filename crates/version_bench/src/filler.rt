ghost use Rattle.std.specs.Prelude.{◌≡◌, ◌+◌, ◌<◌, ◌≤◌};
ghost use Rattle.dt_version.specs.Views.{author_of, IsFirstSeat};
ghost use Rattle.version_bench.specs.Turns.{IsFilling};

use crate::anything::Anything;
use crate::known::Known;
use crate::layout::{LEAF, MIDDLE, TOP, leaf_word, place};
use crate::turner::Turner;
use dt_version::{Author, AuthorSeat, Store};

/// The author of a fresh store, which fills its pages.
#[derive(Drop)]
pub struct Filler<'s> {
    author: Author<'s, Anything>,
    ghost filling: { IsFilling author.store.now.table.shared.key (author_of author.place) },
}

impl<'s> Filler<'s> {
    /// The author of a fresh store.
    pub fn new(store: &'s Store<Anything>, seat: AuthorSeat<Anything>) -> Filler<'s>
        requires first { IsFirstSeat store.now.table.shared.table_id store.now.table.shared.key seat.place }
        ensures store { result.author.store ≡ store.entry }
    {
        Filler {
            author: Author::new(store, seat),
        }
    }

    // Fills a word of a page with the number of a page.
    fn fill(&mut self, page: u32, at: u16, word: u64)
        requires not_page_zero { 1 ≤ page }
        requires is_there { page < self.old.author.store.now.limits.pages }
        requires in_page { at < 512 }
        requires small { word < self.old.author.store.now.limits.pages }
        ensures store { self.new.author.store ≡ self.old.author.store }
    {
        self.author.fill(page, at, word);
    }

    // Fills all words of a leaf.
    fn fill_leaf(&mut self, leaf: u32)
        requires there { 130 + leaf < self.old.author.store.now.limits.pages }
        ensures store { self.new.author.store ≡ self.old.author.store }
    {
        for at in 0..512u16 {
            self.fill(LEAF + leaf, at, leaf_word(leaf, at));
        }
    }

    /// Fills all words of so many leaves.
    pub fn fill_leaves(&mut self, leaves: u32)
        requires there { 130 + leaves ≤ self.old.author.store.now.limits.pages }
        ensures store { self.new.author.store ≡ self.old.author.store }
    {
        for leaf in 0..leaves {
            self.fill_leaf(leaf);
        }
    }

    // Links a leaf to its page of the middle level, and that to the top page.
    fn link_leaf(&mut self, leaf: u32)
        requires below { leaf < 65_536 }
        requires there { 130 + leaf < self.old.author.store.now.limits.pages }
        ensures store { self.new.author.store ≡ self.old.author.store }
    {
        let middle = leaf / 512;
        self.fill(TOP, middle as u16, (MIDDLE + middle) as u64);
        self.fill(MIDDLE + middle, place(leaf as u64), (LEAF + leaf) as u64);
    }

    /// Links so many leaves.
    pub fn link_leaves(&mut self, leaves: u32)
        requires below { leaves ≤ 65_536 }
        requires there { 130 + leaves ≤ self.old.author.store.now.limits.pages }
        ensures store { self.new.author.store ≡ self.old.author.store }
    {
        for leaf in 0..leaves {
            self.link_leaf(leaf);
        }
    }

    /// Fills no more, and publishes on roots 0 and 1 in turn.
    pub fn into_turner(self) -> Turner<'s>
        ensures { result.author.store ≡ self.entry.author.store }
    {
        let Filler { author } = self;
        Turner {
            author,
            current: 0,
            other: 1,
            kept: Known::Free,
            version: 0,
            out: 0,
        }
    }
}
