ghost use Rattle.std.specs.Prelude.{◌≡◌, ◌<◌, ◌==◌, ℕ, OnOk, OnErr, if◌then◌else◌};
ghost use Rattle.std.specs.FinMap.{empty, insert};
ghost use Rattle.dt_pages.specs.Reading.{Reading, addresses};
ghost use Rattle.dt_pages.specs.Image.{look_up};
ghost use Rattle.dt_pages.specs.Draft.{laid_over};

use crate::tree::Tree;
use dt_graph::NoMemory;
use std::alloc::Global;
use std::collections::BTreeMap;
use std::marker::Model;

/// Words that are to be set in a tree, by address. It is seen as the finite map of these words, those that are to be
/// 0 among them.
#[derive(Drop)]
pub struct Draft {
    pub(crate) words: BTreeMap<u32, u64>,
}

impl Model for Draft {
    ghost use Rattle.std.specs.Prelude.{◌≡◌, ◌≤◌, ℕ, None};
    ghost use Rattle.std.specs.Ordering.{nat_cmp};
    ghost use Rattle.std.specs.FinMap.{FinMap, code, from_entries, get};
    ghost use Rattle.std.specs.Coded.{coded_ℕ};
    ghost use Rattle.dt_pages.specs.Reading.{addresses};

    ghost Value = { FinMap nat_cmp ℕ };

    ghost coded = { code coded_ℕ coded_ℕ };

    ghost view = { λ d. from_entries d.words.entries };

    ghost invariant = { λ d. (at : ℕ) → addresses ≤ at → get {R = nat_cmp} (from_entries d.words.entries) at ≡ None };
}

impl Draft {
    /// A draft in which nothing is set.
    pub fn new(alloc: Global) -> Draft
        ensures { result ≡ empty }
    {
        Draft {
            words: BTreeMap::new(alloc),
        }
    }

    /// The address has this word from now on; one that was set there before is replaced. After want of memory the draft
    /// is as it was. It costs what placing in an ordered map of all words set costs.
    pub fn set(&mut self, at: u32, word: u64) -> Result<(), NoMemory>
        requires { at < addresses }
        ensures ok { OnOk result (self.new ≡ insert self.old at word) }
        ensures reads { OnOk result ((base : Reading) (address : ℕ) → laid_over self.new base address
            ≡ (if address == at then word else laid_over self.old base address)) }
        ensures err { OnErr result (self.new ≡ self.old) }
    {
        self.words.insert(at, word)?;
        Ok(())
    }

    /// The word that is set at the address, or the tree's where none is.
    pub fn word(&self, tree: &Tree, at: u32) -> u64
        requires { at < addresses }
        ensures { result ≡ laid_over self.now (look_up tree.now) at }
    {
        match self.words.get(&at) {
            Some(word) => *word,
            None => tree.word(at),
        }
    }
}
