ghost use Rattle.std.specs.Prelude.{◌≡◌, ◌==◌, ℕ, ◌<◌, ◌||◌, List, [], All};
ghost use Rattle.dt_graph.specs.Graph.{has_number};
ghost use Rattle.dt_graph.specs.Lawful.{AscendingNumbers};
ghost use Rattle.dt_graph.specs.FirstFrom.{first_from};
ghost use Rattle.dt_selectors.specs.declared.limits.TheConstants.{SELECTORS};

use dt_selectors::{SELECTORS, SelNo};
use std::marker::Model;

// How many selectors a word tells of.
const BITS: usize = 64;

// How many words tell of all selectors.
const WORDS: usize = SELECTORS as usize / BITS;

// A set of selectors. It is seen as the list of its numbers in ascending order. A set takes 512 bytes, a bit for each
// number, wherever it stands, and no other memory; a walk over it looks at each of the 64 words about once, and at nothing
// else of the selectors that aren't in it.
#[derive(Debug, Drop)]
pub(crate) struct SelectorSet {
    words: [u64; WORDS],
}

impl Model for SelectorSet {
    ghost use Rattle.std.specs.Prelude.{ℕ, List};

    ghost Value = { List ℕ };

    ghost use Rattle.dt_graph.specs.ClassSet.{numbers_below};
    ghost use Rattle.dt_selectors.specs.declared.limits.TheConstants.{SELECTORS};

    ghost view = { λ s. numbers_below SELECTORS s.words };
}

impl SelectorSet {
    // The set with no selector.
    pub(crate) fn new() -> SelectorSet
        ensures { result ≡ [] }
    {
        SelectorSet { words: [0; WORDS] }
    }

    // What holds of every set of selectors. It does nothing: a caller whose reasoning needs this calls it.
    pub(crate) fn law(&self)
        ensures ascend { AscendingNumbers self.now }
        ensures in_range { All (λ n. n < SELECTORS) self.now }
    {
        let _ = &self.words;
    }

    // The lowest selector of the set whose number is `least` or more; `None` where there is none. It looks at the words up
    // to that selector.
    pub(crate) fn first_from(&self, least: usize) -> Option<SelNo>
        ensures { result ≡ first_from least self.now }
    {
        let words = &self.words;
        let mut place = least / BITS;
        if place >= WORDS {
            return None;
        }
        // The bits of lower selectors don't count.
        let mut word = words[place] >> (least % BITS) << (least % BITS);
        while word == 0 {
            place += 1;
            if place == WORDS {
                return None;
            }
            word = words[place];
        }
        let number = place * BITS + word.trailing_zeros() as usize;
        let Some(selector) = SelNo::new(number as u16) else {
            unreachable!();
        };
        Some(selector)
    }

    // The selector is in the set from now on.
    pub(crate) fn insert(&mut self, selector: SelNo)
        ensures { (n : ℕ) → has_number self.new n ≡ ((selector == n) || has_number self.old n) }
    {
        let number = selector.number() as usize;
        self.words[number / BITS] |= 1 << (number % BITS);
    }
}
