ghost use Rattle.std.specs.Prelude.{◌≡◌, ◌<◌, ◌==◌, ℕ, length, get_or, IfOk, if◌then◌else◌};

use dt_graph::NoMemory;
use std::alloc::Global;
use std::marker::Model;

// How many words a leaf has.
pub(crate) const LEAF: usize = 512;

// The words of 512 addresses that follow one another.
#[derive(Drop)]
pub(crate) struct Leaf {
    words: Vec<u64>,
}

impl Model for Leaf {
    ghost use Rattle.std.specs.Prelude.{◌≡◌, length};
    ghost use Rattle.dt_pages.specs.TreeForm.{LeafForm};

    ghost Value = { LeafForm };

    ghost view = { λ l. l.words.items };

    ghost invariant = { λ l. length l.words.items ≡ 512 };
}

// So many zeros.
fn zeros(alloc: Global, count: usize) -> Result<Vec<u64>, NoMemory>
    ensures count { IfOk result (λ words. length words.items ≡ count) }
    ensures zeros { IfOk result (λ words. (at : ℕ) → get_or words.items at 0 ≡ 0) }
{
    Ok(vec![in alloc; 0; count]?)
}

impl Leaf {
    // A leaf of zeros.
    pub(crate) fn new(alloc: Global) -> Result<Leaf, NoMemory>
        ensures { IfOk result (λ leaf. (at : ℕ) → get_or leaf at 0 ≡ 0) }
    {
        let words = zeros(alloc, LEAF)?;
        Ok(Leaf { words })
    }

    // The word at this place.
    pub(crate) fn word(&self, at: usize) -> u64
        requires { at < 512 }
        ensures { result ≡ get_or self.now at 0 }
    {
        self.words[at]
    }

    // The word at this place is another.
    pub(crate) fn set(&mut self, at: usize, word: u64)
        requires { at < 512 }
        ensures { (q : ℕ) → get_or self.new q 0 ≡ (if q == at then word else get_or self.old q 0) }
    {
        self.words[at] = word;
    }
}
