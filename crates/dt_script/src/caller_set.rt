ghost use Rattle.std.specs.Prelude.{◌≡◌, ◌==◌, ℕ, ◌≤◌, true, false, if◌then◌else◌};
ghost use Rattle.dt_script.specs.CallerSet.{has_caller};

use crate::limits::CALLERS;

// How many callers a word tells of.
const BITS: usize = 64;

// How many words tell of the numbers up to the greatest caller.
const WORDS: usize = CALLERS as usize / BITS + 1;

/// A set of callers: a bit for each number.
#[derive(Drop)]
pub struct CallerSet {
    words: [u64; WORDS],
}

impl CallerSet {
    /// The set with no caller.
    pub fn new() -> CallerSet
        ensures { (other : ℕ) → has_caller result other ≡ false }
    {
        CallerSet { words: [0; WORDS] }
    }

    /// Whether the caller is in the set.
    pub fn contains(&self, caller: u16) -> bool
        requires { caller ≤ CALLERS }
        ensures { result ≡ has_caller self.now caller }
    {
        let place = caller as usize;
        (self.words[place / BITS] >> (place % BITS)) & 1 == 1
    }

    /// The caller is in the set from now on.
    pub fn insert(&mut self, caller: u16)
        requires { caller ≤ CALLERS }
        ensures { (other : ℕ) → has_caller self.new other ≡ (if caller == other then true else has_caller self.old other) }
    {
        let place = caller as usize;
        self.words[place / BITS] |= 1 << (place % BITS);
    }

    /// The caller isn't in the set from now on.
    pub fn remove(&mut self, caller: u16)
        requires { caller ≤ CALLERS }
        ensures { (other : ℕ) → has_caller self.new other ≡ (if caller == other then false else has_caller self.old other) }
    {
        let place = caller as usize;
        self.words[place / BITS] &= !(1 << (place % BITS));
    }
}
