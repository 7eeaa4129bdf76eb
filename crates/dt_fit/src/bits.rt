ghost use Rattle.std.specs.Prelude.{◌≡◌, ℕ, ◌+◌, ◌<◌, ◌≤◌, ◌==◌, ◌||◌, ◌^◌, not, true, false, get_or};
ghost use Rattle.std.specs.Int.{bit_at};
ghost use Rattle.dt_graph.specs.ClassSet.{has_bit};
ghost use Rattle.dt_fit.specs.Bits.{are_free, is_open};
ghost use Rattle.dt_fit.specs.Fits.{IsLowest, SomePlace};

// How many bits a word has.
pub(crate) const BITS: usize = 64;

// The word; past the last it is 0.
fn word_at(words: &[u64], at: usize) -> u64
    ensures { result ≡ get_or words.now at 0 }
{
    match words.get(at) {
        Some(word) => *word,
        None => 0,
    }
}

// Whether the bit is set; past the last word none is.
pub(crate) fn is_set(words: &[u64], bit: usize) -> bool
    ensures { result ≡ has_bit words.now bit }
{
    (word_at(words, bit / BITS) >> (bit % BITS)) & 1 == 1
}

// The 64 bits from this one on, as a word.
fn window(words: &[u64], bit: usize) -> u64
    ensures { (j : ℕ) → j < 64 → (bit_at result j == 1) ≡ has_bit words.now (bit + j) }
{
    let at = bit / BITS;
    let shift = bit % BITS;
    let low = word_at(words, at) >> shift;
    if shift == 0 {
        return low;
    }
    low | word_at(words, at + 1) << (BITS - shift)
}

// Of the 64 places from `first` on, those at which one of the bits of the indexes is set, and those of `start`. It stops
// when none is left.
fn blocked_places(words: &[u64], step: usize, indexes: &[u16], first: usize, start: u64) -> u64
    requires step { step ≤ 4096 }
    requires first { first < 2 ^ 27 }
    ensures { (j : ℕ) → j < 64 → (bit_at result j == 1) ≡ ((bit_at start j == 1) || not (are_free words.now step indexes.now (first + j))) }
{
    let mut blocked = start;
    for index in indexes {
        if blocked == u64::MAX {
            return blocked;
        }
        blocked |= window(words, step * (*index as usize) + first);
    }
    blocked
}

// Whether no bit of the indexes is set at the place.
pub(crate) fn are_free(words: &[u64], step: usize, indexes: &[u16], place: usize) -> bool
    requires step { step ≤ 4096 }
    requires place { place < 2 ^ 27 }
    ensures { result ≡ are_free words.now step indexes.now place }
{
    for index in indexes {
        if is_set(words, step * (*index as usize) + place) {
            return false;
        }
    }
    true
}

// The lowest place that isn't taken and at which no bit of the indexes is set.
pub(crate) fn lowest_open(taken: &[u64], words: &[u64], step: usize, indexes: &[u16]) -> usize
    requires step { step ≤ 4096 }
    requires room { SomePlace (is_open taken.now words.now step indexes.now) (2 ^ 26) }
    ensures lowest { IsLowest (is_open taken.now words.now step indexes.now) result }
{
    let mut first = 0;
    let mut blocked = blocked_places(words, step, indexes, first, window(taken, first));
    while blocked == u64::MAX {
        first += BITS;
        blocked = blocked_places(words, step, indexes, first, window(taken, first));
    }
    first + blocked.trailing_ones() as usize
}
