ghost use Rattle.std.specs.Prelude.{◌<◌, ◌≤◌, IfSome};

use crate::addresses::Addresses;
use crate::layout::{BEFORE, LEAF, MIDDLE, TOP, leaf_word};
use dt_graph::NoMemory;
use std::alloc::Global;
use std::sync::atomic::{AtomicU64, Ordering};

// The same words and the same accesses as a store's, with nothing of `dt_version`: an index that a word gives is tested.

/// Words that are 0, as many as a store of four readers has with so many pages.
pub fn plain_words(alloc: Global, pages: u32) -> Result<Vec<AtomicU64>, NoMemory> {
    let count = BEFORE + 512 * u64::from(pages);
    let mut words = Vec::with_capacity(alloc, count as usize)?;
    for _ in 0..count {
        words.push(AtomicU64::new(0))?;
    }
    Ok(words)
}

// Where a word of a page lies.
fn page_word(page: u64, at: u64) -> usize {
    page.wrapping_mul(512).wrapping_add(BEFORE + at % 512) as usize
}

// Stores a word of a page, if it is there.
fn fill(words: &[AtomicU64], page: u32, at: u64, word: u64) {
    if let Some(found) = words.get(page_word(u64::from(page), at)) {
        found.store(word, Ordering::SeqCst);
    }
}

/// Fills all words of so many leaves.
pub fn fill_leaves(words: &[AtomicU64], leaves: u32)
    requires { leaves ≤ 65_536 }
{
    for leaf in 0..leaves {
        for at in 0..512u16 {
            fill(words, LEAF + leaf, u64::from(at), leaf_word(leaf, at));
        }
    }
}

/// Links so many leaves.
pub fn link_leaves(words: &[AtomicU64], leaves: u32)
    requires { leaves ≤ 65_536 }
{
    for leaf in 0..leaves {
        let middle = leaf / 512;
        fill(words, TOP, u64::from(middle), u64::from(MIDDLE + middle));
        fill(
            words,
            MIDDLE + middle,
            u64::from(leaf),
            u64::from(LEAF + leaf),
        );
    }
}

// Looks, enters and leaves.
fn visit(version: &AtomicU64, exits: &AtomicU64) -> u32 {
    if version.load(Ordering::SeqCst) % (1 << 32) >= 1 << 31 {
        return 0;
    }
    version.fetch_add(1, Ordering::SeqCst);
    exits.fetch_add(1, Ordering::SeqCst);
    1
}

// The root that the version word names, of six.
fn current(words: &[AtomicU64]) -> u64
    ensures { result < 6 }
{
    match words.get(0) {
        Some(version) => (version.load(Ordering::SeqCst) >> 32) % 6,
        None => 0,
    }
}

/// Looks, enters and leaves so many times, and answers how often it entered.
pub fn visit_many(words: &[AtomicU64], count: u32) -> u32 {
    let exits = 1 + 3 * current(words) as usize;
    let mut entered: u32 = 0;
    if let (Some(version), Some(exits)) = (words.get(0), words.get(exits)) {
        for _ in 0..count {
            entered = entered.wrapping_add(visit(version, exits));
        }
    }
    entered
}

// The word at an address, through three pages.
fn read_word(words: &[AtomicU64], top: u64, address: u64) -> Option<u64> {
    let middle = words
        .get(page_word(top, address >> 18))?
        .load(Ordering::SeqCst);
    let leaf = words
        .get(page_word(middle, address >> 9))?
        .load(Ordering::SeqCst);
    Some(words.get(page_word(leaf, address))?.load(Ordering::SeqCst))
}

/// Reads the words at so many addresses through three pages each, and answers their sum.
pub fn read_many(words: &[AtomicU64], addresses: &mut Addresses, count: u32) -> u64 {
    let mut sum: u64 = 0;
    for _ in 0..count {
        let word = read_word(words, u64::from(TOP), addresses.draw());
        sum = sum.wrapping_add(word.unwrap_or(0));
    }
    sum
}

// Stores the three words of a root, swaps the version word, and loads the exits of the root found; which one that is, where its
// exits are its entries.
fn turn(words: &[AtomicU64], root: u64, version: u64) -> Option<u64>
    requires { root < 6 }
    ensures { IfSome result (λ old. old < 6) }
{
    let place = 1 + 3 * root as usize;
    words.get(place)?.store(0, Ordering::SeqCst);
    words.get(place + 1)?.store(version, Ordering::SeqCst);
    words
        .get(place + 2)?
        .store(u64::from(TOP), Ordering::SeqCst);
    let found = words.get(0)?.swap(root * (1 << 32), Ordering::SeqCst);
    let (old, entries) = ((found >> 32) % 6, found % (1 << 32));
    let exits = words.get(1 + 3 * old as usize)?.load(Ordering::SeqCst);
    if exits == entries { Some(old) } else { None }
}

/// Publishes so many versions on roots 0 and 1, each with its lay and a poll of the root before it. Answers how many roots were found
/// free.
pub fn turn_many(words: &[AtomicU64], count: u32) -> u32 {
    let mut root = 1 - current(words).min(1);
    for done in 0..count {
        let Some(old) = turn(words, root, u64::from(done)) else {
            return done;
        };
        root = old;
    }
    count
}

// Loads a word so many times, or until it is this number.
fn poll(exits: &AtomicU64, entries: u64, count: u32) -> u32 {
    for done in 0..count {
        if exits.load(Ordering::SeqCst) == entries {
            return done;
        }
    }
    count
}

/// Polls a root so many times that has one entry more than exits. The answer is how often it was found held.
pub fn poll_many(words: &[AtomicU64], count: u32) -> u32 {
    match words.get(1 + 3 * current(words) as usize) {
        Some(exits) => poll(exits, exits.load(Ordering::SeqCst).wrapping_add(1), count),
        None => 0,
    }
}
