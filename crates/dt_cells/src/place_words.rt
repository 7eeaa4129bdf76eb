ghost use Rattle.std.specs.Prelude.{◌≡◌, ◌==◌, ◌&&◌, ℕ, length, map, if◌then◌else◌, IfOk, OnOk};
ghost use Rattle.dt_pages.specs.Reading.{Reading};
ghost use Rattle.dt_pages.specs.Image.{look_up};
ghost use Rattle.dt_pages.specs.Draft.{laid_over};
ghost use Rattle.dt_cells.specs.Regions.{place_of};
ghost use Rattle.dt_cells.specs.PlaceWords.{is_place_among};

use crate::regions::place_address;
use dt_graph::NoMemory;
use dt_pages::{Draft, Tree};
use std::alloc::Global;

// The selector has this place word.
fn put_word(tree: &Tree, draft: &mut Draft, selector: u16, word: u64) -> Result<(), NoMemory>
    ensures { OnOk result ((address : ℕ) → laid_over draft.new (look_up tree.now) address
        ≡ (if address == place_of selector then word else laid_over draft.old (look_up tree.now) address)) }
{
    let at = place_address(selector);
    if draft.word(tree, at) != word {
        draft.set(at, word)?;
    }
    Ok(())
}

// The selector has its place word of the tree, if it is placed, else 0.
pub(crate) fn lay_word(
    tree: &Tree,
    draft: &mut Draft,
    selector: u16,
    is_placed: bool,
) -> Result<(), NoMemory>
    ensures { OnOk result ((address : ℕ) → laid_over draft.new (look_up tree.now) address
        ≡ (if address == place_of selector then (if is_placed then look_up tree.now (place_of selector) else 0) else laid_over draft.old (look_up tree.now) address)) }
{
    let word = if is_placed {
        tree.word(place_address(selector))
    } else {
        0
    };
    put_word(tree, draft, selector, word)
}

// The place word of each of the selectors.
pub(crate) fn read_words(
    alloc: Global,
    tree: &Tree,
    draft: &Draft,
    selectors: &[u16],
) -> Result<Vec<u64>, NoMemory>
    ensures { IfOk result (λ words. words.items ≡ map (λ selector. laid_over draft.now (look_up tree.now) (place_of selector)) selectors.now) }
{
    let words = selectors
        .iter()
        .map(|selector| draft.word(tree, place_address(*selector)))
        .collect(alloc)?;
    Ok(words)
}

// The selector has this place word, if it has none.
fn put_missing_word(
    tree: &Tree,
    draft: &mut Draft,
    selector: u16,
    word: u64,
) -> Result<(), NoMemory>
    ensures { OnOk result ((address : ℕ) → laid_over draft.new (look_up tree.now) address
        ≡ (if (address == place_of selector) && (laid_over draft.old (look_up tree.now) address == 0) then word else laid_over draft.old (look_up tree.now) address)) }
{
    if draft.word(tree, place_address(selector)) == 0 {
        put_word(tree, draft, selector, word)
    } else {
        Ok(())
    }
}

// The selectors that have no place word have those that were read of them.
pub(crate) fn put_missing_words(
    tree: &Tree,
    draft: &mut Draft,
    selectors: &[u16],
    words: &[u64],
) -> Result<(), NoMemory>
    requires { length words.now ≡ length selectors.now }
    ensures { OnOk result ((read : Reading) → words.now ≡ map (λ selector. read (place_of selector)) selectors.now
        → (address : ℕ) → laid_over draft.new (look_up tree.now) address
        ≡ (if is_place_among selectors.now address && (laid_over draft.old (look_up tree.now) address == 0) then read address else laid_over draft.old (look_up tree.now) address)) }
{
    for (index, selector) in selectors.iter().enumerate() {
        put_missing_word(tree, draft, *selector, words[index])?;
    }
    Ok(())
}
