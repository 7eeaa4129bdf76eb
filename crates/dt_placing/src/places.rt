ghost use Rattle.std.specs.Prelude.{◌≡◌, ◌≤◌, ◌+◌, ◌*◌, ℕ, List, length, get_or, set, false, IfOk, OnOk};
ghost use Rattle.dt_pages.specs.Reading.{Reading, blank};
ghost use Rattle.dt_pages.specs.Image.{look_up};
ghost use Rattle.dt_pages.specs.Draft.{laid_over};
ghost use Rattle.dt_scratch.specs.declared.reply.Change.{Change};
ghost use Rattle.dt_cells.specs.Held.{Held, none_held, held_after};
ghost use Rattle.dt_cells.specs.Kind.{Stay, sets};
ghost use Rattle.dt_cells.specs.Standing.{CanStage};
ghost use Rattle.dt_placing.specs.Placing.{has_place, with_words, Stands, Follows, Places, placing};

use crate::selector_turns::take_turns;
use crate::staged::StagedWord;
use dt_fit::{Geometry, UsedCells};
use dt_graph::NoMemory;
use dt_pages::{Draft, Tree};
use dt_scratch::Change;
use dt_selectors::SELECTORS;
use std::alloc::Global;
use std::marker::Model;

/// The places of selectors, and which cells are used: what a kind keeps that places the cells of a selector as a whole. It
/// is seen as both.
///
/// It takes four bytes for each selector number, and what [`UsedCells`] takes; the classes that understand a selector are
/// read from the tree where they are needed, by the tags of its cells.
#[derive(Drop)]
pub struct SelectorPlaces {
    // Each selector's place + 1, or 0.
    words: Vec<u32>,
    cells: UsedCells,
}

impl Model for SelectorPlaces {
    ghost use Rattle.std.specs.Prelude.{◌≡◌, length};
    ghost use Rattle.dt_placing.specs.Placing.{Kept};

    ghost Value = { Kept };

    ghost view = { λ p. record { words = p.words.items; cells = p.cells } };

    ghost invariant = { λ p. length p.words.items ≡ 4096 };
}

// So many zeros.
fn zeros(alloc: Global, count: usize) -> Result<Vec<u32>, NoMemory>
    ensures count { IfOk result (λ words. length words.items ≡ count) }
    ensures zeros { IfOk result (λ words. (at : ℕ) → get_or words.items at 0 ≡ 0) }
{
    Ok(vec![in alloc; 0; count]?)
}

// The selector has this word.
#[tactic(auto, using(crate::proofs::Putting::set_past))]
fn put_word(words: &mut Vec<u32>, selector: u16, word: u32)
    requires { length words.old.items ≡ 4096 }
    ensures count { length words.new.items ≡ 4096 }
    ensures words { words.new.items ≡ set words.old.items selector word }
{
    if selector < SELECTORS {
        words[usize::from(selector)] = word;
    }
}

// The words have the staged ones in them.
fn put_words(words: &mut Vec<u32>, staged: &[StagedWord])
    requires { length words.old.items ≡ 4096 }
    ensures count { length words.new.items ≡ 4096 }
    ensures words { words.new.items ≡ with_words staged.now words.old.items }
{
    for word in staged {
        put_word(words, word.selector, word.word);
    }
}

impl SelectorPlaces {
    /// No selector has a place.
    pub fn empty(alloc: Global, geometry: Geometry) -> Result<SelectorPlaces, NoMemory>
        ensures { IfOk result (λ places. Stands geometry places blank none_held) }
    {
        let words = zeros(alloc, 4096)?;
        let cells = UsedCells::new(alloc, geometry);
        Ok(SelectorPlaces { words, cells })
    }

    /// Whether the selector has a place.
    pub fn has_place(&self, selector: u16) -> bool
        ensures { result ≡ has_place self.now selector }
    {
        selector < SELECTORS && self.words[usize::from(selector)] != 0
    }

    /// Sets in the draft what the changes make of the cells and place words of their selectors; every other word of the
    /// draft stays, and so does what the value stands for.
    ///
    /// A selector that has a place, where each cell that its changes are for is its own or isn't used, stays there. It
    /// costs its changes: the word of each one's cell is read, from the tree and from the draft, and set where it becomes
    /// another; the place word is read, too. Where no change leaves a cell with an answer, the bits of used cells are read
    /// class by class up to the first cell of its own that is left, and the place word becomes 0 where none is. Any other
    /// selector is placed anew: the word of each class number is read three times at its old place, if it had one, and the
    /// words that change are set, all of its cells where it moves.
    ///
    /// No more is copied than the batch touches: eight bytes for each selector with a change; sixteen for each cell that is
    /// taken or given free, which [`UsedCells`] notes, all cells of a selector among them that is placed anew; and for
    /// such a selector its row of 2,048 words, two bytes for each class with a cell beside it, one row at a time.
    pub fn stage(
        &mut self,
        geometry: Geometry,
        tree: &Tree,
        draft: &mut Draft,
        changes: &[Change],
    ) -> Result<Vec<StagedWord>, NoMemory>
        requires { (held : Held) × CanStage (placing geometry) (Stands geometry self.old) 1 (look_up tree.now) (laid_over draft.old (look_up tree.now)) held changes.now }
        ensures stands { (x : Reading) (held : Held) → Stands geometry self.old x held → Stands geometry self.new x held }
        ensures placed { IfOk result (λ staged. (held : Held)
            → CanStage (placing geometry) (Stands geometry self.old) 1 (look_up tree.now) (laid_over draft.old (look_up tree.now)) held changes.now
            → Places geometry (look_up tree.now) held changes.now (laid_over draft.new (look_up tree.now))
            × Follows geometry self.new staged.items (look_up tree.now) held changes.now) }
        ensures rest { OnOk result ((address : ℕ) → sets (placing geometry) changes.now address ≡ false
            → laid_over draft.new (look_up tree.now) address ≡ laid_over draft.old (look_up tree.now) address) }
    {
        let alloc = *self.words.allocator();
        self.cells.undo();
        let words = self.words.as_slice();
        let staged = take_turns(
            alloc,
            &mut self.cells,
            words,
            geometry,
            tree,
            draft,
            changes,
        )?;
        Ok(staged)
    }

    /// The staged place words and the used cells of that stage are kept.
    pub fn settle(&mut self, geometry: Geometry, staged: &[StagedWord])
        requires { (x : Reading) × (held : Held) × (changes : List Change) × Stands geometry self.old x held × Follows geometry self.old staged.now x held changes }
        ensures { (x : Reading) (held : Held) (changes : List Change) (y : Reading) → Stands geometry self.old x held → Follows geometry self.old staged.now x held changes
            → Places geometry x held changes y → Stay (placing geometry) held changes x y → Stands geometry self.new y (held_after held changes) }
    {
        put_words(&mut self.words, staged);
        self.cells.keep();
    }
}
