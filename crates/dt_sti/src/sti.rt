ghost use Rattle.std.specs.Prelude.{◌≡◌, ◌<◌, ◌≤◌, ◌==◌, ◌^◌, ℕ, OnOk, [], ◌∷◌, if◌then◌else◌};
ghost use Rattle.dt_pages.specs.Reading.{Reading};
ghost use Rattle.dt_pages.specs.Draft.{laid_over};
ghost use Rattle.dt_scratch.specs.Query.{arity_of_query};
ghost use Rattle.dt_cells.specs.Held.{IsStageableChange};
ghost use Rattle.dt_sti.specs.Sti.{cell_at, cell_of, tag_of, word_of};

use dt_cells::{ForOneClass, TableKind, answer_by_word, word_of_answer};
use dt_graph::NoMemory;
use dt_pages::{Draft, Tree, Words};
use dt_scratch::{Answer, Change, Query};
use std::alloc::Global;

// The cells begin here.
const CELLS: u32 = 1 << 24;

// How many cells a selector has.
const COLUMN: u32 = 2048;

/// Selector table indexing, a kind for queries of one class. Each selector and class has a cell of its own, so no place
/// is chosen, and a batch changes exactly the cells of its changes.
#[derive(Debug, Drop)]
pub struct Sti;

/// What a stage of [`Sti`] leaves: nothing.
#[derive(Debug, Drop)]
pub struct StiStaged;

// The class of a query of one class.
fn only_class(query: &Query) -> u16
    requires { arity_of_query query.now ≤ 1 }
    ensures { query.now.classes ≡ result ∷ [] }
{
    query.classes()[0]
}

// The address of the cell of a selector and a class.
fn cell_address(selector: u16, class: u16) -> u32
    requires selector { selector < 4096 }
    requires class { class < 2048 }
    ensures value { result ≡ cell_at selector class }
    ensures in_range { result < 2 ^ 27 }
{
    CELLS + COLUMN * u32::from(selector) + u32::from(class)
}

// The tag of a selector's cells.
fn tag(selector: u16) -> u32
    ensures { result ≡ tag_of selector }
{
    u32::from(selector) + 1
}

// Sets the cell of a change, or clears it where the answer is not understood.
fn set_cell(draft: &mut Draft, change: &Change) -> Result<(), NoMemory>
    requires { IsStageableChange 1 1 change.now }
    ensures { OnOk result ((base : Reading) (address : ℕ) → laid_over draft.new base address
        ≡ (if address == cell_of change.now then word_of change.now else laid_over draft.old base address)) }
{
    let selector = change.query.selector();
    let class = only_class(&change.query);
    draft.set(
        cell_address(selector, class),
        word_of_answer(tag(selector), change.answer),
    )
}

impl TableKind for Sti {
    ghost use Rattle.std.specs.Prelude.{◌≡◌, false, refl};
    ghost use Rattle.dt_cells.specs.Held.{IsStageable};
    ghost use Rattle.dt_sti.specs.Sti.{sti, StiShows};
    ghost use Rattle.dt_sti.specs.StiLaws.{sti_is_lawful};
    ghost use Rattle.dt_sti.specs.StiStanding.{sti_stands};

    const ARITIES: u8 = 1;

    type Staged = StiStaged;

    ghost ARITIES = { 1 };

    ghost kind = { sti };

    ghost low = { λ value. 1 };

    ghost is_placed = { λ value selector. false };

    ghost stands = { λ value x held. StiShows x held };

    ghost follows = { λ value staged x held changes. IsStageable 1 1 held changes };

    fn empty(_alloc: Global, _least: u8) -> Result<Sti, NoMemory> {
        Ok(Sti)
    }

    fn has_place(&self, _selector: u16) -> bool {
        false
    }

    fn part<W: Words>(words: &mut W, query: &Query) -> Answer {
        let selector = query.selector();
        let word = words.word(cell_address(selector, only_class(query)));
        answer_by_word(tag(selector), word)
    }

    fn stage(
        &mut self,
        _tree: &Tree,
        draft: &mut Draft,
        changes: &[Change],
    ) -> Result<StiStaged, NoMemory> {
        for change in changes {
            set_cell(draft, change)?;
        }
        Ok(StiStaged)
    }

    fn settle(&mut self, _staged: StiStaged) {}

    ghost laws = { sti_is_lawful };

    ghost standing = { sti_stands Self };

    ghost covers = { refl };
}

impl ForOneClass for Sti {
    ghost use Rattle.dt_sti.specs.StiPart.{sti_is_for_one_class};

    ghost for_one_class = { sti_is_for_one_class };
}
