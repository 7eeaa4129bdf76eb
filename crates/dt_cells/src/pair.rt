use crate::kind::TableKind;
use crate::pair_staged::PairStaged;
use crate::parts::{ForMoreClasses, ForOneClass};
use crate::place_words::{lay_word, put_missing_words, read_words};
use crate::split::split_changes;
use dt_graph::NoMemory;
use dt_pages::{Draft, Tree, Words};
use dt_scratch::{Answer, Change, Query};
use std::alloc::Global;

/// The kind that two kinds make: the first is for queries of one class, the second for those of two to four. Each has its own
/// cells, and follows the changes of its own queries.
///
/// The understood queries of a selector have one arity, so that it has cells in one part at most. Its place word is that of
/// the part in which it has a place, and 0 where it has one in neither. Where a batch takes it from one part to the other, it
/// loses its cells in the one, and its place word is that of the other from then on.
///
/// A stage copies the changes once, and keeps beside them the selectors with a change and a word for each of these.
#[derive(Drop)]
pub struct Pair<A, B> {
    alloc: Global,
    first: A,
    rest: B,
}

impl<A: ForOneClass, B: ForMoreClasses> TableKind for Pair<A, B> {
    ghost use Rattle.std.specs.Prelude.{◌≡◌, ◌||◌, ℕ};
    ghost use Rattle.dt_cells.specs.Pair.{pair_kind, PairStands, PairFollows};
    ghost use Rattle.dt_cells.specs.PairLaws.{pair_is_lawful};
    ghost use Rattle.dt_cells.specs.PairStanding.{pair_stands};

    const ARITIES: u8 = 4;

    type Staged = PairStaged<A::Staged, B::Staged>;

    ghost ARITIES = { 4 };

    ghost kind = { pair_kind A.kind B.kind };

    ghost low = { λ pair. 1 };

    ghost is_placed = { λ pair selector. A.is_placed pair.first selector || B.is_placed pair.rest selector };

    ghost stands = { λ pair x held. PairStands (A.stands pair.first) (B.stands pair.rest) (A.low pair.first) (B.low pair.rest) x held };

    ghost follows = { λ pair staged x held changes. PairFollows (A.follows pair.first staged.first) (B.follows pair.rest staged.rest) x held changes };

    fn empty(alloc: Global, _least: u8) -> Result<Pair<A, B>, NoMemory> {
        let first = A::empty(alloc, 1)?;
        let rest = B::empty(alloc, 2)?;
        Ok(Pair { alloc, first, rest })
    }

    fn has_place(&self, selector: u16) -> bool {
        self.first.has_place(selector) || self.rest.has_place(selector)
    }

    fn part<W: Words>(words: &mut W, query: &Query) -> Answer {
        if query.arity() == 1 {
            A::part(words, query)
        } else {
            B::part(words, query)
        }
    }

    fn stage(
        &mut self,
        tree: &Tree,
        draft: &mut Draft,
        changes: &[Change],
    ) -> Result<PairStaged<A::Staged, B::Staged>, NoMemory> {
        let split = split_changes(self.alloc, changes)?;
        let selectors = split.selectors.as_slice();
        let singles = split.singles.as_slice();
        let multis = split.multis.as_slice();
        // Each stage begins with the place words that belong to its part. So each of them is the part's after the stage, also
        // that of a selector of which the part has no change.
        for selector in selectors {
            lay_word(tree, draft, *selector, self.first.has_place(*selector))?;
        }
        let first = self.first.stage(tree, draft, singles)?;
        let words = read_words(self.alloc, tree, draft, selectors)?;
        for selector in selectors {
            lay_word(tree, draft, *selector, self.rest.has_place(*selector))?;
        }
        let rest = self.rest.stage(tree, draft, multis)?;
        // A selector has a place in one part at most.
        put_missing_words(tree, draft, selectors, words.as_slice())?;
        Ok(PairStaged { first, rest })
    }

    fn settle(&mut self, staged: PairStaged<A::Staged, B::Staged>) {
        let PairStaged { first, rest } = staged;
        self.first.settle(first);
        self.rest.settle(rest);
    }

    ghost laws = { pair_is_lawful A.kind B.kind A.laws B.laws A.for_one_class.arities };

    ghost standing = { pair_stands A.kind B.kind A.laws B.laws A.low B.low A.is_placed B.is_placed A.stands B.stands A.standing B.standing A.for_one_class B.for_more_classes Self (λ pair. pair.first) (λ pair. pair.rest) };

    ghost covers = { B.for_more_classes.arities };
}
