use dt_cells::{ForOneClass, TableKind};
use dt_fit::Geometry;
use dt_graph::NoMemory;
use dt_pages::{Draft, Tree, Words};
use dt_placing::{SelectorPlaces, StagedWord, look_part};
use dt_scratch::{Answer, Change, Query};
use std::alloc::Global;

/// Selector colouring, a kind for queries of one class: a selector's place is a colour, a column of as many cells as there
/// are class numbers, and selectors that no class understands both may have one colour (Dixon, McKee, Schweizer and
/// Vaughan; Holst and Szafron).
#[derive(Drop)]
pub struct Colour {
    places: SelectorPlaces,
}

impl TableKind for Colour {
    ghost use Rattle.std.specs.Prelude.{◌≡◌, refl};
    ghost use Rattle.dt_fit.specs.declared.geometry.Geometry.TheVariants.{Colours};
    ghost use Rattle.dt_placing.specs.Placing.{has_place, Stands, Follows, placing};
    ghost use Rattle.dt_placing.specs.PlacingLaws.{placing_is_lawful};
    ghost use Rattle.dt_placing.specs.PlacingStanding.{placing_stands};

    const ARITIES: u8 = 1;

    type Staged = Vec<StagedWord>;

    ghost ARITIES = { 1 };

    ghost kind = { placing Colours };

    ghost low = { λ value. 1 };

    ghost is_placed = { λ value selector. has_place value.places selector };

    ghost stands = { λ value x held. Stands Colours value.places x held };

    ghost follows = { λ value staged x held changes. Follows Colours value.places staged.items x held changes };

    fn empty(alloc: Global, _least: u8) -> Result<Colour, NoMemory> {
        let places = SelectorPlaces::empty(alloc, Geometry::Colours)?;
        Ok(Colour { places })
    }

    fn has_place(&self, selector: u16) -> bool {
        self.places.has_place(selector)
    }

    fn part<W: Words>(words: &mut W, query: &Query) -> Answer {
        look_part(Geometry::Colours, words, query)
    }

    fn stage(
        &mut self,
        tree: &Tree,
        draft: &mut Draft,
        changes: &[Change],
    ) -> Result<Vec<StagedWord>, NoMemory> {
        let staged = self.places.stage(Geometry::Colours, tree, draft, changes)?;
        Ok(staged)
    }

    fn settle(&mut self, staged: Vec<StagedWord>) {
        let words = staged.as_slice();
        self.places.settle(Geometry::Colours, words);
    }

    ghost laws = { placing_is_lawful Colours };

    ghost standing = { placing_stands Colours Self (λ value. value.places) };

    ghost covers = { refl };
}

impl ForOneClass for Colour {
    ghost use Rattle.dt_fit.specs.declared.geometry.Geometry.TheVariants.{Colours};
    ghost use Rattle.dt_placing.specs.PlacingPart.{placing_is_for_one_class};

    ghost for_one_class = { placing_is_for_one_class Colours };
}
