use dt_cells::{ForOneClass, TableKind};
use dt_fit::Geometry;
use dt_graph::NoMemory;
use dt_pages::{Draft, Tree, Words};
use dt_placing::{SelectorPlaces, StagedWord, look_part};
use dt_scratch::{Answer, Change, Query};
use std::alloc::Global;

/// Row displacement, a kind for queries of one class: the rows of all selectors lie over one another in one array, and a
/// selector's place is the displacement of its row (Driesen; Holst and Szafron).
#[derive(Drop)]
pub struct Row {
    places: SelectorPlaces,
}

impl TableKind for Row {
    ghost use Rattle.std.specs.Prelude.{◌≡◌, refl};
    ghost use Rattle.dt_fit.specs.declared.geometry.Geometry.TheVariants.{Displacements};
    ghost use Rattle.dt_placing.specs.Placing.{has_place, Stands, Follows, placing};
    ghost use Rattle.dt_placing.specs.PlacingLaws.{placing_is_lawful};
    ghost use Rattle.dt_placing.specs.PlacingStanding.{placing_stands};

    const ARITIES: u8 = 1;

    type Staged = Vec<StagedWord>;

    ghost ARITIES = { 1 };

    ghost kind = { placing Displacements };

    ghost low = { λ value. 1 };

    ghost is_placed = { λ value selector. has_place value.places selector };

    ghost stands = { λ value x held. Stands Displacements value.places x held };

    ghost follows = { λ value staged x held changes. Follows Displacements value.places staged.items x held changes };

    fn empty(alloc: Global, _least: u8) -> Result<Row, NoMemory> {
        let places = SelectorPlaces::empty(alloc, Geometry::Displacements)?;
        Ok(Row { places })
    }

    fn has_place(&self, selector: u16) -> bool {
        self.places.has_place(selector)
    }

    fn part<W: Words>(words: &mut W, query: &Query) -> Answer {
        look_part(Geometry::Displacements, words, query)
    }

    fn stage(
        &mut self,
        tree: &Tree,
        draft: &mut Draft,
        changes: &[Change],
    ) -> Result<Vec<StagedWord>, NoMemory> {
        let staged = self
            .places
            .stage(Geometry::Displacements, tree, draft, changes)?;
        Ok(staged)
    }

    fn settle(&mut self, staged: Vec<StagedWord>) {
        let words = staged.as_slice();
        self.places.settle(Geometry::Displacements, words);
    }

    ghost laws = { placing_is_lawful Displacements };

    ghost standing = { placing_stands Displacements Self (λ value. value.places) };

    ghost covers = { refl };
}

impl ForOneClass for Row {
    ghost use Rattle.dt_fit.specs.declared.geometry.Geometry.TheVariants.{Displacements};
    ghost use Rattle.dt_placing.specs.PlacingPart.{placing_is_for_one_class};

    ghost for_one_class = { placing_is_for_one_class Displacements };
}
