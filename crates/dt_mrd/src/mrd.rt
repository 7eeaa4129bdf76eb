use crate::kept_rows::KeptRows;
use crate::looking::look_part;
use crate::staged::MrdStaged;
use dt_cells::{ForMoreClasses, TableKind};
use dt_graph::NoMemory;
use dt_pages::{Draft, Tree, Words};
use dt_scratch::{Answer, Change, Query};
use std::alloc::Global;

/// Multiple row displacement, a kind for queries of one to four classes: a chain of rows that all lie over one another in
/// one array. The selector and the first class lead to the displacement of the next row, each further class one row on, and
/// the last cell has the answer (Pang, Holst, Leontiev and Szafron).
#[derive(Debug, Drop)]
pub struct Mrd {
    rows: KeptRows,
}

impl TableKind for Mrd {
    ghost use Rattle.std.specs.Prelude.{◌≡◌, refl};
    ghost use Rattle.dt_mrd.specs.Placing.{mrd};
    ghost use Rattle.dt_mrd.specs.MrdLaws.{mrd_is_lawful};
    ghost use Rattle.dt_mrd.specs.Kept.{has_place, Stands, Follows};
    ghost use Rattle.dt_mrd.specs.MrdStanding.{mrd_stands};

    const ARITIES: u8 = 4;

    type Staged = MrdStaged;

    ghost ARITIES = { 4 };

    ghost kind = { mrd };

    ghost low = { λ value. value.rows.least };

    ghost is_placed = { λ value selector. has_place value.rows selector };

    ghost stands = { λ value x held. Stands value.rows x held };

    ghost follows = { λ value staged x held changes. Follows value.rows staged x held changes };

    fn empty(alloc: Global, least: u8) -> Result<Mrd, NoMemory> {
        let rows = KeptRows::empty(alloc, least)?;
        Ok(Mrd { rows })
    }

    fn has_place(&self, selector: u16) -> bool {
        self.rows.has_place(selector)
    }

    fn part<W: Words>(words: &mut W, query: &Query) -> Answer {
        look_part(words, query)
    }

    fn stage(
        &mut self,
        tree: &Tree,
        draft: &mut Draft,
        changes: &[Change],
    ) -> Result<MrdStaged, NoMemory> {
        let staged = self.rows.stage(tree, draft, changes)?;
        Ok(staged)
    }

    fn settle(&mut self, staged: MrdStaged) {
        self.rows.settle(&staged);
    }

    ghost laws = { mrd_is_lawful };

    ghost standing = { mrd_stands Self (λ value. value.rows) };

    ghost covers = { refl };
}

impl ForMoreClasses for Mrd {
    ghost use Rattle.dt_mrd.specs.MrdPart.{mrd_is_for_more_classes};

    ghost for_more_classes = { mrd_is_for_more_classes };
}
