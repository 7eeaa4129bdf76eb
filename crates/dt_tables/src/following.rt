ghost use Rattle.std.specs.Prelude.{◌≡◌, Ok, IfErr, OnOk, OnErr};
ghost use Rattle.dt_pages.specs.Image.{look_up};
ghost use Rattle.dt_definitions.specs.Step.{step_batch};
ghost use Rattle.dt_propagate.specs.Limits.{AreSizesOf, IsFullBy, IsWithinLimits};
ghost use Rattle.dt_cells.specs.Held.{Held};
ghost use Rattle.dt_cells.specs.Following.{IsTableOf};
ghost use Rattle.dt_tables.specs.Words.{AreNextWords};

use crate::what_follows::covered_changes;
use dt_cells::{TableKind, cells_follow, follow};
use dt_definitions::{Batch, TwoPrograms};
use dt_pages::Tree;
use dt_propagate::{ChangeFault, Sizes};
use dt_scratch::{law_of_answers, law_of_cells};
use std::alloc::Global;

// The table follows the batch that is tried: it was one of the program that stands, and is one of the one that is tried.
// The sizes go with it. After every fault it is still one of the program that stands, and no word has changed.
pub(crate) fn follow_tried<K: TableKind>(
    alloc: Global,
    kind: &mut K,
    tree: &mut Tree,
    batch: &Batch,
    programs: &TwoPrograms,
    sizes: &mut Sizes,
) -> Result<(), ChangeFault>
    requires batch { step_batch programs.now.stands batch.now ≡ Ok programs.now.tried }
    requires sizes { AreSizesOf programs.now.stands sizes.old }
    requires low { K.low kind.old ≡ 1 }
    requires table { (held : Held) × IsTableOf K.kind (K.stands kind.old) 1 (look_up tree.old) held programs.now.stands }
    ensures low { K.low kind.new ≡ 1 }
    ensures table { OnOk result ((held : Held) × IsTableOf K.kind (K.stands kind.new) 1 (look_up tree.new) held programs.now.tried) }
    ensures words { OnOk result (AreNextWords K.kind programs.now.stands programs.now.tried (look_up tree.old) (look_up tree.new)) }
    ensures image { OnErr result (tree.new ≡ tree.old) }
    ensures sizes { OnOk result (AreSizesOf programs.now.tried sizes.new) }
    ensures sizes_stay { OnErr result (sizes.new ≡ sizes.old) }
    ensures within { OnOk result (IsWithinLimits programs.now.tried) }
    ensures full { IfErr result (λ fault. IsFullBy programs.now.tried fault) }
    ensures stays { OnErr result ((held : Held)
        → IsTableOf K.kind (K.stands kind.old) 1 (look_up tree.old) held programs.now.stands
        → IsTableOf K.kind (K.stands kind.new) 1 (look_up tree.new) held programs.now.stands) }
{
    let old = programs.stands();
    let new = programs.tried();
    old.law();
    new.law();
    law_of_cells();
    law_of_answers();
    cells_follow();
    let mut renewed = *sizes;
    let changes = covered_changes(alloc, old, batch, new, &mut renewed, K::ARITIES)?;
    match follow(alloc, kind, tree, &changes, old, batch, new) {
        Ok(()) => {
            *sizes = renewed;
            Ok(())
        }
        Err(_) => Err(ChangeFault::NoMemory),
    }
}
