ghost use Rattle.std.specs.Prelude.{◌≡◌, ◌≤◌, Ok, IfOk, OnOk, OnErr};
ghost use Rattle.std.specs.FinMap.{empty};
ghost use Rattle.dt_pages.specs.Reading.{Reading};
ghost use Rattle.dt_pages.specs.Image.{look_up};
ghost use Rattle.dt_definitions.specs.Program.{empty_program};
ghost use Rattle.dt_definitions.specs.Step.{step_batch};
ghost use Rattle.dt_cells.specs.Held.{Held, none_held, held_after};
ghost use Rattle.dt_cells.specs.Serving.{Serves};
ghost use Rattle.dt_cells.specs.Following.{IsTableOf, CanFollow, IsImageAfter};

use crate::head_words::heads_of_batch;
use crate::kind::TableKind;
use dt_definitions::{Batch, Program};
use dt_graph::NoMemory;
use dt_pages::{Draft, Tree, page_zero_is_empty};
use dt_scratch::{Change, law_of_cells};
use std::alloc::Global;

/// The table of the empty program, for queries from this arity on. No word is set.
pub fn first_table<K: TableKind>(alloc: Global, least: u8) -> Result<(K, Tree), NoMemory>
    requires { (1 ≤ least) × (least ≤ K.kind.most_low) }
    ensures low { IfOk result (λ made. K.low made.0 ≡ least) }
    ensures table { IfOk result (λ made. IsTableOf K.kind (K.stands made.0) least (look_up made.1) none_held empty_program) }
    ensures words { IfOk result (λ made. made.1 ≡ empty) }
{
    page_zero_is_empty();
    let kind = K::empty(alloc, least)?;
    let tree = Tree::new(alloc)?;
    Ok((kind, tree))
}

/// The table follows a batch: it was one of the old program, and is one of the new. The words are those of the kind's
/// placing of the changes and the new program's heads, and no other word changes. After want of memory the image is as
/// it was, and the value stands for what it stood for, so that the table is still one of the old program.
///
/// It costs what the batch's edits and the staging of its changes cost, and the laying of the words that they set.
pub fn follow<K: TableKind>(
    alloc: Global,
    kind: &mut K,
    tree: &mut Tree,
    changes: &[Change],
    old: &Program,
    batch: &Batch,
    new: &Program,
) -> Result<(), NoMemory>
    requires batch { step_batch old.now batch.now ≡ Ok new.now }
    requires table { (held : Held) × CanFollow K.kind (K.stands kind.old) (K.low kind.old) (look_up tree.old) held changes.now old.now new.now }
    ensures low { K.low kind.new ≡ K.low kind.old }
    ensures table { OnOk result ((held : Held)
        → CanFollow K.kind (K.stands kind.old) (K.low kind.old) (look_up tree.old) held changes.now old.now new.now
        → IsTableOf K.kind (K.stands kind.new) (K.low kind.old) (look_up tree.new) (held_after held changes.now) new.now) }
    ensures serves { OnOk result (Serves (K.low kind.old) K.kind new.now (look_up tree.new)) }
    ensures words { OnOk result ((held : Held)
        → CanFollow K.kind (K.stands kind.old) (K.low kind.old) (look_up tree.old) held changes.now old.now new.now
        → IsImageAfter K.kind (look_up tree.old) held changes.now old.now new.now (look_up tree.new)) }
    ensures image { OnErr result (tree.new ≡ tree.old) }
    ensures stands { OnErr result ((x : Reading) (held : Held) → K.stands kind.old x held → K.stands kind.new x held) }
{
    new.law();
    law_of_cells();
    let mut draft = Draft::new(alloc);
    heads_of_batch(&mut draft, old, batch, new)?;
    let staged = kind.stage(tree, &mut draft, changes)?;
    tree.overlay(draft)?;
    kind.settle(staged);
    Ok(())
}
