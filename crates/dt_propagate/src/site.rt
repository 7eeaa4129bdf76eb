ghost use Rattle.std.specs.Prelude.{◌≡◌, ℕ, Ok, IfOk};
ghost use Rattle.std.specs.List.{list_any};
ghost use Rattle.dt_graph.specs.Graph.{has_number};
ghost use Rattle.dt_definitions.specs.Differing.{edited_classes};
ghost use Rattle.dt_definitions.specs.Step.{step_batch};
ghost use Rattle.dt_propagate.specs.Marks.{DifferNear, is_below_in};

use crate::edited::{edited_classes, redefined_keys};
use crate::marks::below_edited;
use dt_definitions::{Batch, DefinitionKey, Program, batches_differ_where_they_say};
use dt_graph::{ClassSet, NoMemory, others_stay_below};
use std::alloc::Global;

// Where two programs may differ: the keys of definitions, and the classes whose links differ, with all below them.
#[derive(Debug, Drop)]
pub(crate) struct Site {
    pub(crate) keys: Vec<DefinitionKey>,
    pub(crate) edited: ClassSet,
}

// The classes at or below one whose links the batch changes, in one program or the other.
fn edited_set(
    alloc: Global,
    old: &Program,
    batch: &Batch,
    new: &Program,
) -> Result<ClassSet, NoMemory>
    ensures { IfOk result (λ set. (n : ℕ) → has_number set n
        ≡ list_any (λ class. is_below_in old.now.graph.links new.now.graph.links n class) (edited_classes batch.now)) }
{
    let edited = edited_classes(alloc, batch)?;
    Ok(below_edited(old.graph(), new.graph(), &edited))
}

// Where the batch makes them differ.
pub(crate) fn find_site(
    alloc: Global,
    old: &Program,
    batch: &Batch,
    new: &Program,
) -> Result<Site, NoMemory>
    requires { step_batch old.now batch.now ≡ Ok new.now }
    ensures { IfOk result (λ site. DifferNear old.now new.now site.keys.items site.edited) }
{
    old.law();
    new.law();
    batches_differ_where_they_say();
    others_stay_below();
    let edited = edited_set(alloc, old, batch, new)?;
    let keys = redefined_keys(alloc, batch)?;
    Ok(Site { keys, edited })
}
