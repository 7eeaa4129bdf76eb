use crate::edit_kind::EditKind;
use crate::edits::{Trial, draw_trials};
use crate::generated::Generated;
use dt_definitions::{Batch, Edit, Program};
use dt_trials::{Chance, Fault, put};
use std::alloc::Global;

/// Edits of a kind, each a batch of its own, that are accepted one after another, and the batches that undo them.
#[derive(Drop)]
pub struct SingleEdits {
    /// The kind.
    pub kind: EditKind,
    /// The batches.
    pub batches: Vec<Batch>,
    /// What undoes them, that of the last batch first.
    pub undo: Vec<Batch>,
}

// The batch of this edit.
fn single(alloc: Global, edit: Edit) -> Result<Batch, Fault> {
    let mut batch = Batch::new(alloc);
    put(&mut batch, edit)?;
    Ok(batch)
}

// The batches of these edits, each of one.
fn singles(alloc: Global, edits: Vec<Edit>) -> Result<Vec<Batch>, Fault> {
    let mut batches = Vec::new(alloc);
    for edit in edits {
        batches.push(single(alloc, edit)?)?;
    }
    Ok(batches)
}

// The edits of a trial, each a batch of its own.
fn single_edits(alloc: Global, trial: Trial) -> Result<SingleEdits, Fault> {
    let Trial { kind, edits, undo } = trial;
    let batches = singles(alloc, edits)?;
    let undo = singles(alloc, undo)?;
    Ok(SingleEdits {
        kind,
        batches,
        undo,
    })
}

/// Draws edits of each kind for this program, which is left as it is found.
pub fn draw_single_edits(
    alloc: Global,
    chance: &mut Chance,
    generated: &Generated,
    program: &mut Program,
) -> Result<Vec<SingleEdits>, Fault> {
    let mut all = Vec::new(alloc);
    for trial in draw_trials(alloc, chance, generated, program)? {
        all.push(single_edits(alloc, trial)?)?;
    }
    Ok(all)
}
