use crate::asked::wrong_changes;
use crate::drawn::{draw_batch, first_batch};
use crate::editor::{Editor, Told};
use dt_definitions::Batch;
use dt_graph::Steps;
use dt_scratch::Change;
use dt_trials::{Chance, Fault};
use std::alloc::Global;
use std::sync::ledger::Ledger;

// How many programs there are.
const PROGRAMS: u16 = 60;

// How many batches come to each.
const BATCHES: u16 = 50;

/// What was met.
#[derive(Clone, Copy, Default)]
pub struct Met {
    /// The batches that were accepted and kept.
    pub kept: u32,
    /// Those that were accepted and taken back.
    pub taken_back: u32,
    /// Those in which an edit was refused.
    pub refused: u32,
    /// The changes of queries of one to four classes.
    pub changes: [u32; 4],
    /// How many queries were told wrongly.
    pub wrong: u32,
}

impl Met {
    // Takes in the changes of a batch.
    fn add_changes(&mut self, changes: &[Change]) {
        for change in changes {
            let place = usize::from(change.query.arity().saturating_sub(1));
            if let Some(count) = self.changes.get_mut(place) {
                *count = count.saturating_add(1);
            }
        }
    }
}

// Holds what is told of a batch that is tried against every query.
fn hold(editor: &Editor, changes: &[Change], met: &mut Met) {
    met.add_changes(changes);
    met.wrong = met
        .wrong
        .saturating_add(wrong_changes(editor.stands(), editor.tried(), changes));
}

// A batch that was accepted: three in four are kept.
fn keep_or_refuse(editor: &mut Editor, chance: &mut Chance, met: &mut Met) {
    if chance.below(4) == 0 {
        editor.refuse();
        met.taken_back = met.taken_back.saturating_add(1);
    } else {
        editor.accept();
        met.kept = met.kept.saturating_add(1);
    }
}

// A round: a batch is tried; where it is accepted, what it is told to change is held against every query.
fn play_round<L: Ledger>(
    alloc: Global,
    chance: &mut Chance,
    editor: &mut Editor,
    met: &mut Met,
    steps: &mut Steps<L>,
    batch: &Batch,
) -> Result<(), Fault> {
    match editor.try_batch(alloc, batch, steps)? {
        Told::Changes { changes, steps: _ } => {
            hold(editor, &changes, met);
            keep_or_refuse(editor, chance, met);
        }
        Told::Refused => met.refused = met.refused.saturating_add(1),
        Told::Full { fault: _ } => met.wrong = met.wrong.saturating_add(1),
    }
    Ok(())
}

// The first round of a program.
fn play_first<L: Ledger>(
    alloc: Global,
    chance: &mut Chance,
    editor: &mut Editor,
    met: &mut Met,
    steps: &mut Steps<L>,
) -> Result<(), Fault> {
    let batch = first_batch(alloc, chance)?;
    play_round(alloc, chance, editor, met, steps, &batch)
}

// A further round.
fn play_next<L: Ledger>(
    alloc: Global,
    chance: &mut Chance,
    editor: &mut Editor,
    met: &mut Met,
    steps: &mut Steps<L>,
) -> Result<(), Fault> {
    let batch = draw_batch(alloc, chance, editor.stands())?;
    play_round(alloc, chance, editor, met, steps, &batch)
}

// All rounds of a program.
fn play_rounds<L: Ledger>(
    alloc: Global,
    chance: &mut Chance,
    editor: &mut Editor,
    met: &mut Met,
    steps: &mut Steps<L>,
) -> Result<(), Fault> {
    play_first(alloc, chance, editor, met, steps)?;
    for _ in 1..BATCHES {
        play_next(alloc, chance, editor, met, steps)?;
    }
    Ok(())
}

// A program, from the empty one on.
fn play_program<L: Ledger>(
    alloc: Global,
    chance: &mut Chance,
    met: &mut Met,
    steps: &mut Steps<L>,
) -> Result<(), Fault> {
    let mut editor = Editor::new(alloc)?;
    play_rounds(alloc, chance, &mut editor, met, steps)
}

/// Plays all programs by chance, and answers what was met.
pub fn play<L: Ledger>(alloc: Global, steps: &mut Steps<L>) -> Result<Met, Fault> {
    let mut chance = Chance::new(1);
    let mut met = Met::default();
    for _ in 0..PROGRAMS {
        play_program(alloc, &mut chance, &mut met, steps)?;
    }
    Ok(met)
}
