ghost use Rattle.std.specs.Prelude.{◌≤◌};

use crate::arities::Arities;
use crate::beside::Beside;
use crate::drawn::{draw_batch, first_batch};
use crate::met::Met;
use crate::rules::Rules;
use dt_cells::TableKind;
use dt_definitions::Batch;
use dt_tables::{CommitFault, Tabled};
use dt_trials::{Chance, Fault};
use std::alloc::Global;

// How many batches come to each.
const BATCHES: u16 = 50;

// At the end of each program with a number divisible by this one, the words that are set are counted at all addresses.
const COUNTED: u16 = 10;

// A round: a batch is committed or refused, and then all words are held against what they are to be.
fn play_round<K: TableKind>(
    tabled: &mut Tabled<K>,
    batch: &Batch,
    beside: &mut Beside,
    met: &mut Met,
) -> Result<(), Fault> {
    match tabled.commit(batch) {
        Ok(()) => {
            met.committed = met.committed.saturating_add(1);
            beside.follow(met);
        }
        Err(CommitFault::Refused { .. }) => {
            met.refused = met.refused.saturating_add(1);
            beside.take_back(tabled.program())?;
        }
        Err(CommitFault::NoMemory) => return Err(Fault::NoMemory),
        Err(_) => met.wrong = met.wrong.saturating_add(1),
    }
    beside.hold(tabled.tree(), met);
    Ok(())
}

// The first round of a program.
fn play_first<K: TableKind>(
    alloc: Global,
    chance: &mut Chance,
    arities: Arities,
    tabled: &mut Tabled<K>,
    beside: &mut Beside,
    met: &mut Met,
) -> Result<(), Fault> {
    let batch = first_batch(alloc, chance, arities, &mut beside.program)?;
    play_round(tabled, &batch, beside, met)
}

// A further round.
fn play_next<K: TableKind>(
    alloc: Global,
    chance: &mut Chance,
    arities: Arities,
    tabled: &mut Tabled<K>,
    beside: &mut Beside,
    met: &mut Met,
) -> Result<(), Fault> {
    let batch = draw_batch(alloc, chance, arities, &mut beside.program)?;
    play_round(tabled, &batch, beside, met)
}

// All rounds of a program.
fn play_rounds<K: TableKind>(
    alloc: Global,
    chance: &mut Chance,
    arities: Arities,
    tabled: &mut Tabled<K>,
    beside: &mut Beside,
    met: &mut Met,
) -> Result<(), Fault> {
    play_first(alloc, chance, arities, tabled, beside, met)?;
    for _ in 1..BATCHES {
        play_next(alloc, chance, arities, tabled, beside, met)?;
    }
    Ok(())
}

// All rounds of a program, at whose end the words that are set are counted, where they are to be.
fn play_counted<K: TableKind>(
    alloc: Global,
    chance: &mut Chance,
    arities: Arities,
    is_counted: bool,
    tabled: &mut Tabled<K>,
    beside: &mut Beside,
    met: &mut Met,
) -> Result<(), Fault> {
    play_rounds(alloc, chance, arities, tabled, beside, met)?;
    if is_counted {
        beside.hold_count(tabled.tree(), met);
    }
    Ok(())
}

// A program, from the empty one on, beside what its words are held against.
fn play_beside<K: TableKind>(
    alloc: Global,
    chance: &mut Chance,
    arities: Arities,
    beside: &mut Beside,
    is_counted: bool,
    met: &mut Met,
) -> Result<(), Fault>
    requires { 1 ≤ K.kind.most_low }
{
    beside.fill(alloc)?;
    let mut tabled = Tabled::<K>::new(alloc)?;
    play_counted(alloc, chance, arities, is_counted, &mut tabled, beside, met)
}

// A program, from the empty one on.
fn play_program<K: TableKind>(
    alloc: Global,
    chance: &mut Chance,
    rules: &Rules,
    is_counted: bool,
    met: &mut Met,
) -> Result<(), Fault>
    requires { 1 ≤ K.kind.most_low }
{
    let mut beside = Beside::new(alloc, rules)?;
    play_beside::<K>(alloc, chance, rules.arities, &mut beside, is_counted, met)
}

/// Plays all programs by chance under a kind that places its words by these rules, and answers what was met.
pub fn play<K: TableKind>(alloc: Global, rules: &Rules) -> Result<Met, Fault>
    requires { 1 ≤ K.kind.most_low }
{
    let mut chance = Chance::new(1);
    let mut met = Met::default();
    for number in 0..rules.programs {
        let is_counted = number % COUNTED == 0;
        play_program::<K>(alloc, &mut chance, rules, is_counted, &mut met)?;
    }
    Ok(met)
}
