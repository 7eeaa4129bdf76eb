ghost use Rattle.std.specs.Prelude.{◌≡◌};
ghost use Rattle.dt_version.specs.Views.{IsFirstSeat};

use crate::anything::Anything;
use crate::counts::print_counts;
use crate::fault::Fault;
use crate::filler::Filler;
use crate::layout::{LEAF, READERS};
use crate::plain;
use crate::rounds::{time_fills, time_job};
use crate::stage::Stage;
use crate::work::ALL;
use dt_version::{AuthorSeat, Limits, Store};
use std::rt::Clock;
use std::sync::atomic::AtomicU64;
use std::thread::Threads;

// How many leaves are counted, and how many are timed.
const FEW: u32 = 1024;

const MANY: u32 = 32_768;

// Counts over a fresh store and plain words that are 0.
fn count_store<R: Print + Threads + Sync>(
    rt: &R,
    store: &Store<Anything>,
    seat: AuthorSeat<Anything>,
    words: &[AtomicU64],
) -> Result<(), Fault>
    requires first { IsFirstSeat store.now.table.shared.table_id store.now.table.shared.key seat.place }
    requires readers { store.now.limits.readers ≡ 4 }
    requires pages { store.now.limits.pages ≡ 1154 }
{
    let mut filler = Filler::new(store, seat);
    filler.fill_leaves(FEW);
    filler.link_leaves(FEW);
    plain::fill_leaves(words, FEW);
    plain::link_leaves(words, FEW);
    if let Some(mut stage) = Stage::new(filler) {
        print_counts(rt, &mut stage, words)?;
    }
    Ok(())
}

/// Counts, and times nothing.
pub fn count<R: Print + Threads + Sync + AllocGlobal>(rt: &R) -> Result<(), Fault> {
    let Some(limits) = Limits::new(READERS, LEAF + FEW, 1 << 31, 1 << 48) else {
        return Ok(());
    };
    let words = plain::plain_words(rt.alloc(), LEAF + FEW)?;
    let (store, seat) = Store::<Anything>::new(rt.alloc(), limits)?;
    count_store(rt, &store, seat, &words)
}

// Times all that is done once a tree is current.
fn time_stage<R: Print + Clock + Threads + Sync + AllocGlobal>(
    rt: &R,
    stage: &mut Stage<'_>,
    words: &[AtomicU64],
) -> Result<(), Fault> {
    for job in &ALL {
        time_job(rt, stage, words, job)?;
    }
    Ok(())
}

// Times over a fresh store and plain words that are 0.
fn time_store<R: Print + Clock + Threads + Sync + AllocGlobal>(
    rt: &R,
    store: &Store<Anything>,
    seat: AuthorSeat<Anything>,
    words: &[AtomicU64],
) -> Result<(), Fault>
    requires first { IsFirstSeat store.now.table.shared.table_id store.now.table.shared.key seat.place }
    requires readers { store.now.limits.readers ≡ 4 }
    requires pages { store.now.limits.pages ≡ 32_898 }
{
    let mut filler = Filler::new(store, seat);
    time_fills(rt, &mut filler, words)?;
    filler.fill_leaves(MANY);
    filler.link_leaves(MANY);
    plain::fill_leaves(words, MANY);
    plain::link_leaves(words, MANY);
    match Stage::new(filler) {
        Some(mut stage) => time_stage(rt, &mut stage, words),
        None => Err(Fault::Differs),
    }
}

/// Times what a reader and an author do.
pub fn time<R: Print + Clock + Threads + Sync + AllocGlobal>(rt: &R) -> Result<(), Fault> {
    let Some(limits) = Limits::new(READERS, LEAF + MANY, 1 << 31, 1 << 48) else {
        return Ok(());
    };
    let words = plain::plain_words(rt.alloc(), LEAF + MANY)?;
    let (store, seat) = Store::<Anything>::new(rt.alloc(), limits)?;
    time_store(rt, &store, seat, &words)
}
