ghost use Rattle.std.specs.Prelude.{◌≡◌, ◌≤◌};

use crate::addresses::Addresses;
use crate::fault::Fault;
use crate::figures::nanoseconds;
use crate::filler::Filler;
use crate::plain;
use crate::rows::{Rows, Unit};
use crate::stage::Stage;
use crate::work::{Job, in_plain, in_store};
use std::rt::Clock;
use std::sync::atomic::AtomicU64;
use std::thread::Threads;
use std::time::Instant;

// How many rounds are timed, and how many leaves a round fills.
const ROUNDS: u32 = 101;

const LEAVES: u32 = 64;

fn fill_round(
    rt: &impl Clock,
    rows: &mut Rows,
    filler: &mut Filler<'_>,
    words: &[AtomicU64],
) -> Result<(), Fault>
    requires { 194 ≤ filler.old.author.store.now.limits.pages }
    ensures { filler.new.author.store ≡ filler.old.author.store }
{
    let start = Instant::now(rt)?;
    filler.fill_leaves(LEAVES);
    let ours = nanoseconds(rt, &start)?;
    let start = Instant::now(rt)?;
    plain::fill_leaves(words, LEAVES);
    let plain = nanoseconds(rt, &start)?;
    rows.put(ours, plain, LEAVES * 512)?;
    Ok(())
}

fn fill_rounds(
    rt: &impl Clock,
    rows: &mut Rows,
    filler: &mut Filler<'_>,
    words: &[AtomicU64],
) -> Result<(), Fault>
    requires { 194 ≤ filler.old.author.store.now.limits.pages }
    ensures { filler.new.author.store ≡ filler.old.author.store }
{
    for _ in 0..ROUNDS {
        fill_round(rt, rows, filler, words)?;
    }
    Ok(())
}

/// Times the fill of a word, and prints its lines.
pub fn time_fills<R: Clock + Print + AllocGlobal>(
    rt: &R,
    filler: &mut Filler<'_>,
    words: &[AtomicU64],
) -> Result<(), Fault>
    requires { 194 ≤ filler.old.author.store.now.limits.pages }
    ensures { filler.new.author.store ≡ filler.old.author.store }
{
    let mut rows = Rows::new(rt.alloc(), Unit::Nanoseconds);
    fill_rounds(rt, &mut rows, filler, words)?;
    rows.print(rt, "fill a word")?;
    Ok(())
}

// Times a round of work, which must come to the same in both.
fn round<R: Clock + Threads + Sync>(
    rt: &R,
    rows: &mut Rows,
    stage: &mut Stage<'_>,
    words: &[AtomicU64],
    job: &Job,
    addresses: &mut Addresses,
) -> Result<(), Fault> {
    let (often, mut same) = (job.often, *addresses);
    let start = Instant::now(rt)?;
    let found = in_store(rt, stage, job.work, addresses, often);
    let ours = nanoseconds(rt, &start)?;
    let start = Instant::now(rt)?;
    let wanted = in_plain(rt, words, job.work, &mut same, often);
    let plain = nanoseconds(rt, &start)?;
    rows.put(ours, plain, often.saturating_mul(job.threads))?;
    if found == wanted {
        Ok(())
    } else {
        Err(Fault::Differs)
    }
}

// Times all rounds of a job, over 32,768 leaves.
fn time_rounds<R: Clock + Threads + Sync>(
    rt: &R,
    rows: &mut Rows,
    stage: &mut Stage<'_>,
    words: &[AtomicU64],
    job: &Job,
) -> Result<(), Fault> {
    let mut addresses = Addresses::new(job.mask);
    for _ in 0..job.rounds {
        round(rt, rows, stage, words, job, &mut addresses)?;
    }
    Ok(())
}

/// Times the job, and prints its lines.
pub fn time_job<R: Clock + Threads + Sync + Print + AllocGlobal>(
    rt: &R,
    stage: &mut Stage<'_>,
    words: &[AtomicU64],
    job: &Job,
) -> Result<(), Fault> {
    let mut rows = Rows::new(rt.alloc(), job.unit);
    time_rounds(rt, &mut rows, stage, words, job)?;
    rows.print(rt, job.name)?;
    Ok(())
}
