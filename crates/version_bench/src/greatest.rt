use crate::anything::Anything;
use crate::fault::Fault;
use crate::figures::nanoseconds;
use crate::plain::plain_words;
use crate::rows::{Rows, Unit};
use dt_graph::NoMemory;
use dt_version::{Limits, Store};
use std::alloc::Global;
use std::rt::Clock;
use std::time::Instant;

// How many rounds are timed.
const ROUNDS: u32 = 5;

// Makes a store at the greatest limits, and lets it go.
fn make_store(alloc: Global) -> Result<(), NoMemory> {
    if let Some(limits) = Limits::new(256, 65_536, 1 << 31, 1 << 48) {
        let (_store, _seat) = Store::<Anything>::new(alloc, limits)?;
    }
    Ok(())
}

// Makes as many plain words, and lets them go.
fn make_plain(alloc: Global) -> Result<(), NoMemory> {
    let _words = plain_words(alloc, 65_536)?;
    Ok(())
}

/// Makes a store at the greatest limits once.
pub fn make_greatest<R: Print + AllocGlobal>(rt: &R) -> Result<(), Fault> {
    make_store(rt.alloc())?;
    println!(rt; "a store of 256 readers and 65,536 pages was made")?;
    Ok(())
}

fn round<R: Clock + AllocGlobal>(rt: &R, rows: &mut Rows) -> Result<(), Fault> {
    let start = Instant::now(rt)?;
    make_store(rt.alloc())?;
    let ours = nanoseconds(rt, &start)?;
    let start = Instant::now(rt)?;
    make_plain(rt.alloc())?;
    let plain = nanoseconds(rt, &start)?;
    rows.put(ours, plain, 1)?;
    Ok(())
}

/// Times the making of the greatest store, with its end, beside that of as many plain words, with theirs.
pub fn time_greatest<R: Print + Clock + AllocGlobal>(rt: &R) -> Result<(), Fault> {
    let mut rows = Rows::new(rt.alloc(), Unit::Milliseconds);
    for _ in 0..ROUNDS {
        round(rt, &mut rows)?;
    }
    rows.print(rt, "make the greatest store")?;
    Ok(())
}
