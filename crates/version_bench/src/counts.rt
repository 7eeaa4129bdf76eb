use crate::addresses::Addresses;
use crate::stage::Stage;
use crate::work::{ALL, Job, in_plain, in_store};
use std::io;
use std::sync::atomic::AtomicU64;
use std::thread::Threads;

// How often each thing is done.
const COUNT: u32 = 1000;

// The bits of the addresses of 1,024 leaves.
const MASK: u64 = 0x7_ffff;

fn print_count<R: Threads + Sync + Print>(
    rt: &R,
    stage: &mut Stage<'_>,
    words: &[AtomicU64],
    job: &Job,
) -> io::Result<()> {
    let (mut addresses, what) = (Addresses::new(job.mask & MASK), job.name);
    let mut same = addresses;
    let ours = in_store(rt, stage, job.work, &mut addresses, COUNT);
    let plain = in_plain(rt, words, job.work, &mut same, COUNT);
    println!(rt; "{what} | store {ours} | plain {plain}")
}

/// Prints what each thing comes to that is timed, done 1,000 times over 1,024 leaves.
pub fn print_counts<R: Threads + Sync + Print>(
    rt: &R,
    stage: &mut Stage<'_>,
    words: &[AtomicU64],
) -> io::Result<()> {
    for job in &ALL {
        print_count(rt, stage, words, job)?;
    }
    Ok(())
}
