use crate::addresses::Addresses;
use crate::plain;
use crate::plain_readers::{four, two};
use crate::rows::Unit;
use crate::stage::Stage;
use crate::visitors::{Visitor, visit_by_four, visit_by_two};
use std::sync::atomic::AtomicU64;
use std::thread::Threads;

/// What is done to a store and to plain words.
#[derive(Clone, Copy)]
pub enum Work {
    /// A reader looks, enters and leaves.
    Visits,
    /// A reader enters once, and reads words through three pages each.
    Reads,
    /// The author lays and publishes a version, and polls the root before it, which is free then.
    Turns,
    /// The author polls a root that a reader holds.
    Polls,
    /// Two readers look, enter and leave, in threads of their own.
    Two,
    /// Four do.
    Four,
}

/// A work, and how it is timed.
#[derive(Clone, Copy)]
pub struct Job {
    /// What is done.
    pub work: Work,
    /// The name that is printed.
    pub name: &'static str,
    /// The unit of its figures.
    pub unit: Unit,
    /// How many rounds are timed. Those of no threads are short, so that few are interrupted.
    pub rounds: u32,
    /// How often it is done in a round that is timed, by each thread.
    pub often: u32,
    /// How many threads do it.
    pub threads: u32,
    /// Which bits its addresses have, of those that lead to a leaf.
    pub mask: u64,
}

// The bits of the addresses of 32,768 leaves.
const ALL_BITS: u64 = 0xff_ffff;

/// All of them.
pub const ALL: [Job; 8] = [
    Job {
        work: Work::Visits,
        name: "look, enter and leave",
        unit: Unit::Nanoseconds,
        rounds: 101,
        often: 20_000,
        threads: 1,
        mask: ALL_BITS,
    },
    Job {
        work: Work::Reads,
        name: "read a word of eight",
        unit: Unit::Nanoseconds,
        rounds: 101,
        often: 100_000,
        threads: 1,
        mask: 7,
    },
    Job {
        work: Work::Reads,
        name: "read a word of all",
        unit: Unit::Nanoseconds,
        rounds: 101,
        often: 10_000,
        threads: 1,
        mask: ALL_BITS,
    },
    Job {
        work: Work::Turns,
        name: "lay, publish and poll",
        unit: Unit::Nanoseconds,
        rounds: 101,
        often: 10_000,
        threads: 1,
        mask: ALL_BITS,
    },
    Job {
        work: Work::Polls,
        name: "poll a held root",
        unit: Unit::Nanoseconds,
        rounds: 101,
        often: 200_000,
        threads: 1,
        mask: ALL_BITS,
    },
    Job {
        work: Work::Visits,
        name: "entries by 1 thread",
        unit: Unit::Rate,
        rounds: 21,
        often: 100_000,
        threads: 1,
        mask: ALL_BITS,
    },
    Job {
        work: Work::Two,
        name: "entries by 2 threads",
        unit: Unit::Rate,
        rounds: 21,
        often: 100_000,
        threads: 2,
        mask: ALL_BITS,
    },
    Job {
        work: Work::Four,
        name: "entries by 4 threads",
        unit: Unit::Rate,
        rounds: 21,
        often: 100_000,
        threads: 4,
        mask: ALL_BITS,
    },
];

/// Does it so often in a store. Answers how often it was done, or what the words that were read sum up to.
pub fn in_store<R: Threads + Sync>(
    rt: &R,
    stage: &mut Stage<'_>,
    work: Work,
    addresses: &mut Addresses,
    count: u32,
) -> u64 {
    match work {
        Work::Visits => u64::from(stage.readers.one.one.visit(count)),
        Work::Reads => stage.readers.one.one.read(addresses, count),
        Work::Turns => u64::from(stage.turner.turn_many(count)),
        Work::Polls => u64::from(stage.readers.one.one.hold(&mut stage.turner, count)),
        Work::Two => u64::from(visit_by_two(rt, &mut stage.readers.one, count)),
        Work::Four => u64::from(visit_by_four(rt, &mut stage.readers, count)),
    }
}

/// Does the same accesses so often to plain words, with the same answer.
pub fn in_plain<R: Threads + Sync>(
    rt: &R,
    words: &[AtomicU64],
    work: Work,
    addresses: &mut Addresses,
    count: u32,
) -> u64 {
    match work {
        Work::Visits => u64::from(plain::visit_many(words, count)),
        Work::Reads => plain::read_many(words, addresses, count),
        Work::Turns => u64::from(plain::turn_many(words, count)),
        Work::Polls => u64::from(plain::poll_many(words, count)),
        Work::Two => u64::from(visit_by_two(rt, &mut two(words), count)),
        Work::Four => u64::from(visit_by_four(rt, &mut four(words), count)),
    }
}
