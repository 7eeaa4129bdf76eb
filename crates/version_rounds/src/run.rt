ghost use Rattle.std.specs.Prelude.{◌≡◌};
ghost use Rattle.dt_gate.specs.declared.gate.Stage.TheVariants.{Out};
ghost use Rattle.dt_version.specs.Views.{seat_of, IsFirstSeat};

use crate::fault::Fault;
use crate::publisher::{Answered, Publisher};
use crate::reader::read_many;
use crate::seen::Seen;
use dt_gate::Counting;
use dt_version::{AuthorSeat, Limits, ReaderSeat, Store};
use std::alloc::Global;
use std::thread::{Threads, join_mut};

// How many runs are made at most.
const RUNS: u32 = 1000;

// What a run came to.
#[derive(Clone, Copy, Debug, PartialEq, Eq)]
struct Outcome {
    // All entries that publishes answered.
    entries: u64,
    // How many publishes answered entries.
    busy: u32,
    // How many readers are out at the end.
    out: u16,
    // What the readers saw.
    first: Seen,
    second: Seen,
}

impl Outcome {
    // How often a word was not the version.
    fn torn(&self) -> u32 {
        self.first.torn.saturating_add(self.second.torn)
    }

    // How often a version fell.
    fn fell(&self) -> u32 {
        self.first.fell.saturating_add(self.second.fell)
    }

    // How many looks were worn.
    fn worn(&self) -> u32 {
        self.first.worn.saturating_add(self.second.worn)
    }

    // Whether the run is as each has to be.
    fn is_right(&self) -> bool {
        self.entries == 200_000
            && self.torn() == 0
            && self.fell() == 0
            && self.worn() == 0
            && self.out == 0
    }

    // Whether versions came while readers entered.
    fn is_busy(&self) -> bool {
        self.busy >= 2 && (self.first.saw_two() || self.second.saw_two())
    }

    fn print(&self, rt: &impl Print) -> Result<(), Fault> {
        let (entries, torn, fell) = (self.entries, self.torn(), self.fell());
        let (worn, out) = (self.worn(), self.out);
        println!(rt; "entries {entries} | torn {torn} | fell {fell} | worn {worn} | out {out}")?;
        Ok(())
    }
}

// Both readers, each in a thread of its own.
fn read_both<R: Threads + Sync>(
    rt: &R,
    first: &mut ReaderSeat<'_, Counting>,
    second: &mut ReaderSeat<'_, Counting>,
) -> (Seen, Seen)
    requires first { (seat_of first.old.place).stage ≡ Out }
    requires second { (seat_of second.old.place).stage ≡ Out }
    ensures first { (seat_of first.new.place).stage ≡ Out }
    ensures second { (seat_of second.new.place).stage ≡ Out }
    ensures first_store { first.new.store ≡ first.old.store }
    ensures second_store { second.new.store ≡ second.old.store }
{
    join_mut(rt, &mut || read_many(first), &mut || read_many(second))
}

// The author beside both readers.
fn run_beside<R: Threads + Sync>(
    rt: &R,
    publisher: &mut Publisher<'_>,
    first: &mut ReaderSeat<'_, Counting>,
    second: &mut ReaderSeat<'_, Counting>,
) -> (Answered, (Seen, Seen))
    requires first { (seat_of first.old.place).stage ≡ Out }
    requires second { (seat_of second.old.place).stage ≡ Out }
    ensures publisher { publisher.new.author.store ≡ publisher.old.author.store }
    ensures first { (seat_of first.new.place).stage ≡ Out }
    ensures second { (seat_of second.new.place).stage ≡ Out }
    ensures first_store { first.new.store ≡ first.old.store }
    ensures second_store { second.new.store ≡ second.old.store }
{
    join_mut(
        rt,
        &mut || publisher.publish_many(),
        &mut || -> (Seen, Seen)
            requires { ((seat_of first.now.place).stage ≡ Out) × ((seat_of second.now.place).stage ≡ Out) }
            ensures { ((seat_of first.exit.now.place).stage ≡ Out) × ((seat_of second.exit.now.place).stage ≡ Out) × (first.exit.now.store ≡ first.entry.now.store) × (second.exit.now.store ≡ second.entry.now.store) }
        { read_both(rt, first, second) },
    )
}

// A run; then one publish more, and all seats go back.
fn run_to_end<'s, R: Threads + Sync>(
    rt: &R,
    publisher: Publisher<'s>,
    first: ReaderSeat<'s, Counting>,
    second: ReaderSeat<'s, Counting>,
) -> Outcome
    requires first { (seat_of first.place).stage ≡ Out }
    requires second { (seat_of second.place).stage ≡ Out }
    requires of_first { first.store ≡ publisher.author.store }
    requires of_second { second.store ≡ publisher.author.store }
{
    let mut publisher = publisher;
    let mut first = first;
    let mut second = second;
    let (mut answered, (first_seen, second_seen)) = run_beside(
        rt,
        &mut publisher,
        &mut first,
        &mut second,
    );
    if let Some(entries) = publisher.publish_next() {
        answered.add(entries);
    }
    let mut closing = publisher.close();
    closing.take(first);
    closing.take(second);
    Outcome {
        entries: answered.entries,
        busy: answered.busy,
        out: closing.out(),
        first: first_seen,
        second: second_seen,
    }
}

// A run over a fresh store.
fn run_store<R: Threads + Sync>(
    rt: &R,
    store: &Store<Counting>,
    seat: AuthorSeat<Counting>,
) -> Option<Outcome>
    requires first { IsFirstSeat store.now.table.shared.table_id store.now.table.shared.key seat.place }
    requires readers { store.now.limits.readers ≡ 2 }
    requires pages { store.now.limits.pages ≡ 16 }
{
    let mut publisher = Publisher::new(store, seat);
    let first = publisher.give()?;
    let second = publisher.give()?;
    Some(run_to_end(rt, publisher, first, second))
}

// A run; `None` where no store is made or no seat is given.
fn run_once<R: Threads + Sync>(rt: &R, alloc: Global) -> Result<Option<Outcome>, Fault> {
    let Some(limits) = Limits::new(2, 16, 1 << 31, 1 << 48) else {
        return Ok(None);
    };
    let (store, seat) = Store::<Counting>::new(alloc, limits)?;
    Ok(run_store(rt, &store, seat))
}

/// Makes runs until one is busy or one is wrong, and prints that one. Answers whether a busy one was met, and all were right.
pub fn run_until_busy<R: Threads + Sync + Print + AllocGlobal>(rt: &R) -> Result<bool, Fault> {
    for _ in 0..RUNS {
        let Some(outcome) = run_once(rt, rt.alloc())? else {
            return Ok(false);
        };
        if !outcome.is_right() {
            outcome.print(rt)?;
            return Ok(false);
        }
        if outcome.is_busy() {
            outcome.print(rt)?;
            println!(rt; "versions were published while readers entered")?;
            return Ok(true);
        }
    }
    println!(rt; "no version was published while readers entered")?;
    Ok(false)
}
