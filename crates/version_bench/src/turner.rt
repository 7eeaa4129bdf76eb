ghost use Rattle.std.specs.Prelude.{◌≡◌, ◌+◌, ◌<◌, IfSome, true, false};
ghost use Rattle.dt_gate.specs.declared.gate.Stage.TheVariants.{Out};
ghost use Rattle.dt_version.specs.Views.{author_of, seat_of};
ghost use Rattle.version_bench.specs.Turns.{IsTurning};
ghost use Rattle.version_bench.specs.declared.known.Known.TheVariants as known;

use crate::anything::Anything;
use crate::known::Known;
use crate::layout::{READERS, TOP};
use core::mem::replace_with;
use dt_version::{Author, ReaderSeat, Swapped};

/// An author that publishes on two roots in turn.
#[derive(Drop)]
pub struct Turner<'s> {
    pub(crate) author: Author<'s, Anything>,
    pub(crate) current: u16,
    pub(crate) other: u16,
    pub(crate) kept: Known,
    pub(crate) version: u64,
    pub(crate) out: u16,
    ghost turning: { IsTurning author.store.now.table.shared.key current other kept version out (author_of author.place) },
}

impl<'s> Turner<'s> {
    /// Gives out a reader seat, while fewer than four are out.
    pub fn give(&mut self) -> Option<ReaderSeat<'s, Anything>>
        requires { self.old.author.store.now.limits.readers ≡ 4 }
        ensures store { self.new.author.store ≡ self.old.author.store }
        ensures given { IfSome result (λ seat. ((seat_of seat.place).stage ≡ Out) × (seat.store ≡ self.old.author.store)) }
    {
        if self.out >= READERS {
            return None;
        }
        self.out += 1;
        Some(self.author.seat_out())
    }

    // Lays the other root and publishes it. The answer is how often the version before it was entered.
    fn publish_free(&mut self, version: u64) -> u32
        requires free { self.old.kept ≡ known.Free }
        requires next { version ≡ self.old.version + 1 }
        ensures old { self.new.kept ≡ known.Old result }
        ensures store { self.new.author.store ≡ self.old.author.store }
    {
        let root = self.other;
        self.author.lay(root, version, TOP);
        let Swapped { root: old, entries } = self.author.publish(root, &version);
        self.current = root;
        self.other = old;
        self.kept = Known::Old(entries);
        self.version = version;
        entries
    }

    // Polls the other root once: it is free where all that entered have left.
    fn poll_once(&mut self, root: u16, entries: u32) -> bool
        requires root { root ≡ self.old.other }
        requires old { self.old.kept ≡ known.Old entries }
        ensures other { self.new.other ≡ self.old.other }
        ensures free { result ≡ true → self.new.kept ≡ known.Free }
        ensures held { result ≡ false → self.new.kept ≡ self.old.kept }
        ensures store { self.new.author.store ≡ self.old.author.store }
    {
        let exits = self.author.poll(root);
        let is_free = exits == entries;
        if is_free {
            self.kept = Known::Free;
        }
        is_free
    }

    // Publishes the next version, and polls the root before it; whether that is free then.
    fn turn(&mut self) -> bool
        requires free { self.old.kept ≡ known.Free }
        ensures free { result ≡ true → self.new.kept ≡ known.Free }
        ensures store { self.new.author.store ≡ self.old.author.store }
    {
        let Some(version) = self.version.checked_add(1) else {
            return false;
        };
        let entries = self.publish_free(version);
        self.poll_once(self.other, entries)
    }

    // At most so many turns, from a free root on.
    fn turn_free(&mut self, count: u32) -> u32
        requires free { self.old.kept ≡ known.Free }
        ensures store { self.new.author.store ≡ self.old.author.store }
    {
        for done in 0..count {
            if !self.turn() {
                return done;
            }
        }
        count
    }

    /// Publishes so many versions, each with its lay and a poll of the root before it. Stops where that is found held, and answers
    /// how many roots were found free.
    pub fn turn_many(&mut self, count: u32) -> u32
        ensures store { self.new.author.store ≡ self.old.author.store }
    {
        match self.kept {
            Known::Free => self.turn_free(count),
            Known::Old(_) => 0,
        }
    }

    // At most so many polls of a root that has these entries. The author is the loop's own, as the plain words' slice is: through a
    // `&mut` the compiler would load it anew for each poll.
    fn poll_old(self, what: (u32, u32)) -> (Turner<'s>, u32)
        requires old { self.kept ≡ known.Old what.0 }
        ensures store { result.0.author.store ≡ self.entry.author.store }
    {
        let mut turner = self;
        let (entries, count) = what;
        let root = turner.other;
        for done in 0..count {
            if turner.poll_once(root, entries) {
                return (turner, done);
            }
        }
        (turner, count)
    }

    /// Polls the other root so many times, or until it is free. The answer is how often it was found held.
    pub fn poll_many(&mut self, count: u32) -> u32
        ensures store { self.new.author.store ≡ self.old.author.store }
    {
        match self.kept {
            Known::Free => 0,
            Known::Old(entries) => replace_with(self, (entries, count), Turner::poll_old),
        }
    }
}
