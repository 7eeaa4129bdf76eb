ghost use Rattle.std.specs.Prelude.{◌≡◌, ◌+◌, ◌<◌, IfSome, true, false};
ghost use Rattle.dt_gate.specs.declared.gate.Stage.TheVariants.{Out};
ghost use Rattle.dt_gate.specs.declared.gate.Standing.TheVariants as standing;
ghost use Rattle.dt_gate.specs.Gate.{root_at};
ghost use Rattle.dt_gate.specs.Examples.{counted};
ghost use Rattle.dt_gate.specs.Author.{MayPublish};
ghost use Rattle.dt_version.specs.Limits.{bounds};
ghost use Rattle.dt_version.specs.Views.{author_of, seat_of, IsFirstSeat};
ghost use Rattle.version_rounds.specs.Chains.{IsReady, IsFilled, known_at};
ghost use Rattle.version_rounds.specs.declared.known.Known.TheVariants as known;

use crate::known::Known;
use dt_gate::Counting;
use dt_version::{Author, AuthorSeat, ReaderSeat, Store, Swapped};

// How many versions are published beside the readers.
const ROUNDS: u32 = 2000;

// How often an old root is polled before the next one.
const POLLS: u32 = 10_000;

/// An author that publishes version after version, each on the chain of pages of a free root.
#[derive(Drop)]
pub struct Publisher<'s> {
    author: Author<'s, Counting>,
    known: [Known; 4],
    version: u64,
    out: u16,
    ghost ready: { IsReady author.store.now.table.shared.key known version out (author_of author.place) },
}

/// An author that publishes no more.
#[derive(Drop)]
pub struct Closing<'s> {
    author: Author<'s, Counting>,
    out: u16,
    ghost out_is: { (author_of author.place).out ≡ out },
}

/// What publishes answered.
#[derive(Clone, Copy, Debug, PartialEq, Eq)]
pub struct Answered {
    /// The entries of all publishes.
    pub entries: u64,
    /// How many publishes answered entries.
    pub busy: u32,
}

impl<'s> Publisher<'s> {
    /// The author of a fresh store of 16 pages for two readers.
    pub fn new(store: &'s Store<Counting>, seat: AuthorSeat<Counting>) -> Publisher<'s>
        requires first { IsFirstSeat store.now.table.shared.table_id store.now.table.shared.key seat.place }
        requires readers { store.now.limits.readers ≡ 2 }
        requires pages { store.now.limits.pages ≡ 16 }
        ensures store { result.author.store ≡ store.entry }
    {
        Publisher {
            author: Author::new(store, seat),
            known: [Known::Now, Known::Free, Known::Free, Known::Free],
            version: 0,
            out: 0,
        }
    }

    /// Gives out a reader seat, while fewer than two are out.
    pub fn give(&mut self) -> Option<ReaderSeat<'s, Counting>>
        ensures store { self.new.author.store ≡ self.old.author.store }
        ensures given { IfSome result (λ seat. ((seat_of seat.place).stage ≡ Out) × (seat.store ≡ self.old.author.store)) }
    {
        if self.out >= 2 {
            return None;
        }
        self.out += 1;
        Some(self.author.seat_out())
    }

    /// The author publishes no more, and takes the seats back.
    pub fn close(self) -> Closing<'s>
        ensures { result.author.store ≡ self.entry.author.store }
    {
        let Publisher { author, out, .. } = self;
        Closing { author, out }
    }

    // Polls an old root once: it is free where all that entered have left.
    fn poll_once(&mut self, root: u16, entries: u32) -> bool
        requires there { root < 4 }
        requires old { known_at self.old.known root ≡ known.Old entries }
        ensures free { result ≡ true → known_at self.new.known root ≡ known.Free }
        ensures held { result ≡ false → self.new.known ≡ self.old.known }
        ensures store { self.new.author.store ≡ self.old.author.store }
    {
        let exits = self.author.poll(root);
        let is_free = exits == entries;
        if is_free {
            self.known[root as usize] = Known::Free;
        }
        is_free
    }

    // Polls an old root until it is free, but not without end.
    fn poll_root(&mut self, root: u16, entries: u32) -> bool
        requires there { root < 4 }
        requires old { known_at self.old.known root ≡ known.Old entries }
        ensures free { result ≡ true → known_at self.new.known root ≡ known.Free }
        ensures store { self.new.author.store ≡ self.old.author.store }
    {
        for _ in 0..POLLS {
            if self.poll_once(root, entries) {
                return true;
            }
        }
        false
    }

    // Whether the root is free, or gets free as it is polled.
    fn frees(&mut self, root: u16) -> bool
        requires { root < 4 }
        ensures free { result ≡ true → known_at self.new.known root ≡ known.Free }
        ensures store { self.new.author.store ≡ self.old.author.store }
    {
        match self.known[root as usize] {
            Known::Free => true,
            Known::Now => false,
            Known::Old(entries) => self.poll_root(root, entries),
        }
    }

    // A free root.
    fn free_root(&mut self) -> Option<u16>
        ensures free { IfSome result (λ root. (root < 4) × (known_at self.new.known root ≡ known.Free)) }
        ensures store { self.new.author.store ≡ self.old.author.store }
    {
        for root in 0..4u16 {
            if self.frees(root) {
                return Some(root);
            }
        }
        None
    }

    // Fills the chain of a free root so that address 0 has the version.
    fn fill_chain(&mut self, root: u16, version: u64)
        requires there { root < 4 }
        requires free { known_at self.old.known root ≡ known.Free }
        ensures known { self.new.known ≡ self.old.known }
        ensures version { self.new.version ≡ self.old.version }
        ensures out { self.new.out ≡ self.old.out }
        ensures filled { IsFilled (author_of self.new.author.place) root version }
        ensures store { self.new.author.store ≡ self.old.author.store }
    {
        let top = 1 + 3 * root as u32;
        self.author.fill(top, 0, top as u64 + 1);
        self.author.fill(top + 1, 0, top as u64 + 2);
        self.author.fill(top + 2, 0, version);
    }

    // Lays a free root whose chain is filled, and publishes it. The answer is what the old root's entries are.
    fn publish_filled(&mut self, root: u16, version: u64) -> u32
        requires there { root < 4 }
        requires free { known_at self.old.known root ≡ known.Free }
        requires next { version ≡ self.old.version + 1 }
        requires filled { IsFilled (author_of self.old.author.place) root version }
        ensures store { self.new.author.store ≡ self.old.author.store }
    {
        self.author.lay(root, version, 1 + 3 * root as u32);
        let Swapped { root: old, entries } = self.author.publish(root, &version);
        self.known[old as usize] = Known::Old(entries);
        self.known[root as usize] = Known::Now;
        self.version = version;
        entries
    }

    /// Publishes the next version on a free root. The answer is how often the version before it was entered.
    pub fn publish_next(&mut self) -> Option<u32>
        ensures store { self.new.author.store ≡ self.old.author.store }
    {
        let root = self.free_root()?;
        let version = self.version.checked_add(1)?;
        self.fill_chain(root, version);
        Some(self.publish_filled(root, version))
    }

    /// Publishes at most 2,000 versions.
    pub fn publish_many(&mut self) -> Answered
        ensures store { self.new.author.store ≡ self.old.author.store }
    {
        let mut answered = Answered {
            entries: 0,
            busy: 0,
        };
        for _ in 0..ROUNDS {
            if let Some(entries) = self.publish_next() {
                answered.add(entries);
            }
        }
        answered
    }
}

impl<'s> Closing<'s> {
    /// Takes a reader seat back.
    pub fn take(&mut self, seat: ReaderSeat<'s, Counting>)
        requires out { (seat_of seat.place).stage ≡ Out }
        requires of { seat.store ≡ self.old.author.store }
        ensures store { self.new.author.store ≡ self.old.author.store }
    {
        self.author.seat_back(seat);
        self.out = self.out.saturating_sub(1);
    }

    /// How many readers are out.
    pub fn out(&self) -> u16
        ensures { result ≡ (author_of self.now.author.place).out }
    {
        self.out
    }
}

impl Answered {
    /// One more publish answered so many entries.
    pub fn add(&mut self, entries: u32) {
        self.entries = self.entries.saturating_add(u64::from(entries));
        if entries > 0 {
            self.busy = self.busy.saturating_add(1);
        }
    }
}
