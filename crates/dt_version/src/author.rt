ghost use Rattle.std.specs.Prelude.{◌≡◌, ◌+◌, ◌<◌, ◌≤◌, [], length, Some};
ghost use Rattle.dt_version.specs.Views.{IsAuthorOf, author_of, author_shown, IsFirstSeat};

use crate::note::Note;
use crate::plays::{
    AuthorHears, Fill, LayExits, LayTop, LayVersion, NoteBack, NoteOut, Poll, Publish, Said,
    SeatBack, SeatOut,
};
use crate::reader_seat::ReaderSeat;
use crate::store::Store;
use crate::view::View;
use atomic_table::Seat;
use dt_gate::{Meaning, laws_of_runs};
use std::marker::Brand;

/// The one seat that a store is made with. [`Author::new`] makes of it the author.
#[derive(Drop)]
pub struct AuthorSeat<M: Meaning> {
    pub(crate) place: Seat<u8, View<M>>,
}

/// The one who publishes. It is seen as its store and its record of the gate.
#[derive(Drop)]
pub struct Author<'s, M: Meaning> {
    pub(crate) store: &'s Store<M>,
    pub(crate) place: Seat<u8, View<M>>,
    ghost at: { place.table_id ≡ store.now.table.shared.table_id },
    ghost no_slot: { place.me.1 ≡ [] },
    ghost author: { IsAuthorOf store.now.table.shared.key place.me.0 },
    ghost sized: { length (author_shown place.me.0).roots ≡ store.now.table.shared.key.readers + 2 },
}

/// What was current until a publish.
#[derive(Clone, Copy, Debug, PartialEq, Eq)]
pub struct Swapped {
    /// The root.
    pub root: u16,
    /// How often it was entered in all.
    pub entries: u32,
}

impl<'s, M: Meaning> Author<'s, M> {
    ghost use Rattle.dt_pages.specs.Reading.{page_words};
    ghost use Rattle.dt_gate.specs.Gate.{fresh_author, IsOld, root_at};
    ghost use Rattle.dt_gate.specs.declared.event.RecordWord.TheVariants as laid;
    ghost use Rattle.dt_gate.specs.Author.{MayFill, MayLay, MayPublish, after_fill, after_lay, after_publish, after_poll};
    ghost use mathlib.Core.List.{IsPrefix};
    ghost use Rattle.dt_gate.specs.declared.gate.Stage.TheVariants.{Out};
    ghost use Rattle.dt_gate.specs.declared.gate.Stage.TheVariants as stage;
    ghost use Rattle.dt_gate.specs.Author.{after_seat_out, after_seat_back, after_hear};
    ghost use Rattle.dt_gate.specs.Seats.{given};
    ghost use Rattle.dt_gate.specs.Sound.{WornWasTaken};
    ghost use Rattle.dt_gate.specs.Sweeps.{AllOldAreHeld, LeavesRoom};
    ghost use Rattle.dt_version.specs.Limits.{bounds};
    ghost use Rattle.dt_version.specs.Views.{seat_of};
    ghost use Rattle.dt_version.specs.AuthorCalls.{laid_whole, IsPoll};

    /// The author of a fresh store, by the seat that was made with it.
    pub fn new(store: &'s Store<M>, seat: AuthorSeat<M>) -> Author<'s, M>
        requires { IsFirstSeat store.now.table.shared.table_id store.now.table.shared.key seat.place }
        ensures fresh { author_of result.place ≡ fresh_author (bounds store.now.table.shared.key) }
        ensures store { result.store ≡ store.entry }
    {
        let AuthorSeat { place } = seat;
        Author { store, place }
    }

    /// Stores a word of a page that no live root reaches: one store.
    pub fn fill(&mut self, page: u32, at: u16, word: u64)
        requires { MayFill (bounds self.old.store.now.table.shared.key) (author_of self.old.place) page at }
        ensures filled { author_of self.new.place ≡ after_fill (author_of self.old.place) page at word }
        ensures store { self.new.store ≡ self.old.store }
    {
        laws_of_runs::<M>();
        let index = self.store.page_word(page, at);
        self.store
            .table
            .shared
            .store::<Fill<M>>(&mut self.place, index, word);
    }

    fn lay_exits(&mut self, root: u16)
        requires { MayLay (bounds self.old.store.now.table.shared.key) (author_of self.old.place) root }
        ensures laid { author_of self.new.place ≡ after_lay (author_of self.old.place) root laid.Exits 0 }
        ensures store { self.new.store ≡ self.old.store }
    {
        laws_of_runs::<M>();
        let word = 1 + 3 * root as usize;
        self.store
            .table
            .shared
            .store::<LayExits<M>>(&mut self.place, word, 0);
    }

    fn lay_version(&mut self, root: u16, version: u64)
        requires { MayLay (bounds self.old.store.now.table.shared.key) (author_of self.old.place) root }
        ensures laid { author_of self.new.place ≡ after_lay (author_of self.old.place) root laid.Version version }
        ensures store { self.new.store ≡ self.old.store }
    {
        laws_of_runs::<M>();
        let word = 2 + 3 * root as usize;
        self.store
            .table
            .shared
            .store::<LayVersion<M>>(&mut self.place, word, version);
    }

    fn lay_top(&mut self, root: u16, top: u32)
        requires { MayLay (bounds self.old.store.now.table.shared.key) (author_of self.old.place) root }
        ensures laid { author_of self.new.place ≡ after_lay (author_of self.old.place) root laid.Top top }
        ensures store { self.new.store ≡ self.old.store }
    {
        laws_of_runs::<M>();
        let word = 3 + 3 * root as usize;
        self.store
            .table
            .shared
            .store::<LayTop<M>>(&mut self.place, word, top as u64);
    }

    /// Lays the record words of a free root: three stores, of no exit, the version and the top page.
    pub fn lay(&mut self, root: u16, version: u64, top: u32)
        requires { MayLay (bounds self.old.store.now.table.shared.key) (author_of self.old.place) root }
        ensures laid { author_of self.new.place ≡ laid_whole (author_of self.old.place) root version top }
        ensures store { self.new.store ≡ self.old.store }
    {
        self.lay_exits(root);
        self.lay_version(root, version);
        self.lay_top(root, top);
    }

    // A publish of the entry that was said.
    fn publish_said<E: Said<M::Item>>(&mut self, root: u16, entry: &M::Item) -> Swapped
        requires may { MayPublish M.shows (bounds self.old.store.now.table.shared.key) (author_of self.old.place) root entry.now }
        requires said { E.item ≡ Some entry.now }
        ensures published { author_of self.new.place ≡ after_publish (author_of self.old.place) root entry.now result.entries }
        ensures root { result.root ≡ (author_of self.old.place).current }
        ensures entries { result.entries ≤ self.old.store.now.limits.entries + self.old.store.now.limits.readers }
        ensures store { self.new.store ≡ self.old.store }
    {
        laws_of_runs::<M>();
        let word = root as u64 * (1 << 32);
        let found = self
            .store
            .table
            .shared
            .swap::<Publish<M, E>>(&mut self.place, 0, word);
        Swapped {
            root: (found / (1 << 32)) as u16,
            entries: (found % (1 << 32)) as u32,
        }
    }

    /// Publishes the version that is laid in a root: one swap of the version word. The history has the entry last, and the
    /// answer is the root that was current, with all the entries that were made into it.
    pub fn publish(&mut self, root: u16, entry: &M::Item) -> Swapped
        requires { MayPublish M.shows (bounds self.old.store.now.table.shared.key) (author_of self.old.place) root entry.now }
        ensures published { author_of self.new.place ≡ after_publish (author_of self.old.place) root entry.now result.entries }
        ensures root { result.root ≡ (author_of self.old.place).current }
        ensures entries { result.entries ≤ self.old.store.now.limits.entries + self.old.store.now.limits.readers }
        ensures store { self.new.store ≡ self.old.store }
    {
        self.publish_said::<Brand>(root, entry)
    }

    /// Reads the exits of an old root: one load. The root is free where they are its final entries, and else it is found held.
    /// Where every old root is then found held, as after a sweep, some root is free.
    pub fn poll(&mut self, root: u16) -> u32
        requires { IsOld (root_at (author_of self.old.place) root).standing }
        ensures polled { author_of self.new.place ≡ after_poll (author_of self.old.place) root result }
        ensures room { AllOldAreHeld (author_of self.new.place) → LeavesRoom (bounds self.old.store.now.table.shared.key) (author_of self.new.place) }
        ensures bounds { IsPoll self.old.store.now.limits.readers root (author_of self.old.place) (author_of self.new.place) result }
        ensures store { self.new.store ≡ self.old.store }
    {
        laws_of_runs::<M>();
        let word = 1 + 3 * root as usize;
        self.store
            .table
            .shared
            .load::<Poll<M>>(&mut self.place, word) as u32
    }

    /// Gives out a reader seat: one load of the version word. Fewer than the readers of the limits may be out.
    pub fn seat_out(&mut self) -> ReaderSeat<'s, M>
        requires { (author_of self.old.place).out < self.old.store.now.limits.readers }
        ensures out { author_of self.new.place ≡ after_seat_out (author_of self.old.place) }
        ensures given { seat_of result.place ≡ given Out (author_of self.old.place).history }
        ensures of { result.store ≡ self.old.store }
        ensures store { self.new.store ≡ self.old.store }
    {
        laws_of_runs::<M>();
        let place = self
            .store
            .table
            .shared
            .split_seat::<SeatOut>(&mut self.place);
        ReaderSeat {
            store: self.store,
            place,
            root: 0,
        }
    }

    /// Takes a reader seat back: two loads of the version word. What it entered and its worn looks go to the author's
    /// lists, and its history is a prefix of the author's, which stays as it was. Where then no reader is out, the number
    /// of each worn look is at most how often its version was entered.
    pub fn seat_back(&mut self, seat: ReaderSeat<'s, M>)
        requires out { (seat_of seat.place).stage ≡ Out }
        requires of { seat.place.table_id ≡ self.old.place.table_id }
        ensures back { author_of self.new.place ≡ after_seat_back (author_of self.old.place) (seat_of seat.entry.place) }
        ensures history { (author_of self.new.place).history ≡ (author_of self.old.place).history }
        ensures mine { IsPrefix (author_of self.old.place).history (author_of self.new.place).history }
        ensures heard { IsPrefix (seat_of seat.entry.place).history (author_of self.new.place).history }
        ensures worn { WornWasTaken (author_of self.new.place) }
        ensures store { self.new.store ≡ self.old.store }
    {
        laws_of_runs::<M>();
        let ReaderSeat {
            store: _,
            place,
            root: _,
        } = seat;
        self.store
            .table
            .shared
            .join_seat::<SeatBack>(&mut self.place, place);
        self.store
            .table
            .shared
            .load::<AuthorHears<M>>(&mut self.place, 0);
    }

    /// Gives out a note with the author's history: one load of the version word.
    pub fn note(&mut self) -> Note<'s, M>
        ensures same { author_of self.new.place ≡ author_of self.old.place }
        ensures given { seat_of result.place ≡ given stage.Note (author_of self.old.place).history }
        ensures of { result.store ≡ self.old.store }
        ensures store { self.new.store ≡ self.old.store }
    {
        laws_of_runs::<M>();
        let place = self
            .store
            .table
            .shared
            .split_seat::<NoteOut>(&mut self.place);
        Note {
            store: self.store,
            place,
        }
    }

    /// Takes a note: two loads of the version word. Its history is a prefix of the author's, which stays as it was.
    pub fn hear(&mut self, note: Note<'s, M>)
        requires { note.place.table_id ≡ self.old.place.table_id }
        ensures heard { author_of self.new.place ≡ after_hear (author_of self.old.place) (seat_of note.entry.place).history }
        ensures history { (author_of self.new.place).history ≡ (author_of self.old.place).history }
        ensures mine { IsPrefix (author_of self.old.place).history (author_of self.new.place).history }
        ensures its { IsPrefix (seat_of note.entry.place).history (author_of self.new.place).history }
        ensures store { self.new.store ≡ self.old.store }
    {
        laws_of_runs::<M>();
        let Note { store: _, place } = note;
        self.store
            .table
            .shared
            .join_seat::<NoteBack>(&mut self.place, place);
        self.store
            .table
            .shared
            .load::<AuthorHears<M>>(&mut self.place, 0);
    }
}
