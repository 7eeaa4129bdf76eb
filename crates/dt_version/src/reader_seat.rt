ghost use Rattle.std.specs.Prelude.{◌≡◌, ◌+◌, ◌<◌, [], true, OnOk, IfErr};
ghost use Rattle.dt_version.specs.Views.{IsReaderOf, IsInBounds, seat_of, seat_shown, root_or, is_reading};

use crate::note::Note;
use crate::plays::{
    Enter, Leave, Look, NoteBack, NoteOut, ReadPage, ReadTop, ReadVersion, ReaderHears,
};
use crate::store::Store;
use crate::view::View;
use crate::worn::Worn;
use atomic_table::Seat;
use dt_gate::{Meaning, laws_of_runs};
use dt_graph::Steps;
use std::sync::ledger::Ledger;

/// A seat by which one thread reads. It is seen as its store and its seat of the gate: the stage, the history that it has
/// seen, the versions that it entered, and its worn looks.
#[derive(Drop)]
pub struct ReaderSeat<'s, M: Meaning> {
    pub(crate) store: &'s Store<M>,
    pub(crate) place: Seat<u8, View<M>>,
    // The root that it is inside.
    pub(crate) root: u64,
    ghost at: { place.table_id ≡ store.now.table.shared.table_id },
    ghost no_slot: { place.me.1 ≡ [] },
    ghost reader: { IsReaderOf store.now.table.shared.key place.me.0 },
    ghost inside: { root_or root (seat_shown place.me.0).stage ≡ root },
    ghost in_bounds: { IsInBounds store.now.table.shared.key.readers store.now.table.shared.key.pages (seat_shown place.me.0).stage },
    ghost reads: { is_reading (seat_shown place.me.0).stage ≡ true },
}

impl<'s, M: Meaning> ReaderSeat<'s, M> {
    ghost use Rattle.dt_pages.specs.Reading.{page_words};
    ghost use Rattle.dt_gate.specs.declared.event.ReadWord.TheVariants as read;
    ghost use Rattle.dt_gate.specs.declared.gate.Stage.TheVariants.{Out, Near};
    ghost use Rattle.dt_gate.specs.declared.gate.Stage.TheVariants as stage;
    ghost use mathlib.Core.List.{IsPrefix};
    ghost use Rattle.dt_gate.specs.Seats.{IsInside, IsFrozenWord, given, after_hearing};
    ghost use Rattle.dt_gate.specs.Words.{frozen_at};
    ghost use Rattle.dt_version.specs.Calls.{IsWornLook, HasEntered};

    /// Looks whether there is room to enter: one load of the version word. The reader is near after it.
    ///
    /// `Worn` comes where the current version was entered as often as the limit says; the reader is then out as before, has
    /// seen the history of this look, and keeps the version and the number found.
    pub fn look<L: Ledger>(&mut self, steps: &mut Steps<L>) -> Result<(), Worn>
        requires { (seat_of self.old.place).stage ≡ Out }
        ensures near { OnOk result (seat_of self.new.place ≡ record (seat_of self.old.place) { stage = Near }) }
        ensures worn { IfErr result (λ worn. IsWornLook self.old.store.now.limits.entries (seat_of self.old.place) (seat_of self.new.place) worn.entries) }
        ensures store { self.new.store ≡ self.old.store }
        ensures counted { steps.new ≡ steps.old + 1 }
    {
        laws_of_runs::<M>();
        steps.tick();
        let found = self.store.table.shared.load::<Look<M>>(&mut self.place, 0);
        let entries = (found % (1 << 32)) as u32;
        if entries < self.store.limits().entries {
            Ok(())
        } else {
            Err(Worn { entries })
        }
    }

    /// Enters the current version: one addition to the version word. The reader is inside its root, whose words show the
    /// history that the reader has then seen, and stay as they are until it leaves.
    pub fn enter<L: Ledger>(&mut self, steps: &mut Steps<L>)
        requires { (seat_of self.old.place).stage ≡ Near }
        ensures entered { HasEntered M.shows (seat_of self.old.place) (seat_of self.new.place) }
        ensures store { self.new.store ≡ self.old.store }
        ensures counted { steps.new ≡ steps.old + 1 }
    {
        laws_of_runs::<M>();
        steps.tick();
        let found = self
            .store
            .table
            .shared
            .fetch_add::<Enter<M>>(&mut self.place, 0, 1);
        self.root = found / (1 << 32);
    }

    /// Reads the version of the root that the reader is inside: one load.
    pub fn version<L: Ledger>(&mut self, steps: &mut Steps<L>) -> u64
        requires { IsInside (seat_of self.old.place).stage }
        ensures version { result ≡ frozen_at read.Version (seat_of self.old.place).stage }
        ensures same { seat_of self.new.place ≡ seat_of self.old.place }
        ensures store { self.new.store ≡ self.old.store }
        ensures counted { steps.new ≡ steps.old + 1 }
    {
        laws_of_runs::<M>();
        steps.tick();
        let word = 2 + 3 * self.root as usize;
        self.store
            .table
            .shared
            .load::<ReadVersion<M>>(&mut self.place, word)
    }

    /// Reads the top page of the root that the reader is inside: one load.
    pub fn top<L: Ledger>(&mut self, steps: &mut Steps<L>) -> u32
        requires { IsInside (seat_of self.old.place).stage }
        ensures top { result ≡ frozen_at read.Top (seat_of self.old.place).stage }
        ensures same { seat_of self.new.place ≡ seat_of self.old.place }
        ensures store { self.new.store ≡ self.old.store }
        ensures counted { steps.new ≡ steps.old + 1 }
    {
        laws_of_runs::<M>();
        steps.tick();
        let word = 3 + 3 * self.root as usize;
        self.store
            .table
            .shared
            .load::<ReadTop<M>>(&mut self.place, word) as u32
    }

    /// Reads the word at a place of a page that the top page of the reader's root reaches: one load.
    pub fn page_word<L: Ledger>(&mut self, page: u32, at: u16, steps: &mut Steps<L>) -> u64
        requires { IsFrozenWord (read.Page page at) (seat_of self.old.place).stage }
        ensures word { result ≡ frozen_at (read.Page page at) (seat_of self.old.place).stage }
        ensures same { seat_of self.new.place ≡ seat_of self.old.place }
        ensures store { self.new.store ≡ self.old.store }
        ensures counted { steps.new ≡ steps.old + 1 }
    {
        laws_of_runs::<M>();
        steps.tick();
        let word = self.store.page_word(page, at);
        self.store
            .table
            .shared
            .load::<ReadPage<M>>(&mut self.place, word)
    }

    /// Leaves the root that the reader is inside: one addition to the exits of that root.
    pub fn leave<L: Ledger>(&mut self, steps: &mut Steps<L>)
        requires { IsInside (seat_of self.old.place).stage }
        ensures out { seat_of self.new.place ≡ record (seat_of self.old.place) { stage = Out } }
        ensures store { self.new.store ≡ self.old.store }
        ensures counted { steps.new ≡ steps.old + 1 }
    {
        laws_of_runs::<M>();
        steps.tick();
        let word = 1 + 3 * self.root as usize;
        self.store
            .table
            .shared
            .fetch_add::<Leave<M>>(&mut self.place, word, 1);
    }

    /// Gives out a note with the history that the reader has seen: one load of the version word.
    pub fn note(&mut self) -> Note<'s, M>
        ensures same { seat_of self.new.place ≡ seat_of self.old.place }
        ensures given { seat_of result.place ≡ given stage.Note (seat_of self.old.place).history }
        ensures of { result.store ≡ self.old.store }
        ensures store { self.new.store ≡ self.old.store }
    {
        laws_of_runs::<M>();
        let place = self
            .store
            .table
            .shared
            .split_seat::<NoteOut>(&mut self.place);
        Note {
            store: self.store,
            place,
        }
    }

    /// Takes a note: two loads of the version word. The reader has the longer of both histories, of which both are
    /// prefixes; it stays where it is.
    pub fn hear(&mut self, note: Note<'s, M>)
        requires { note.place.table_id ≡ self.old.place.table_id }
        ensures heard { seat_of self.new.place ≡ after_hearing (seat_of self.old.place) (seat_of note.entry.place).history }
        ensures mine { IsPrefix (seat_of self.old.place).history (seat_of self.new.place).history }
        ensures its { IsPrefix (seat_of note.entry.place).history (seat_of self.new.place).history }
        ensures store { self.new.store ≡ self.old.store }
    {
        laws_of_runs::<M>();
        let Note { store: _, place } = note;
        self.store
            .table
            .shared
            .join_seat::<NoteBack>(&mut self.place, place);
        self.store
            .table
            .shared
            .load::<ReaderHears<M>>(&mut self.place, 0);
    }
}
