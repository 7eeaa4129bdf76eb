// What each step tells: it is the event of its name.
use crate::view::View;
use atomic_table::{Join, Play, Split};
use dt_gate::Meaning;
use std::marker::{Brand, PhantomData};

pub(crate) struct Look<M> {
    meaning: PhantomData<M>,
}

impl<M: Meaning> Play<u8, View<M>> for Look<M> {
    ghost use Rattle.dt_version.specs.Told.{Looked};

    ghost then = { Looked M.shows };
}

pub(crate) struct Enter<M> {
    meaning: PhantomData<M>,
}

impl<M: Meaning> Play<u8, View<M>> for Enter<M> {
    ghost use Rattle.dt_version.specs.Told.{Entered};

    ghost then = { Entered M.shows };
}

pub(crate) struct ReadVersion<M> {
    meaning: PhantomData<M>,
}

impl<M: Meaning> Play<u8, View<M>> for ReadVersion<M> {
    ghost use Rattle.dt_gate.specs.declared.event.ReadWord.TheVariants.{Version};
    ghost use Rattle.dt_version.specs.Told.{WordRead};

    ghost then = { WordRead Version M.shows };
}

pub(crate) struct ReadTop<M> {
    meaning: PhantomData<M>,
}

impl<M: Meaning> Play<u8, View<M>> for ReadTop<M> {
    ghost use Rattle.dt_gate.specs.declared.event.ReadWord.TheVariants.{Top};
    ghost use Rattle.dt_version.specs.Told.{WordRead};

    ghost then = { WordRead Top M.shows };
}

pub(crate) struct ReadPage<M> {
    meaning: PhantomData<M>,
}

impl<M: Meaning> Play<u8, View<M>> for ReadPage<M> {
    ghost use Rattle.dt_version.specs.Told.{PageRead};

    ghost then = { PageRead M.shows };
}

pub(crate) struct Leave<M> {
    meaning: PhantomData<M>,
}

impl<M: Meaning> Play<u8, View<M>> for Leave<M> {
    ghost use Rattle.dt_version.specs.Told.{LeftRoot};

    ghost then = { LeftRoot M.shows };
}

pub(crate) struct Fill<M> {
    meaning: PhantomData<M>,
}

impl<M: Meaning> Play<u8, View<M>> for Fill<M> {
    ghost use Rattle.dt_version.specs.Told.{Filled};

    ghost then = { Filled M.shows };
}

pub(crate) struct LayExits<M> {
    meaning: PhantomData<M>,
}

impl<M: Meaning> Play<u8, View<M>> for LayExits<M> {
    ghost use Rattle.dt_gate.specs.declared.event.RecordWord.TheVariants.{Exits};
    ghost use Rattle.dt_version.specs.Told.{LaidWord};

    ghost then = { LaidWord Exits M.shows };
}

pub(crate) struct LayVersion<M> {
    meaning: PhantomData<M>,
}

impl<M: Meaning> Play<u8, View<M>> for LayVersion<M> {
    ghost use Rattle.dt_gate.specs.declared.event.RecordWord.TheVariants.{Version};
    ghost use Rattle.dt_version.specs.Told.{LaidWord};

    ghost then = { LaidWord Version M.shows };
}

pub(crate) struct LayTop<M> {
    meaning: PhantomData<M>,
}

impl<M: Meaning> Play<u8, View<M>> for LayTop<M> {
    ghost use Rattle.dt_gate.specs.declared.event.RecordWord.TheVariants.{Top};
    ghost use Rattle.dt_version.specs.Told.{LaidWord};

    ghost then = { LaidWord Top M.shows };
}

// What is published, for the proof alone: a call at `Brand` picks it.
pub(crate) trait Said<X> {
    ghost use Rattle.std.specs.Prelude.{Option};

    ghost item: { Option X };
}

impl<X> Said<X> for Brand {
    ghost use Rattle.std.specs.Prelude.{None};

    ghost item = { None };
}

pub(crate) struct Publish<M, E> {
    meaning: PhantomData<(M, E)>,
}

impl<M: Meaning, E: Said<M::Item>> Play<u8, View<M>> for Publish<M, E> {
    ghost use Rattle.dt_version.specs.Told.{PublishedSaid};

    ghost then = { PublishedSaid E.item M.shows };
}

pub(crate) struct Poll<M> {
    meaning: PhantomData<M>,
}

impl<M: Meaning> Play<u8, View<M>> for Poll<M> {
    ghost use Rattle.dt_version.specs.Told.{Polled};

    ghost then = { Polled M.shows };
}

pub(crate) struct AuthorHears<M> {
    meaning: PhantomData<M>,
}

impl<M: Meaning> Play<u8, View<M>> for AuthorHears<M> {
    ghost use Rattle.dt_version.specs.Told.{AuthorHeard};

    ghost then = { AuthorHeard M.shows };
}

pub(crate) struct ReaderHears<M> {
    meaning: PhantomData<M>,
}

impl<M: Meaning> Play<u8, View<M>> for ReaderHears<M> {
    ghost use Rattle.dt_version.specs.Told.{ReaderHeard};

    ghost then = { ReaderHeard M.shows };
}

// How views are cut in two: a reader seat or a note is given out.
pub(crate) struct SeatOut;

impl<M: Meaning> Split<View<M>> for SeatOut {
    ghost use Rattle.dt_gate.specs.declared.gate.Stage.TheVariants.{Out};
    ghost use Rattle.dt_version.specs.Views.{after_out, given_by};

    ghost left = { after_out };

    ghost right = { given_by Out };
}

pub(crate) struct NoteOut;

impl<M: Meaning> Split<View<M>> for NoteOut {
    ghost use Rattle.dt_gate.specs.declared.gate.Stage.TheVariants.{Note};
    ghost use Rattle.dt_version.specs.Views.{given_by};

    ghost left = { λ view. view };

    ghost right = { given_by Note };
}

// How views are joined: one of them is given back.
pub(crate) struct SeatBack;

impl<M: Meaning> Join<View<M>> for SeatBack {
    ghost use Rattle.dt_version.specs.declared.view.View.TheVariants.{Gone};
    ghost use Rattle.dt_version.specs.Views.{with_seat_back};

    ghost both = { with_seat_back };

    ghost spent = { Gone };
}

pub(crate) struct NoteBack;

impl<M: Meaning> Join<View<M>> for NoteBack {
    ghost use Rattle.dt_version.specs.declared.view.View.TheVariants.{Gone};
    ghost use Rattle.dt_version.specs.Views.{with_note_back};

    ghost both = { with_note_back };

    ghost spent = { Gone };
}
