ghost use Rattle.std.specs.Prelude.{◌≡◌, [], true};
ghost use Rattle.dt_version.specs.Views.{IsReaderOf, seat_shown, is_note};

use crate::store::Store;
use crate::view::View;
use atomic_table::Seat;
use dt_gate::Meaning;

/// A history that one thread hands to another: a seat that never enters. It is seen as its store and its seat of the gate.
#[derive(Drop)]
pub struct Note<'s, M: Meaning> {
    pub(crate) store: &'s Store<M>,
    pub(crate) place: Seat<u8, View<M>>,
    ghost at: { place.table_id ≡ store.now.table.shared.table_id },
    ghost no_slot: { place.me.1 ≡ [] },
    ghost reader: { IsReaderOf store.now.table.shared.key place.me.0 },
    ghost note: { is_note (seat_shown place.me.0).stage ≡ true },
}
