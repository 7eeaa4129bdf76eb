ghost use Rattle.std.specs.Prelude.{◌≡◌, ◌<◌};
ghost use Rattle.dt_gate.specs.declared.gate.Stage.TheVariants.{Out};
ghost use Rattle.dt_version.specs.Views.{seat_of};

use crate::anything::Anything;
use crate::turner::Turner;
use dt_graph::Steps;
use dt_version::ReaderSeat;
use std::marker::Brand;
use std::sync::ledger::{Blank, Ledger};

// A turn and so many polls, while this reader is inside, in this ledger.
fn hold_all<L: Ledger>(
    blank: Blank,
    turner: &mut Turner<'_>,
    seat: &mut ReaderSeat<'_, Anything>,
    count: u32,
) -> u32
    requires name { blank.name ≡ L.name }
    requires parts { blank.parts ≡ L.parts }
    requires some_part { 0 < blank.parts }
    requires out { (seat_of seat.old.place).stage ≡ Out }
    ensures out { (seat_of seat.new.place).stage ≡ Out }
    ensures store { turner.new.author.store ≡ turner.old.author.store }
{
    let mut steps = Steps::<L>::start(blank);
    if seat.look(&mut steps).is_err() {
        return 0;
    }
    seat.enter(&mut steps);
    turner.turn_many(1);
    let held = turner.poll_many(count);
    seat.leave(&mut steps);
    turner.poll_many(1);
    held
}

/// Enters; then the next version is published, and the root before it polled so many times, which the reader holds; then it leaves, and
/// the root is polled once more. Answers how often the root was found held while the reader was inside.
pub fn hold_many(turner: &mut Turner<'_>, seat: &mut ReaderSeat<'_, Anything>, count: u32) -> u32
    requires { (seat_of seat.old.place).stage ≡ Out }
    ensures out { (seat_of seat.new.place).stage ≡ Out }
    ensures store { turner.new.author.store ≡ turner.old.author.store }
{
    hold_all::<Brand>(Blank::new(1), turner, seat, count)
}
