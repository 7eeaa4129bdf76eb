ghost use Rattle.std.specs.Prelude.{◌≡◌, ◌<◌};
ghost use Rattle.dt_gate.specs.declared.gate.Stage.TheVariants.{Out};
ghost use Rattle.dt_version.specs.Views.{seat_of};

use crate::anything::Anything;
use dt_graph::Steps;
use dt_version::ReaderSeat;
use std::marker::Brand;
use std::sync::ledger::{Blank, Ledger};

// Looks, enters and leaves; answers how often it entered, 0 or 1.
fn visit<L: Ledger>(seat: &mut ReaderSeat<'_, Anything>, steps: &mut Steps<L>) -> u32
    requires { (seat_of seat.old.place).stage ≡ Out }
    ensures out { (seat_of seat.new.place).stage ≡ Out }
    ensures store { seat.new.store ≡ seat.old.store }
{
    if seat.look(steps).is_err() {
        return 0;
    }
    seat.enter(steps);
    seat.leave(steps);
    1
}

// So many visits, in this ledger.
fn visit_all<L: Ledger>(blank: Blank, seat: &mut ReaderSeat<'_, Anything>, count: u32) -> u32
    requires name { blank.name ≡ L.name }
    requires parts { blank.parts ≡ L.parts }
    requires some_part { 0 < blank.parts }
    requires out { (seat_of seat.old.place).stage ≡ Out }
    ensures out { (seat_of seat.new.place).stage ≡ Out }
    ensures store { seat.new.store ≡ seat.old.store }
{
    let mut steps = Steps::<L>::start(blank);
    let mut entered: u32 = 0;
    for _ in 0..count {
        entered = entered.wrapping_add(visit(seat, &mut steps));
    }
    entered
}

/// Looks, enters and leaves so many times, and answers how often it entered.
pub fn visit_many(seat: &mut ReaderSeat<'_, Anything>, count: u32) -> u32
    requires { (seat_of seat.old.place).stage ≡ Out }
    ensures out { (seat_of seat.new.place).stage ≡ Out }
    ensures store { seat.new.store ≡ seat.old.store }
{
    visit_all::<Brand>(Blank::new(1), seat, count)
}
