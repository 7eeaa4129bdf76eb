ghost use Rattle.std.specs.Prelude.{◌≡◌, ◌<◌, IfSome};
ghost use Rattle.dt_gate.specs.declared.gate.Stage.TheVariants.{Out};
ghost use Rattle.dt_gate.specs.Seats.{IsInside};
ghost use Rattle.dt_version.specs.Views.{seat_of};

use crate::seen::Seen;
use dt_gate::Counting;
use dt_graph::Steps;
use dt_version::ReaderSeat;
use std::marker::Brand;
use std::sync::ledger::{Blank, Ledger};

// How often a reader enters.
const VISITS: u32 = 100_000;

// The number of a page, if it can be one.
fn page_of(word: u64) -> Option<u32>
    ensures { IfSome result (λ page. page ≡ word) }
{
    u32::try_from(word).ok()
}

// The word at address 0, through three pages; `None` where a word on the way down is the number of no page.
fn read_down<L: Ledger>(seat: &mut ReaderSeat<'_, Counting>, steps: &mut Steps<L>) -> Option<u64>
    requires { IsInside (seat_of seat.old.place).stage }
    ensures same { seat_of seat.new.place ≡ seat_of seat.old.place }
    ensures store { seat.new.store ≡ seat.old.store }
{
    let top = seat.top(steps);
    let middle = page_of(seat.page_word(top, 0, steps))?;
    let leaf = page_of(seat.page_word(middle, 0, steps))?;
    Some(seat.page_word(leaf, 0, steps))
}

// Enters, reads and leaves once.
fn visit<L: Ledger>(seat: &mut ReaderSeat<'_, Counting>, seen: &mut Seen, steps: &mut Steps<L>)
    requires { (seat_of seat.old.place).stage ≡ Out }
    ensures out { (seat_of seat.new.place).stage ≡ Out }
    ensures store { seat.new.store ≡ seat.old.store }
{
    if seat.look(steps).is_err() {
        seen.add_worn();
        return;
    }
    seat.enter(steps);
    let version = seat.version(steps);
    let word = read_down(seat, steps);
    seat.leave(steps);
    seen.add(version, word);
}

// All visits of a reader, in this ledger.
fn visit_all<L: Ledger>(blank: Blank, seat: &mut ReaderSeat<'_, Counting>) -> Seen
    requires name { blank.name ≡ L.name }
    requires parts { blank.parts ≡ L.parts }
    requires some_part { 0 < blank.parts }
    requires out { (seat_of seat.old.place).stage ≡ Out }
    ensures out { (seat_of seat.new.place).stage ≡ Out }
    ensures store { seat.new.store ≡ seat.old.store }
{
    let mut steps = Steps::<L>::start(blank);
    let mut seen = Seen::new();
    for _ in 0..VISITS {
        visit(seat, &mut seen, &mut steps);
    }
    seen
}

/// Enters, reads and leaves 100,000 times.
pub fn read_many(seat: &mut ReaderSeat<'_, Counting>) -> Seen
    requires { (seat_of seat.old.place).stage ≡ Out }
    ensures out { (seat_of seat.new.place).stage ≡ Out }
    ensures store { seat.new.store ≡ seat.old.store }
{
    visit_all::<Brand>(Blank::new(1), seat)
}
