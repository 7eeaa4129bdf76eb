ghost use Rattle.std.specs.Prelude.{◌≡◌, ◌<◌, IfSome};
ghost use Rattle.dt_gate.specs.declared.event.ReadWord.TheVariants as read;
ghost use Rattle.dt_gate.specs.declared.gate.Stage.TheVariants.{Out};
ghost use Rattle.dt_gate.specs.Seats.{IsInside};
ghost use Rattle.dt_gate.specs.Words.{frozen_at};
ghost use Rattle.dt_version.specs.Views.{seat_of};

use crate::addresses::Addresses;
use crate::anything::Anything;
use crate::layout::place;
use core::mem::replace_with;
use dt_graph::Steps;
use dt_version::ReaderSeat;
use std::marker::Brand;
use std::sync::ledger::{Blank, Ledger};

// The number of a page, if it can be one.
fn page_of(word: u64) -> Option<u32>
    ensures { IfSome result (λ page. page ≡ word) }
{
    if word < 65_536 {
        Some(word as u32)
    } else {
        None
    }
}

// The word at an address, through three pages; `None` where a word on the way down is the number of no page.
fn read_word<L: Ledger>(
    seat: &mut ReaderSeat<'_, Anything>,
    top: u32,
    address: u64,
    steps: &mut Steps<L>,
) -> Option<u64>
    requires inside { IsInside (seat_of seat.old.place).stage }
    requires top { top ≡ frozen_at read.Top (seat_of seat.old.place).stage }
    ensures same { seat_of seat.new.place ≡ seat_of seat.old.place }
    ensures store { seat.new.store ≡ seat.old.store }
{
    let middle = page_of(seat.page_word(top, place(address >> 18), steps))?;
    let leaf = page_of(seat.page_word(middle, place(address >> 9), steps))?;
    Some(seat.page_word(leaf, place(address), steps))
}

// The sum of so many words, inside.
fn read_inside<L: Ledger>(
    seat: &mut ReaderSeat<'_, Anything>,
    addresses: &mut Addresses,
    count: u32,
    steps: &mut Steps<L>,
) -> u64
    requires { IsInside (seat_of seat.old.place).stage }
    ensures same { seat_of seat.new.place ≡ seat_of seat.old.place }
    ensures store { seat.new.store ≡ seat.old.store }
{
    let top = seat.top(steps);
    let mut sum: u64 = 0;
    for _ in 0..count {
        let address = addresses.draw();
        let word = read_word(seat, top, address, steps);
        sum = sum.wrapping_add(word.unwrap_or(0));
    }
    sum
}

// The sum of so many words of one visit, in this ledger. The seat is the visit's own, as the plain words' slice is: through a `&mut`
// the compiler would load it anew for each word.
fn read_all<'s, L: Ledger>(
    blank: Blank,
    seat: ReaderSeat<'s, Anything>,
    addresses: &mut Addresses,
    count: u32,
) -> (ReaderSeat<'s, Anything>, u64)
    requires name { blank.name ≡ L.name }
    requires parts { blank.parts ≡ L.parts }
    requires some_part { 0 < blank.parts }
    requires out { (seat_of seat.place).stage ≡ Out }
    ensures out { (seat_of result.0.place).stage ≡ Out }
    ensures store { result.0.store ≡ seat.entry.store }
{
    let mut seat = seat;
    let mut steps = Steps::<L>::start(blank);
    if seat.look(&mut steps).is_err() {
        return (seat, 0);
    }
    seat.enter(&mut steps);
    let sum = read_inside(&mut seat, addresses, count, &mut steps);
    seat.leave(&mut steps);
    (seat, sum)
}

// The same, in a ledger of its own.
fn read_visit<'s>(
    seat: ReaderSeat<'s, Anything>,
    what: (&mut Addresses, u32),
) -> (ReaderSeat<'s, Anything>, u64)
    requires { (seat_of seat.place).stage ≡ Out }
    ensures out { (seat_of result.0.place).stage ≡ Out }
    ensures store { result.0.store ≡ seat.entry.store }
{
    let (addresses, count) = what;
    read_all::<Brand>(Blank::new(1), seat, addresses, count)
}

/// Enters, reads the words at so many addresses through three pages each, and leaves. Answers the sum of the words.
pub fn read_many(seat: &mut ReaderSeat<'_, Anything>, addresses: &mut Addresses, count: u32) -> u64
    requires { (seat_of seat.old.place).stage ≡ Out }
    ensures out { (seat_of seat.new.place).stage ≡ Out }
    ensures store { seat.new.store ≡ seat.old.store }
{
    replace_with(seat, (addresses, count), read_visit)
}
