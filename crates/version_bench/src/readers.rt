ghost use Rattle.std.specs.Prelude.{◌≡◌, IfSome};
ghost use Rattle.dt_gate.specs.declared.gate.Stage.TheVariants.{Out};
ghost use Rattle.dt_version.specs.Views.{seat_of};

use crate::addresses::Addresses;
use crate::anything::Anything;
use crate::holds::hold_many;
use crate::reads::read_many;
use crate::turner::Turner;
use crate::visitors::{Pair, Visitor};
use crate::visits::visit_many;
use dt_version::ReaderSeat;

/// A reader seat that is out.
#[derive(Drop)]
pub struct Reader<'s> {
    seat: ReaderSeat<'s, Anything>,
    ghost out: { (seat_of seat.place).stage ≡ Out },
}

/// Four readers.
pub type Readers<'s> = Pair<Pair<Reader<'s>>>;

impl<'s> Reader<'s> {
    // One of an author that may give out one more.
    fn new(turner: &mut Turner<'s>) -> Option<Reader<'s>>
        requires { turner.old.author.store.now.limits.readers ≡ 4 }
        ensures store { turner.new.author.store ≡ turner.old.author.store }
    {
        let seat = turner.give()?;
        Some(Reader { seat })
    }

    /// Enters, reads the words at so many addresses, and leaves; the sum of the words.
    pub fn read(&mut self, addresses: &mut Addresses, count: u32) -> u64 {
        read_many(&mut self.seat, addresses, count)
    }

    /// Is inside while the next version is published and the root before it polled so many times; how often that was found held.
    pub fn hold(&mut self, turner: &mut Turner<'_>, count: u32) -> u32
        ensures store { turner.new.author.store ≡ turner.old.author.store }
    {
        hold_many(turner, &mut self.seat, count)
    }
}

impl<'s> Visitor for Reader<'s> {
    fn visit(&mut self, count: u32) -> u32 {
        visit_many(&mut self.seat, count)
    }
}

// Two of an author that may give out two more.
fn new_two<'s>(turner: &mut Turner<'s>) -> Option<Pair<Reader<'s>>>
    requires { turner.old.author.store.now.limits.readers ≡ 4 }
    ensures store { turner.new.author.store ≡ turner.old.author.store }
{
    let one = Reader::new(turner)?;
    let other = Reader::new(turner)?;
    Some(Pair { one, other })
}

/// The four of an author that has given out none.
pub fn new_four<'s>(turner: &mut Turner<'s>) -> Option<Readers<'s>>
    requires { turner.old.author.store.now.limits.readers ≡ 4 }
    ensures store { turner.new.author.store ≡ turner.old.author.store }
{
    let one = new_two(turner)?;
    let other = new_two(turner)?;
    Some(Pair { one, other })
}
