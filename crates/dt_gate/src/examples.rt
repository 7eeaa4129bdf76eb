//! Runs, worked out.

ghost use Rattle.dt_gate.specs.Gate.{bounds_of};
ghost use Rattle.dt_gate.specs.Runs.{EveryRunIsSound};
ghost use Rattle.dt_gate.specs.Busy.{BusyIsReached};
ghost use Rattle.dt_gate.specs.Examples.{counted, OldRootIsFreed, PastTheLimit, PagesAreRead, NoteTellsHistory, SeatIsTakenBack};

use crate::event::Event;
use crate::laws::every_run_is_sound;
use crate::meaning::Meaning;
use dt_pages::{page_zero_is_empty, reached_pages_decide};

/// A meaning: the word at address 0 is the number of items.
pub struct Counting;

impl Meaning for Counting {
    type Item = u64;

    ghost shows = { counted };
}

/// The law at this meaning.
pub fn every_counting_run_is_sound(events: &[Event<Counting>])
    ensures { EveryRunIsSound counted (bounds_of 1 16 1) events.now }
{
    every_run_is_sound(1, 16, 1, events)
}

/// A reader is inside as a version is published: the old root is found held, and free once the reader has left.
pub fn an_old_root_is_freed()
    ensures { OldRootIsFreed }
{}

/// Three readers pass an entry limit of two, and the next look is worn.
pub fn three_readers_pass_the_limit()
    ensures { PastTheLimit }
{}

/// Pages are filled, a version is published, and a reader reads its way down from the top page.
pub fn pages_are_filled_and_read()
    ensures { PagesAreRead }
{
    reached_pages_decide();
    page_zero_is_empty();
}

/// A reader that hasn't looked hears of a version by a note.
pub fn a_note_tells_the_history()
    ensures { NoteTellsHistory }
{}

/// A reader seat is given back: the author has what it entered, and its worn look.
pub fn a_seat_is_taken_back()
    ensures { SeatIsTakenBack }
{}

/// A run of both readers, a publish and a poll, and the whole gate that it leads to.
pub fn a_busy_gate_is_reached()
    ensures { BusyIsReached }
{
    reached_pages_decide();
    page_zero_is_empty();
}
