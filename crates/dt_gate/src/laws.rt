ghost use Rattle.std.specs.Prelude.{[]};
ghost use Rattle.dt_pages.specs.Reading.{blank};
ghost use Rattle.dt_gate.specs.Gate.{bounds_of};
ghost use Rattle.dt_gate.specs.Runs.{InRange, EveryRunIsSound, ReachedIsSound, FreshIsReached, RunsGoOn, SoundnessIsKept};
ghost use Rattle.dt_gate.specs.Readers.{ReadsAreFrozen, NoFillUnderAReader, NoLayUnderAReader, LooksDecide, NoneIsWornBelowTheLimit};
ghost use Rattle.dt_gate.specs.Sweeps.{SweepsLead, SweepsLeaveRoom};
ghost use Rattle.dt_gate.specs.Words.{EachEventIsOneAccess, CountsAlwaysFit};

use crate::event::Event;
use crate::meaning::Meaning;
use dt_pages::{page_zero_is_empty, reached_pages_decide};

/// After every first part of a list of events, each allowed where it stands, from the fresh gate on, the gate is sound.
pub fn every_run_is_sound<M: Meaning>(readers: u16, pages: u32, entries: u64, events: &[Event<M>])
    requires bounds { InRange (bounds_of readers pages entries) }
    requires empty { M.shows blank [] }
    ensures { EveryRunIsSound M.shows (bounds_of readers pages entries) events.now }
{
    reached_pages_decide();
    page_zero_is_empty();
}

/// The same of the gates: each that a run can reach is sound, and an allowed event leads to another one.
///
/// Soundness is also kept by itself: no other gate than a sound one follows a sound one.
pub fn every_reached_gate_is_sound<M: Meaning>(readers: u16, pages: u32, entries: u64)
    requires bounds { InRange (bounds_of readers pages entries) }
    requires empty { M.shows blank [] }
    ensures sound { ReachedIsSound M M.shows (bounds_of readers pages entries) }
    ensures begins { FreshIsReached M M.shows (bounds_of readers pages entries) }
    ensures goes_on { RunsGoOn M M.shows (bounds_of readers pages entries) }
    ensures kept { SoundnessIsKept M M.shows (bounds_of readers pages entries) }
{
    reached_pages_decide();
    page_zero_is_empty();
}

/// Each event changes the words of the store as its one access does, and in no other way; and the counts fit in their words.
pub fn each_event_is_one_access<M: Meaning>(readers: u16, pages: u32, entries: u64)
    requires bounds { InRange (bounds_of readers pages entries) }
    requires empty { M.shows blank [] }
    ensures accesses { EachEventIsOneAccess M M.shows (bounds_of readers pages entries) }
    ensures counts { CountsAlwaysFit M M.shows (bounds_of readers pages entries) }
{
    reached_pages_decide();
    page_zero_is_empty();
}

/// What a reader rests on: no word changes under it while it is inside, and a look is worn exactly at the limit.
pub fn nothing_changes_under_a_reader<M: Meaning>(readers: u16, pages: u32, entries: u64)
    requires bounds { InRange (bounds_of readers pages entries) }
    requires empty { M.shows blank [] }
    ensures reads { ReadsAreFrozen M M.shows (bounds_of readers pages entries) }
    ensures pages { NoFillUnderAReader M M.shows (bounds_of readers pages entries) }
    ensures roots { NoLayUnderAReader M M.shows (bounds_of readers pages entries) }
    ensures looks { LooksDecide M M.shows (bounds_of readers pages entries) }
    ensures worn { NoneIsWornBelowTheLimit M M.shows (bounds_of readers pages entries) }
{
    reached_pages_decide();
    page_zero_is_empty();
}

/// A sweep that polls every old root once frees those that all readers have left, finds the others held, which are no more than
/// readers were out, and so leaves a root free, whatever readers do between its polls.
pub fn a_sweep_leaves_room<M: Meaning>(readers: u16, pages: u32, entries: u64)
    requires bounds { InRange (bounds_of readers pages entries) }
    requires empty { M.shows blank [] }
    ensures leads { SweepsLead M M.Item }
    ensures room { SweepsLeaveRoom M M.shows (bounds_of readers pages entries) }
{
    reached_pages_decide();
    page_zero_is_empty();
}
