ghost use Rattle.dt_version.specs.Laws.{RuleIsSound, ReaderStepsAreEvents, AuthorStepsAreEvents, SeatsOutAreEvents, SeatsBackAreEvents};
ghost use Rattle.dt_version.specs.Laws.{AuthorNotesOutAreEvents, ReaderNotesOutAreEvents, AuthorNotesBackAreEvents, ReaderNotesBackAreEvents};

use dt_gate::{Meaning, laws_of_runs};

/// Between any two steps the words and views of a store are those of a gate that is sound.
pub fn the_rule_is_sound<M: Meaning>()
    ensures { RuleIsSound M M.shows }
{
    laws_of_runs::<M>();
}

/// Each step that a reader or the author takes is one event of that gate, and so one access of one word: also each by which
/// a seat or note goes out or comes back, after which the table shows the gate after that event.
pub fn each_step_is_one_event<M: Meaning>()
    ensures readers { ReaderStepsAreEvents M M.shows }
    ensures author { AuthorStepsAreEvents M M.shows }
    ensures seats_out { SeatsOutAreEvents M M.shows }
    ensures seats_back { SeatsBackAreEvents M M.shows }
    ensures author_notes_out { AuthorNotesOutAreEvents M M.shows }
    ensures reader_notes_out { ReaderNotesOutAreEvents M M.shows }
    ensures author_notes_back { AuthorNotesBackAreEvents M M.shows }
    ensures reader_notes_back { ReaderNotesBackAreEvents M M.shows }
{
    laws_of_runs::<M>();
}
