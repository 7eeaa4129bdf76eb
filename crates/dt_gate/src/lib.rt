//! A machine of one author and many readers who share pages without a lock, and the law that every run of it is sound.
//!
//! Readers enter the current version by one step on one word, and read pages that no one changes while they are inside.
//! The author fills pages that no reader can reach, publishes a new version by one step on the same word, and takes back
//! what old versions held once their readers have left.
//! No code runs here: the types are read by the definitions, and no value of them is ever made.
#![tactic(auto)]

mod access;
mod all_bounds;
mod event;
mod examples;
mod gate;
mod laws;
mod meaning;
mod wrong;

pub use access::Access;
pub use all_bounds::laws_of_runs;
pub use event::{Event, Holder, ReadWord, RecordWord};
pub use examples::{
    Counting, a_busy_gate_is_reached, a_note_tells_the_history, a_seat_is_taken_back,
    an_old_root_is_freed, every_counting_run_is_sound, pages_are_filled_and_read,
    three_readers_pass_the_limit,
};
pub use gate::{Author, Frozen, Gate, Laid, Root, Seat, Stage, Standing};
pub use laws::{
    a_sweep_leaves_room, each_event_is_one_access, every_reached_gate_is_sound, every_run_is_sound,
    nothing_changes_under_a_reader,
};
pub use meaning::Meaning;
pub use wrong::{
    a_fill_under_a_reader, a_publish_that_frees_at_once, a_publish_that_loads_then_stores,
    a_sweep_that_drains, an_enter_without_a_look,
};
