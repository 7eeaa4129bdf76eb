//! Performing whole scripts: from a script to the log of what happened, and from a log to its text.
#![tactic(auto)]

mod generating;
mod laws;
mod log;
pub mod outside;
mod perform;
mod print;
mod ran;
mod running;
mod status;
mod turnstile;

pub use dt_words::{ArgWords, Command, Limits, Table, WordsFault, read_words};
pub use laws::{logs_are_determined_by_their_texts, outcomes_are_named};
pub use log::{CallLine, EditLine, Log, PartLog, PhaseLog, Stamped};
pub use perform::perform_script;
pub use print::{print_log, print_summary};
pub use ran::Ran;
pub use running::run;
pub use status::Status;
pub use turnstile::{OpenTurnstile, Turnstile};
