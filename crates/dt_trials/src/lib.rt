//! What the programs share that try or time the engine: numbers by chance, edits that may be refused, and why a run ends
//! early. It is no part of the engine.
#![tactic(auto)]

mod chance;
mod edits;
mod fault;

pub use chance::Chance;
pub use edits::{is_applied, put};
pub use fault::Fault;
