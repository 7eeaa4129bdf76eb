//! Selector table indexing: a cell for each selector and class.
#![tactic(auto)]

mod sti;

pub use sti::{Sti, StiStaged};
