//! What an edit changes: the queries whose cells differ between two programs.
#![tactic(auto)]

mod bound;
mod change_fault;
mod cones;
mod count;
mod differences;
mod edited;
mod found;
mod full;
mod gained;
mod laws;
mod limits;
mod marks;
mod near;
mod part;
mod selector_set;
mod site;
mod sizes;
mod told;
mod touched;
mod walk;
mod what_changes;

pub use change_fault::ChangeFault;
pub use laws::{boxes_hold, candidates_are_held, finer_marks_serve, understood_is_held};
pub use limits::{CELLS, ROWS};
pub use sizes::Sizes;
pub use what_changes::{changes, changes_counted};
