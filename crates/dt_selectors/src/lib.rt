//! Names numbered in the order of their first appearance, and selectors with the number of their arguments.
#![tactic(auto)]

mod laws;
mod limits;
mod names;
mod numbers;
mod selectors;

pub use laws::{
    changes_are_undone, changes_keep_law, changes_touch_one_selector, lists_of_names_keep_numbers,
    names_and_selectors_are_shared, names_keep_their_numbers,
};
pub use limits::{BODIES, NAMES, SELECTORS};
pub use names::{NameFault, Names};
pub use numbers::{Arity, BodyNo, SelNo};
pub use selectors::{SelectorFault, Selectors};
