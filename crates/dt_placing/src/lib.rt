//! Placing of the cells of one selector as a whole: what selector colouring and row displacement have in common.
#![tactic(auto)]

mod cell;
mod choosing;
mod laying;
mod looking;
mod places;
mod row;
mod selector_turn;
mod selector_turns;
mod staged;
mod staying;

pub use looking::look_part;
pub use places::SelectorPlaces;
pub use staged::StagedWord;
