//! Selector colouring: selectors that no class understands both share a column of cells.
#![tactic(auto)]

mod colour;

pub use colour::Colour;
