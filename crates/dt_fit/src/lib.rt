//! First fit for tables of rows: which cells are used, and the lowest place at which a row fits among them. Selector
//! colouring, row displacement and multiple row displacement choose their places so.
#![tactic(auto)]

mod bits;
mod geometry;
mod journal;
mod laws;
mod used_cells;

pub use geometry::Geometry;
pub use laws::{lowest_place_is_one, rows_fit};
pub use used_cells::UsedCells;
