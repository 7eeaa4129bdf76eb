//! Multiple row displacement: queries of one to four classes are answered by a chain of rows, all in one array.
#![tactic(auto)]

mod cell;
mod changing;
mod indexes;
mod kept_row;
mod kept_rows;
mod laying;
mod laying_selectors;
mod levels;
mod looking;
mod mrd;
mod row_turn;
mod staged;
mod staging;
mod taking;
mod turn;

pub use mrd::Mrd;
pub use staged::{MrdStaged, StagedRoot};
