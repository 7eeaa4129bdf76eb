//! Row displacement: the rows of all selectors lie over one another in one array.
#![tactic(auto)]

mod row;

pub use row::Row;
