//! A program whose table follows every batch.
#![tactic(auto)]

mod commit_fault;
mod following;
mod laws;
mod tabled;
mod what_follows;

pub use commit_fault::CommitFault;
pub use laws::{
    commits_have_one_answer, commits_make_histories, commits_make_words, limits_are_counted,
};
pub use tabled::Tabled;
