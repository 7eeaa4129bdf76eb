//! Queries, and their replies by look-up from scratch.
#![tactic(auto)]

mod among;
mod laws;
mod live;
mod look_up;
mod query;
mod reply;
mod sharing;
mod specificity;

pub use among::answer_among;
pub use laws::{
    edits_change_what_they_concern, law_of_answers, law_of_cells, others_keep_their_cell,
    parts_are_enough, top_sees_itself,
};
pub use look_up::resolve;
pub use query::Query;
pub use reply::{Answer, Change, Reply};
