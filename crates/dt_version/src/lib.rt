//! The running version word: readers enter the current version by one step and read its pages, while the author fills, lays and
//! publishes the next one. Each atomic step is an event of the machine of `dt_gate`.
#![tactic(auto)]

mod author;
mod laws;
mod limits;
mod note;
mod plays;
mod reader_seat;
mod rule;
mod store;
mod threads;
mod view;
mod worn;
mod zeros;

pub use author::{Author, AuthorSeat, Swapped};
pub use laws::{each_step_is_one_event, the_rule_is_sound};
pub use limits::Limits;
pub use note::Note;
pub use reader_seat::ReaderSeat;
pub use store::Store;
pub use view::{Size, View};
pub use worn::Worn;
