//! What every kind of table has in common: the trait of kinds with its laws, look-up over an image by one head and the
//! kind's part, the words of cells, and the class words and selector words of a program; and the pair, the kind that two
//! kinds make.
#![tactic(auto)]

mod cell;
mod following;
mod head;
mod head_words;
mod kind;
mod laws;
mod pair;
mod pair_staged;
mod parts;
mod place_words;
mod regions;
mod split;

pub use cell::{answer_by_word, word_of_answer};
pub use following::{first_table, follow};
pub use head_words::{heads, heads_of_batch};
pub use kind::TableKind;
pub use laws::{cells_follow, law_of_kinds};
pub use pair::Pair;
pub use pair_staged::PairStaged;
pub use parts::{ForMoreClasses, ForOneClass};
pub use regions::{place_address, selector_address};
