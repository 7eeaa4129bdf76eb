//! Scripts: lines of text, what each means, where each may stand, and the names that they number; and a large script from
//! a number.
#![tactic(auto)]

mod batches_builder;
mod caller_set;
mod callers;
mod cut;
mod draws;
mod generated_calls;
mod generated_classes;
mod generated_definitions;
mod generated_edits;
mod generated_laws;
mod generated_line;
mod generated_script;
mod generated_selectors;
mod generated_size;
mod keyword;
mod laws;
mod limits;
mod line;
mod line_read;
mod lines;
mod meaning;
mod name_book;
mod numbered_line;
mod numbering;
mod one_answer;
mod parts_builder;
mod place;
mod playable;
mod reading;
mod script;
mod script_builder;
mod script_fault;
mod script_read;
mod sharing;
mod words;
mod writing;
mod written;
mod written_line;

pub use generated_laws::generated_texts_are_scripts;
pub use generated_script::make_script;
pub use laws::{
    lines_have_one_spelling, names_keep_their_spellings, spellings_have_one_line,
    written_lines_are_read_again,
};
pub use limits::{CALLERS, SCRIPT_BYTES};
pub use line::{CallerLine, Line};
pub use line_read::{LineFault, read_line};
pub use name_book::NameBook;
pub use one_answer::{bytes_have_one_answer, scripts_read_are_named};
pub use playable::scripts_read_are_playable;
pub use script::{Part, Phase, Script};
pub use script_fault::ScriptFault;
pub use script_read::read_script;
pub use writing::write_line;
