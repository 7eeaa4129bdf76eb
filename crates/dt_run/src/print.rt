mod call_line;
mod edit_line;
mod fault_line;
mod figure;
mod log_text;
mod mix;
mod put_buffer;
mod summary;
mod tally;
mod words;

pub(crate) use fault_line::print_fault;
pub use log_text::print_log;
pub use summary::print_summary;
