//! Where a script comes from and where the text goes: sources and sinks, in memory and over std, and reading and putting
//! all of it.
#![tactic(auto)]

mod copy;
mod laws;
mod list_sink;
mod list_source;
mod putting;
mod reading;
mod sink;
mod source;
mod std_sink;
mod std_source;
mod sure_source;

pub use laws::{counts_rise_call_by_call, losses_add_up, prefixes_add_up};
pub use list_sink::ListSink;
pub use list_source::ListSource;
pub use putting::put_all;
pub use reading::{ReadFault, read_to_end};
pub use sink::Sink;
pub use source::{Failed, Source};
pub use std_sink::StdSink;
pub use std_source::StdSource;
pub use sure_source::SureSource;
