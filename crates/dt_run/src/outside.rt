//! Where a script comes from and where the text goes.

pub use dt_outside::{Failed, ListSink, ListSource, Sink, Source, StdSink, StdSource, SureSource};
