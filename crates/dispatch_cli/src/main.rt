//! The program `dispatch`: a script on standard input, its replies on standard output.
#![tactic(auto)]

mod command_line;
mod program;

use dt_outside::{StdSink, StdSource};
use program::exit_status;
use std::env;
use std::process::ExitCode;

fn main(rt: HostRuntime) -> ExitCode {
    let mut source = StdSource::new(rt.stdin());
    let mut sink = StdSink::new(rt.stdout());
    let status = exit_status(&rt, rt.alloc(), env::args(&rt), &mut source, &mut sink);
    ExitCode::from(status)
}
