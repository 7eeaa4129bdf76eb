//! The program `version_rounds`: two readers enter while an author publishes, in threads of their own.
//!
//! A run makes a store of 16 pages for two readers. In one half of a join the author publishes version after version; in the
//! other two readers enter, read and leave 100,000 times each. Then all seats go back. Runs are made until one is met in
//! which two publishes found entries and a reader saw two versions, at most 1,000. It prints what every schedule gives.
#![tactic(auto)]

mod fault;
mod known;
mod publisher;
mod reader;
mod run;
mod seen;

use fault::Fault;
use run::run_until_busy;
use std::process::ExitCode;

fn main(rt: HostRuntime) -> ExitCode {
    ExitCode::from(match run_until_busy(&rt) {
        Ok(true) => 0,
        Ok(false) => 1,
        Err(Fault::Outside) => 5,
        Err(Fault::NoMemory) => 6,
    })
}
