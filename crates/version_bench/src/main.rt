//! The program `version_bench`: what readers and the author of running versions pay, beside the same accesses of plain atomic words.
//!
//! With no words it prints what small numbers of all that is timed come to, and times nothing. `versions` times them, `store` makes
//! the greatest store once. Each line of figures is `versions | METRIC | UNIT | MEDIAN | LEAST | GREATEST` over some rounds; the line
//! below it, of the unit `plain`, has the figures of the plain words, and the next how often their time goes into ours.
#![tactic(auto)]

mod addresses;
mod anything;
mod bench;
mod counts;
mod fault;
mod figures;
mod filler;
mod greatest;
mod holds;
mod known;
mod layout;
mod plain;
mod plain_readers;
mod readers;
mod reads;
mod rounds;
mod rows;
mod stage;
mod turner;
mod visitors;
mod visits;
mod words;
mod work;

use bench::{count, time};
use fault::Fault;
use greatest::{make_greatest, time_greatest};
use std::env;
use std::process::ExitCode;
use std::rt::{Clock, Env};
use std::thread::Threads;
use words::Command;

// What the words after the program's name ask for.
fn asked<R: Env + AllocGlobal>(rt: &R) -> Result<Option<Command>, Fault> {
    let mut command = Some(Command::Count);
    for word in env::args(rt)?.skip(1) {
        command = match command {
            Some(before) => before.and(&word),
            None => None,
        };
    }
    Ok(command)
}

// Does what the words ask for, and answers whether they ask for anything.
fn run<R: Print + Clock + Env + Threads + Sync + AllocGlobal>(rt: &R) -> Result<bool, Fault> {
    match asked(rt)? {
        Some(Command::Count) => count(rt)?,
        Some(Command::Versions) => {
            time(rt)?;
            time_greatest(rt)?;
        }
        Some(Command::Store) => make_greatest(rt)?,
        None => {
            println!(rt; "usage: version_bench [versions|store]")?;
            return Ok(false);
        }
    }
    Ok(true)
}

fn main(rt: HostRuntime) -> ExitCode {
    ExitCode::from(match run(&rt) {
        Ok(true) => 0,
        Err(Fault::Differs) => 1,
        Ok(false) => 2,
        Err(Fault::Outside) => 5,
        Err(Fault::NoMemory) => 6,
    })
}
