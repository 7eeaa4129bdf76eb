//! The program `difference_rounds`: what `changes` tells of a batch, beside what every query of both programs answers, on
//! programs and batches by chance; and the changes and steps of a few batches that are known.
#![tactic(auto)]

ghost use Rattle.std.specs.Prelude.{◌≡◌, ◌<◌};

mod asked;
mod drawn;
mod editor;
mod known;
mod made;
mod rounds;
mod scenes;
mod small;

use dt_graph::Steps;
use dt_trials::Fault;
use known::print_known;
use rounds::{Met, play};
use std::io;
use std::marker::Brand;
use std::process::ExitCode;
use std::sync::ledger::{Blank, Ledger};

// Prints what was met.
fn print_met(rt: &impl Print, met: Met) -> io::Result<()> {
    let Met {
        kept,
        taken_back,
        refused,
        changes: [one, two, three, four],
        wrong,
    } = met;
    println!(rt; "batches by chance | kept {kept} | taken back {taken_back} | refused {refused}")?;
    println!(rt; "changes | {one} | {two} | {three} | {four} | told wrongly {wrong}")
}

// Plays and prints all.
fn run<L: Ledger, R: Print + AllocGlobal>(rt: &R, blank: Blank) -> Result<(), Fault>
    requires name { blank.name ≡ L.name }
    requires parts { blank.parts ≡ L.parts }
    requires some_part { 0 < blank.parts }
{
    let mut steps = Steps::<L>::start(blank);
    print_known(rt, &mut steps)?;
    let met = play(rt.alloc(), &mut steps)?;
    print_met(rt, met)?;
    Ok(())
}

fn main(rt: HostRuntime) -> ExitCode {
    ExitCode::from(match run::<Brand, _>(&rt, Blank::new(1)) {
        Ok(()) => 0,
        Err(Fault::Outside) => 5,
        Err(Fault::NoMemory) => 6,
    })
}
