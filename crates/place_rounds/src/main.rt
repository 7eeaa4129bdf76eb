//! The program `place_rounds`: all words of the tables by selector colouring, by row displacement, by multiple row
//! displacement and by the pairs that it makes with each kind for one argument, after each batch, beside those of a plain
//! placing, on programs and batches by chance; and the words of four programs that are known.
#![tactic(auto)]

ghost use Rattle.std.specs.Prelude.{◌≤◌};

mod arities;
mod beside;
mod cells;
mod drawn;
mod image;
mod indexed;
mod made;
mod met;
mod parts;
mod placing;
mod prefixes;
mod rounds;
mod rows;
mod rows_met;
mod rules;
mod search;
mod small;
mod understood;
mod worked;

use dt_cells::{Pair, TableKind};
use dt_colour::Colour;
use dt_mrd::Mrd;
use dt_row::Row;
use dt_sti::Sti;
use dt_trials::Fault;
use met::Met;
use rounds::play;
use rows_met::RowsMet;
use rules::{ALL_ALONG, BESIDE_COLOURS, BESIDE_INDEXED, BESIDE_ROWS, COLOURS, ROWS, Rules};
use std::io;
use std::process::ExitCode;
use worked::print_worked;

// Prints the batches that were met under a kind, and how many selectors took another number of arguments.
fn print_batches(rt: &impl Print, name: &str, met: &Met, arities: u32) -> io::Result<()> {
    let (committed, refused) = (met.committed, met.refused);
    println!(rt;
        "{name} | batches committed {committed} | refused {refused} | other arities {arities}"
    )
}

// Prints the places that selectors got and lost.
fn print_got(rt: &impl Print, met: &Met) -> io::Result<()> {
    let (changes, came, went) = (met.changes, met.came, met.went);
    println!(rt; "  cells changed {changes} | places got {came} | lost {went}")
}

// Prints the places that selectors kept and left.
fn print_kept(rt: &impl Print, met: &Met) -> io::Result<()> {
    let [stayed, above] = met.stayed;
    let [moved, over_own] = met.moved;
    println!(rt;
        "  places kept {stayed}, above a lower one {above} | left {moved}, for one over own cells {over_own}"
    )
}

// Prints the rows that came and went.
fn print_came(rt: &impl Print, met: &RowsMet) -> io::Result<()> {
    let (came, again, went) = (met.came, met.again, met.went);
    println!(rt; "  rows came {came}, again {again} | went {went}")
}

// Prints the rows that stayed and moved.
fn print_stayed(rt: &impl Print, met: &RowsMet) -> io::Result<()> {
    let ([stayed, above], [moved, over_own], had) = (met.stayed, met.moved, met.had);
    println!(rt;
        "  rows stayed {stayed}, above a lower one {above} | moved {moved}, over own cells {over_own} | passed over one of another {had}"
    )
}

// Prints the rows by the lengths of their prefixes.
fn print_lengths(rt: &impl Print, met: &RowsMet) -> io::Result<()> {
    let ([none, one, two, three], highest) = (met.lengths, met.highest);
    println!(rt;
        "  rows of no class {none} | one {one} | two {two} | three {three} | highest displacement {highest}"
    )
}

// Prints what was met of rows in the master array.
fn print_turns(rt: &impl Print, met: &RowsMet) -> io::Result<()> {
    print_came(rt, met)?;
    print_stayed(rt, met)?;
    print_lengths(rt, met)
}

// Prints the selectors that went from one part of a pair to the other.
fn print_parts(rt: &impl Print, met: &RowsMet) -> io::Result<()> {
    let [forth, back] = met.parts;
    let [cells_forth, cells_back] = met.with_cells;
    println!(rt;
        "  selectors to the second part {forth}, with cells in both {cells_forth} | back {back}, with cells in both {cells_back}"
    )
}

// Prints how many words were compared.
fn print_compared(rt: &impl Print, met: &Met) -> io::Result<()> {
    let (compared, wrong) = (met.compared, met.wrong);
    println!(rt; "  words compared {compared} | told wrongly {wrong}")
}

// Prints what was met under a kind for queries of one class alone.
fn print_single(rt: &impl Print, name: &str, met: &Met) -> io::Result<()> {
    print_batches(rt, name, met, met.arities)?;
    print_got(rt, met)?;
    print_kept(rt, met)?;
    print_compared(rt, met)
}

// Prints what was met under multiple row displacement alone.
fn print_along(rt: &impl Print, name: &str, met: &Met) -> io::Result<()> {
    print_batches(rt, name, met, met.rows.arities)?;
    print_turns(rt, &met.rows)?;
    print_compared(rt, met)
}

// Prints what was met under a pair.
fn print_pair(rt: &impl Print, name: &str, met: &Met) -> io::Result<()> {
    print_batches(rt, name, met, met.rows.arities)?;
    print_parts(rt, &met.rows)?;
    print_turns(rt, &met.rows)?;
    print_compared(rt, met)
}

// Plays and prints a kind for queries of one class alone.
fn run_single<K: TableKind, R: Print + AllocGlobal>(
    rt: &R,
    name: &str,
    rules: &Rules,
) -> Result<(), Fault>
    requires { 1 ≤ K.kind.most_low }
{
    let met = play::<K>(rt.alloc(), rules)?;
    print_single(rt, name, &met)?;
    Ok(())
}

// Plays and prints multiple row displacement alone.
fn run_along<R: Print + AllocGlobal>(rt: &R) -> Result<(), Fault> {
    let met = play::<Mrd>(rt.alloc(), &ALL_ALONG)?;
    print_along(rt, "multiple rows", &met)?;
    Ok(())
}

// Plays and prints a pair.
fn run_pair<K: TableKind, R: Print + AllocGlobal>(
    rt: &R,
    name: &str,
    rules: &Rules,
) -> Result<(), Fault>
    requires { 1 ≤ K.kind.most_low }
{
    let met = play::<K>(rt.alloc(), rules)?;
    print_pair(rt, name, &met)?;
    Ok(())
}

// Plays and prints the pairs.
fn run_pairs<R: Print + AllocGlobal>(rt: &R) -> Result<(), Fault> {
    run_pair::<Pair<Sti, Mrd>, R>(rt, "multiple rows beside indexing", &BESIDE_INDEXED)?;
    run_pair::<Pair<Colour, Mrd>, R>(rt, "multiple rows beside colours", &BESIDE_COLOURS)?;
    run_pair::<Pair<Row, Mrd>, R>(rt, "multiple rows beside rows", &BESIDE_ROWS)
}

// Plays and prints all.
fn run<R: Print + AllocGlobal>(rt: &R) -> Result<(), Fault> {
    print_worked(rt)?;
    run_single::<Colour, R>(rt, "colours", &COLOURS)?;
    run_single::<Row, R>(rt, "rows", &ROWS)?;
    run_along(rt)?;
    run_pairs(rt)
}

fn main(rt: HostRuntime) -> ExitCode {
    ExitCode::from(match run(&rt) {
        Ok(()) => 0,
        Err(Fault::Outside) => 5,
        Err(Fault::NoMemory) => 6,
    })
}
