ghost use Rattle.std.specs.Prelude.{◌≡◌, ◌≤◌};

use crate::image::{ADDRESSES, CELLS, CELLS_BEGIN, MASTER_BEGIN, count_words};
use crate::made::{batch_of, query_of};
use dt_cells::{Pair, TableKind};
use dt_colour::Colour;
use dt_mrd::Mrd;
use dt_pages::Tree;
use dt_row::Row;
use dt_scratch::{Query, Reply};
use dt_sti::Sti;
use dt_tables::Tabled;
use dt_trials::Fault;
use std::alloc::Global;
use std::io;

// Two classes, and two selectors, each defined at a class of its own.
const APART: &str = "class 0; class 1; selector 0 1; selector 1 1; define 0 0 0; define 1 1 1";

// A class below both.
const BELOW_BOTH: &str = "class 2 0 1";

// Two classes, and two selectors, both defined at the first class.
const TOGETHER: &str = "class 0; class 1; selector 0 1; selector 1 1; define 0 0 0; define 1 1 0";

// The first selector is defined at the second class, too.
const AT_THE_SECOND: &str = "define 0 2 1";

// The second selector of these is another from now on: it takes two arguments.
const FORTH: &str = "undefine 1 0; forget 1; selector 1 2; define 1 2 0 1";

// It takes one argument again, and the first selector has no definition any more.
const BACK: &str = "undefine 0 0; undefine 1 0 1; forget 1; selector 1 1; define 1 1 0";

// Two classes below a third, and a selector of two arguments that is defined at the third and the second of them, and the
// other way round.
const COLLIDE: &str = "class 0; class 1 0; class 2 0; selector 0 2; define 0 0 0 2; define 0 1 2 0";

// Prints the words that are set of so many addresses from this one on.
fn print_range(rt: &impl Print, tree: &Tree, first: u32, end: u32) -> io::Result<()> {
    for at in first..end {
        let word = if at < ADDRESSES { tree.word(at) } else { 0 };
        if word != 0 {
            println!(rt; "  {at} {word}")?;
        }
    }
    Ok(())
}

// Prints the words that are set, and how many they are at all addresses.
fn print_words(rt: &impl Print, name: &str, tree: &Tree) -> io::Result<()> {
    let count = count_words(tree);
    println!(rt; "{name} | words {count}")?;
    print_range(rt, tree, 0, 12_288)?;
    print_range(rt, tree, CELLS_BEGIN, CELLS_BEGIN + CELLS as u32)?;
    print_range(rt, tree, MASTER_BEGIN, MASTER_BEGIN + CELLS as u32)
}

// Prints the words after a batch, and whether it wasn't committed.
fn print_after(rt: &impl Print, name: &str, tree: &Tree, is_committed: bool) -> io::Result<()> {
    if !is_committed {
        println!(rt; "{name} | not committed")?;
    }
    print_words(rt, name, tree)
}

// Whether the batch of these edits is committed.
fn is_committed<K: TableKind>(
    alloc: Global,
    tabled: &mut Tabled<K>,
    edits: &str,
) -> Result<bool, Fault> {
    let batch = batch_of(alloc, edits)?;
    Ok(tabled.commit(&batch).is_ok())
}

// Commits the batch of these edits, and prints the words after it.
fn show<K: TableKind, R: Print + AllocGlobal>(
    rt: &R,
    tabled: &mut Tabled<K>,
    name: &str,
    edits: &str,
) -> Result<(), Fault> {
    let is_committed = is_committed(rt.alloc(), tabled, edits)?;
    print_after(rt, name, tabled.tree(), is_committed)?;
    Ok(())
}

// Prints the reply to a query.
fn print_reply<K: TableKind>(
    rt: &impl Print,
    tabled: &mut Tabled<K>,
    query: &Query,
) -> io::Result<()> {
    let reply: Reply = tabled.reply(query);
    println!(rt; "  {query} | {reply}")
}

// Prints the replies to these queries.
fn print_replies<K: TableKind>(
    rt: &impl Print,
    tabled: &mut Tabled<K>,
    queries: &str,
) -> io::Result<()> {
    for digits in queries.split("; ") {
        if let Some(query) = query_of(digits) {
            print_reply(rt, tabled, &query)?;
        }
    }
    Ok(())
}

// Commits both batches, printing the words after each, and prints the replies to the queries.
fn show_both<K: TableKind, R: Print + AllocGlobal>(
    rt: &R,
    tabled: &mut Tabled<K>,
    first: (&str, &str),
    second: (&str, &str),
    queries: &str,
) -> Result<(), Fault> {
    show(rt, tabled, first.0, first.1)?;
    show(rt, tabled, second.0, second.1)?;
    print_replies(rt, tabled, queries)?;
    Ok(())
}

// A selector that moves to another colour.
fn print_colours<R: Print + AllocGlobal>(rt: &R) -> Result<(), Fault> {
    let mut tabled = Tabled::<Colour>::new(rt.alloc())?;
    show_both(
        rt,
        &mut tabled,
        ("colours, each class understands one selector", APART),
        ("colours, a class below understands both", BELOW_BOTH),
        "0 2; 1 2; 0 1",
    )
}

// A selector that moves to another displacement.
fn print_rows<R: Print + AllocGlobal>(rt: &R) -> Result<(), Fault> {
    let mut tabled = Tabled::<Row>::new(rt.alloc())?;
    show_both(
        rt,
        &mut tabled,
        ("rows, a class understands both selectors", TOGETHER),
        ("rows, another understands the first", AT_THE_SECOND),
        "1 1; 0 0; 0 1",
    )
}

// Commits the rows of a selector of two arguments.
fn show_master<K: TableKind, R: Print + AllocGlobal>(
    rt: &R,
    tabled: &mut Tabled<K>,
    name: &str,
) -> Result<(), Fault> {
    show(rt, tabled, name, COLLIDE)?;
    print_replies(rt, tabled, "0 0 2; 0 2 1; 0 2 2; 0 1 1")?;
    Ok(())
}

// The rows of a selector of two arguments.
fn print_master<K: TableKind, R: Print + AllocGlobal>(rt: &R, name: &str) -> Result<(), Fault>
    requires { 1 ≤ K.kind.most_low }
{
    let mut tabled = Tabled::<K>::new(rt.alloc())?;
    show_master(rt, &mut tabled, name)
}

// A selector that goes from the first part of a pair to the second, and back: it is given the lowest colour then, though
// nothing is in the way at the one that it had.
fn show_parts<K: TableKind, R: Print + AllocGlobal>(
    rt: &R,
    tabled: &mut Tabled<K>,
) -> Result<(), Fault> {
    show(
        rt,
        tabled,
        "multiple rows beside colours, a class understands both selectors",
        TOGETHER,
    )?;
    show_both(
        rt,
        tabled,
        ("multiple rows beside colours, the second takes two", FORTH),
        ("multiple rows beside colours, it takes one again", BACK),
        "0 0; 1 0; 1 1",
    )
}

// The same, from the empty program on.
fn print_parts<R: Print + AllocGlobal>(rt: &R) -> Result<(), Fault> {
    let mut tabled = Tabled::<Pair<Colour, Mrd>>::new(rt.alloc())?;
    show_parts(rt, &mut tabled)
}

/// Prints all words of four small programs, of three of them before and after a selector moves, and a few replies.
pub fn print_worked<R: Print + AllocGlobal>(rt: &R) -> Result<(), Fault> {
    print_colours(rt)?;
    print_rows(rt)?;
    print_master::<Mrd, R>(rt, "multiple rows, two arguments")?;
    print_master::<Pair<Sti, Mrd>, R>(rt, "multiple rows beside indexing, two arguments")?;
    print_parts(rt)
}
