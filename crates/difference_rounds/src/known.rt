use crate::editor::{Editor, Told};
use crate::scenes::{Base, base_of, batch_of};
use dt_definitions::Batch;
use dt_graph::Steps;
use dt_propagate::ChangeFault;
use dt_scratch::Change;
use dt_trials::Fault;
use std::io;
use std::sync::ledger::Ledger;

// At most so many changes are printed one by one.
const FEW: usize = 3;

// Prints what a change tells.
fn print_change(rt: &impl Print, change: &Change) -> io::Result<()> {
    let Change { query, answer } = *change;
    println!(rt; "  {query} | {answer}")
}

// Prints how many changes there are, and a few of them one by one.
fn print_changes(rt: &impl Print, name: &str, changes: &[Change], steps: u64) -> io::Result<()> {
    let count = changes.len();
    println!(rt; "{name} | changes {count} | steps {steps}")?;
    if count <= FEW {
        for change in changes {
            print_change(rt, change)?;
        }
    }
    Ok(())
}

// Prints what became of a batch.
fn print_told(rt: &impl Print, name: &str, told: &Told) -> io::Result<()> {
    match told {
        Told::Changes { changes, steps } => print_changes(rt, name, changes, *steps),
        Told::Refused => println!(rt; "{name} | refused"),
        Told::Full {
            fault: ChangeFault::CellsFull,
        } => println!(rt; "{name} | cells full"),
        Told::Full { fault: _ } => println!(rt; "{name} | rows full"),
    }
}

// Tries a batch, and prints what it changes.
fn show<L: Ledger, R: Print + AllocGlobal>(
    rt: &R,
    editor: &mut Editor,
    name: &str,
    batch: &Batch,
    steps: &mut Steps<L>,
) -> Result<(), Fault> {
    let told = editor.try_batch(rt.alloc(), batch, steps)?;
    print_told(rt, name, &told)?;
    Ok(())
}

// Tries a batch of one edit, prints what it changes, and takes it back.
fn try_known<L: Ledger, R: Print + AllocGlobal>(
    rt: &R,
    editor: &mut Editor,
    name: &str,
    words: &str,
    steps: &mut Steps<L>,
) -> Result<(), Fault> {
    let batch = batch_of(rt.alloc(), words)?;
    show(rt, editor, name, &batch, steps)?;
    editor.refuse();
    Ok(())
}

// Tries the batch that makes a program, prints what it changes, and keeps it.
fn begin<L: Ledger, R: Print + AllocGlobal>(
    rt: &R,
    editor: &mut Editor,
    name: &str,
    base: Base,
    steps: &mut Steps<L>,
) -> Result<(), Fault> {
    let batch = base_of(rt.alloc(), base)?;
    show(rt, editor, name, &batch, steps)?;
    editor.accept();
    Ok(())
}

// Tries batches of one edit in turn, each on a line of its own behind its name.
fn try_all<L: Ledger, R: Print + AllocGlobal>(
    rt: &R,
    editor: &mut Editor,
    edits: &str,
    steps: &mut Steps<L>,
) -> Result<(), Fault> {
    for line in edits.split('\n') {
        if let Some((name, words)) = line.split_once(" : ") {
            try_known(rt, editor, name, words, steps)?;
        }
    }
    Ok(())
}

// Makes a program, and tries batches of one edit on it.
fn play<L: Ledger, R: Print + AllocGlobal>(
    rt: &R,
    name: &str,
    base: Base,
    edits: &str,
    steps: &mut Steps<L>,
) -> Result<(), Fault> {
    let mut editor = Editor::new(rt.alloc())?;
    begin(rt, &mut editor, name, base, steps)?;
    try_all(rt, &mut editor, edits, steps)
}

// What is tried on a class with two below it and one below both, and a selector that the two define.
const ON_THE_DIAMOND: &str = "define at its end : define 0 3 2
unlink a side : unlink 3 1
link the sides : link 1 2";

// What is tried on 200 classes of which all others are below the first, with 50 selectors that it defines.
const ON_THE_STAR: &str = "define at a leaf : define 0 7 1
link two leaves : link 7 8
a class below a leaf : class 200 7
undefine above all : undefine 0 0";

// What is tried where there are as many cells as there may be, or as many rows.
const ONE_MORE: &str = "one more : defined 3000 5";

// Prints the programs at the limits, and past them.
fn print_limits<L: Ledger, R: Print + AllocGlobal>(
    rt: &R,
    steps: &mut Steps<L>,
) -> Result<(), Fault> {
    for classes in [128, 161, 162] {
        play(rt, "three arguments", Base::Cube { classes }, "", steps)?;
    }
    play(rt, "all cells", Base::Cells, ONE_MORE, steps)?;
    play(rt, "all rows", Base::Rows, ONE_MORE, steps)
}

/// Prints what a few batches change, on programs that are known, and in how many steps that is found.
pub fn print_known<L: Ledger, R: Print + AllocGlobal>(
    rt: &R,
    steps: &mut Steps<L>,
) -> Result<(), Fault> {
    play(rt, "a diamond", Base::Diamond, ON_THE_DIAMOND, steps)?;
    play(rt, "a star", Base::Star, ON_THE_STAR, steps)?;
    print_limits(rt, steps)
}
