use crate::made::{put_class, put_define, put_link, put_selector, put_undefine, put_unlink};
use dt_definitions::Batch;
use dt_trials::Fault;
use std::alloc::Global;

/// A program that one batch makes.
#[derive(Clone, Copy)]
pub enum Base {
    /// A class with two below it and one below both, and a selector that the two define.
    Diamond,
    /// 200 classes of which all others are below the first, with 50 selectors that it defines.
    Star,
    /// So many classes of which all others are below the first, and a selector of three arguments that it defines.
    Cube { classes: u16 },
    /// The same of 2,048 classes and two arguments: as many cells as there may be.
    Cells,
    /// As many rows as there may be: seven selectors of two arguments have 2,049 each, and 2,041 of one argument one.
    Rows,
}

// The number that the word is, 0 where it is none.
fn number_of(word: &str) -> u16 {
    word.parse::<u16>().unwrap_or(0)
}

// Sets it, where there is such a place.
fn set_number(numbers: &mut [u16; 3], place: usize, number: u16) {
    if let Some(old) = numbers.get_mut(place) {
        *old = number;
    }
}

// Up to three numbers of these words, the others 0.
fn numbers_of(words: &str) -> [u16; 3] {
    let mut numbers = [0; 3];
    let mut place: usize = 0;
    for word in words.split(' ') {
        set_number(&mut numbers, place, number_of(word));
        place = place.saturating_add(1);
    }
    numbers
}

// Puts last what the word does to the selector at the class.
fn put_definition(
    batch: &mut Batch,
    word: &str,
    selector: u16,
    class: u16,
    body: u16,
) -> Result<(), Fault> {
    if word == "define" {
        return put_define(batch, selector, &[class], body);
    }
    if word == "undefine" {
        return put_undefine(batch, selector, &[class]);
    }
    put_defined(batch, selector, 1, &[class])
}

// Puts the edit last.
fn put_known(alloc: Global, batch: &mut Batch, words: &str) -> Result<(), Fault> {
    let (word, rest) = words.split_once(' ').unwrap_or((words, ""));
    let [first, second, third] = numbers_of(rest);
    if word == "class" {
        return put_class(alloc, batch, first, &[second]);
    }
    if word == "link" {
        return put_link(batch, first, second);
    }
    if word == "unlink" {
        return put_unlink(batch, first, second);
    }
    put_definition(batch, word, first, second, third)
}

// Puts a selector last, with a definition at these classes.
fn put_defined(batch: &mut Batch, selector: u16, arity: u8, classes: &[u16]) -> Result<(), Fault> {
    put_selector(batch, selector, arity)?;
    put_define(batch, selector, classes, 0)
}

// Puts so many selectors last, from this one on, each with a definition at these classes.
fn put_many(
    batch: &mut Batch,
    first: u16,
    count: u16,
    arity: u8,
    classes: &[u16],
) -> Result<(), Fault> {
    for place in 0..count {
        put_defined(batch, first.wrapping_add(place), arity, classes)?;
    }
    Ok(())
}

// Puts so many classes last, of which all others are below the first.
fn put_star(alloc: Global, batch: &mut Batch, classes: u16) -> Result<(), Fault> {
    put_class(alloc, batch, 0, &[])?;
    for number in 1..classes {
        put_class(alloc, batch, number, &[0])?;
    }
    Ok(())
}

// Puts the classes of a diamond last.
fn put_diamond(alloc: Global, batch: &mut Batch) -> Result<(), Fault> {
    put_class(alloc, batch, 0, &[])?;
    put_class(alloc, batch, 1, &[0])?;
    put_class(alloc, batch, 2, &[0])?;
    put_class(alloc, batch, 3, &[1, 2])
}

// Puts the edits of a program last.
fn put_base(alloc: Global, batch: &mut Batch, base: Base) -> Result<(), Fault> {
    match base {
        Base::Diamond => {
            put_diamond(alloc, batch)?;
            put_defined(batch, 0, 1, &[1])?;
            put_define(batch, 0, &[2], 1)
        }
        Base::Star => {
            put_star(alloc, batch, 200)?;
            put_many(batch, 0, 50, 1, &[0])
        }
        Base::Cube { classes } => {
            put_star(alloc, batch, classes)?;
            put_defined(batch, 0, 3, &[0, 0, 0])
        }
        Base::Cells => {
            put_star(alloc, batch, 2048)?;
            put_defined(batch, 0, 2, &[0, 0])
        }
        Base::Rows => {
            put_star(alloc, batch, 2048)?;
            put_many(batch, 0, 7, 2, &[0, 5])?;
            put_many(batch, 7, 2041, 1, &[5])
        }
    }
}

/// The batch of an edit, or of two that belong together: a word and numbers. It is `define`, a selector of one argument, the
/// class and the body; `undefine`, the selector and the class; `defined`, a selector that comes with a definition at the
/// class; `link` or `unlink`, the lower class and the upper one; or `class`, a class that comes and its parent.
pub fn batch_of(alloc: Global, words: &str) -> Result<Batch, Fault> {
    let mut batch = Batch::new(alloc);
    put_known(alloc, &mut batch, words)?;
    Ok(batch)
}

/// The batch that makes the program.
pub fn base_of(alloc: Global, base: Base) -> Result<Batch, Fault> {
    let mut batch = Batch::new(alloc);
    put_base(alloc, &mut batch, base)?;
    Ok(batch)
}
