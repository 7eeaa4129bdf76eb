//! A program and its first table in step, with memory enough: the words after each batch, and replies by them.
use crate::edits::batch;
use dt_definitions::{BodyNo, Why};
use dt_scratch::{Answer, Query, Reply};
use dt_sti::Sti;
use dt_tables::{CommitFault, Tabled};
use std::alloc::Global;
use std::test::Fail;

// The addresses of the word of class 0, of selector 0, and of their cell.
const PLACES: [u32; 3] = [0, 4096, 16_777_216];

// Each batch, and what stands at these addresses after it.
const HISTORY: [(&str, [u64; 3]); 4] = [
    ("class 0; selector 0 1; define 0 0 0", [1, 1, 4_294_967_298]),
    ("define 0 7 0", [1, 1, 4_294_967_305]),
    ("undefine 0 0", [1, 1, 0]),
    ("forget 0; drop 0", [0, 0, 0]),
];

fn has_words(tabled: &Tabled<Sti>, words: [u64; 3]) -> bool {
    PLACES.iter().zip(words.iter()).all(|(place, word)| *place < 134_217_728
        && tabled.tree().word(*place) == *word)
}

fn is_committed(alloc: Global, tabled: &mut Tabled<Sti>, words: &str) -> bool {
    match batch(alloc, words) {
        Some(batch) => tabled.commit(&batch).is_ok(),
        None => false,
    }
}

fn follows(alloc: Global, tabled: &mut Tabled<Sti>, batch: &str, words: [u64; 3]) -> bool {
    is_committed(alloc, tabled, batch) && has_words(tabled, words)
}

fn all_follow(alloc: Global, tabled: &mut Tabled<Sti>) -> bool {
    let mut is_right = true;
    for (batch, words) in HISTORY {
        is_right = is_right && follows(alloc, tabled, batch, words);
    }
    is_right
}

fn words_follow(alloc: Global) -> Option<bool> {
    let mut tabled = Tabled::<Sti>::new(alloc).ok()?;
    Some(all_follow(alloc, &mut tabled))
}

// The second edit of the batch is refused, as there is such a class.
fn is_refused(alloc: Global, tabled: &mut Tabled<Sti>, words: &str) -> bool {
    match batch(alloc, words) {
        Some(batch) => {
            tabled.commit(&batch)
                == Err(CommitFault::Refused {
                    at: 2,
                    why: Why::ClassExists,
                })
        }
        None => false,
    }
}

fn answers(tabled: &mut Tabled<Sti>, body: u16) -> bool {
    let answer = Answer::Method {
        body: BodyNo::new(body),
    };
    match Query::new(0, &[0]) {
        Some(query) => tabled.reply(&query) == Reply::Answered { answer },
        None => false,
    }
}

// What is answered after a refused batch is answered by the program that stands on.
fn stands_on(alloc: Global, tabled: &mut Tabled<Sti>) -> bool {
    is_committed(alloc, tabled, "class 0; selector 0 1; define 0 7 0")
        && is_refused(alloc, tabled, "define 0 9 0; class 0")
        && answers(tabled, 7)
}

fn a_refused_batch_stays_out(alloc: Global) -> Option<bool> {
    let mut tabled = Tabled::<Sti>::new(alloc).ok()?;
    Some(stands_on(alloc, &mut tabled))
}

#[test]
fn words_follow_each_batch(rt: HostRuntime) -> Result<(), Fail> {
    assert!(rt; words_follow(rt.alloc()) == Some(true));
    Ok(())
}

#[test]
fn a_refused_batch_changes_no_word(rt: HostRuntime) -> Result<(), Fail> {
    assert!(rt; a_refused_batch_stays_out(rt.alloc()) == Some(true));
    Ok(())
}
