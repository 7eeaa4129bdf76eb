use crate::plain::visit_many;
use crate::visitors::{Pair, Visitor};
use std::sync::atomic::AtomicU64;

/// Who adds to the plain words.
#[derive(Clone, Copy)]
pub struct PlainReader<'w> {
    /// The words.
    pub words: &'w [AtomicU64],
}

impl<'w> Visitor for PlainReader<'w> {
    fn visit(&mut self, count: u32) -> u32 {
        visit_many(self.words, count)
    }
}

/// Two of them.
pub fn two<'w>(words: &'w [AtomicU64]) -> Pair<PlainReader<'w>> {
    Pair {
        one: PlainReader { words },
        other: PlainReader { words },
    }
}

/// Four of them.
pub fn four<'w>(words: &'w [AtomicU64]) -> Pair<Pair<PlainReader<'w>>> {
    Pair {
        one: two(words),
        other: two(words),
    }
}
