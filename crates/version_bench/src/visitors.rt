use std::thread::{Threads, join_mut};

/// Who looks, enters and leaves.
pub trait Visitor {
    /// So many times; how often it entered.
    fn visit(&mut self, count: u32) -> u32;
}

/// Two of them.
#[derive(Drop)]
pub struct Pair<A> {
    /// One.
    pub one: A,
    /// The other.
    pub other: A,
}

/// Two visit so many times each, in threads of their own; how often they entered in all.
pub fn visit_by_two<R: Threads + Sync, A: Visitor + Send>(
    rt: &R,
    pair: &mut Pair<A>,
    count: u32,
) -> u32 {
    let Pair { one, other } = pair;
    let (first, second) = join_mut(rt, &mut || one.visit(count), &mut || other.visit(count));
    first.wrapping_add(second)
}

/// Four do.
pub fn visit_by_four<R: Threads + Sync, A: Visitor + Send>(
    rt: &R,
    pairs: &mut Pair<Pair<A>>,
    count: u32,
) -> u32 {
    let Pair { one, other } = pairs;
    let (first, second) = join_mut(
        rt,
        &mut || visit_by_two(rt, one, count),
        &mut || visit_by_two(rt, other, count),
    );
    first.wrapping_add(second)
}
