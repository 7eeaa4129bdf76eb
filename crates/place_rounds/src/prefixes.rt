use crate::small::CLASS_NUMBERS;
use dt_scratch::Query;

/// How many lists of up to four classes a small program has. Their numbers are in the order of their lengths, and in
/// ascending order for one length: the empty list has 0, and what continues a list with number `n` by a class has
/// `12 n + 1` and the 11 numbers after it.
pub const LISTS: usize = 22_621;

/// Those of up to three classes have lower numbers. Each may be the prefix of a row.
pub const PREFIXES: usize = 1885;

/// From where to where the numbers of the prefixes of one length go, the longest first.
pub const LONGEST_FIRST: [(usize, usize); 4] = [(157, 1885), (13, 157), (1, 13), (0, 1)];

/// The number of the list with the last class left out.
pub fn without_last(list: usize) -> usize {
    list.saturating_sub(1) / 12
}

/// The number of the first list that continues this one.
pub fn first_longer(list: usize) -> usize {
    list.saturating_mul(12).saturating_add(1)
}

/// How many classes there are in the list with this number.
pub fn length_of(list: usize) -> u8 {
    match list {
        0 => 0,
        1..=12 => 1,
        13..=156 => 2,
        157..=1884 => 3,
        _ => 4,
    }
}

// The last class of the list with this number.
fn last_of(list: usize) -> u16 {
    CLASS_NUMBERS[list.saturating_sub(1) % 12]
}

/// The query of the selector and the list with this number.
pub fn query_of(selector: u16, list: usize) -> Option<Query> {
    let fourth = last_of(list);
    let third_list = without_last(list);
    let third = last_of(third_list);
    let second_list = without_last(third_list);
    let second = last_of(second_list);
    let first = last_of(without_last(second_list));
    match length_of(list) {
        1 => Query::new(selector, &[fourth]),
        2 => Query::new(selector, &[third, fourth]),
        3 => Query::new(selector, &[second, third, fourth]),
        _ => Query::new(selector, &[first, second, third, fourth]),
    }
}
