use crate::cells::{Cells, code_of, is_some};
use crate::prefixes::{LISTS, PREFIXES, first_longer, length_of, query_of};
use crate::small::{CLASS_NUMBERS, class, selector};
use dt_definitions::{Arity, ClassNo, Program, Tuple};

// A selector of a small program has fewer definitions.
const MANY: u32 = 2000;

// At each place of a selector's arguments, for which classes some definition is.
type Under = [[bool; 12]; 4];

// Adds the classes at or below the one that a definition names.
fn add_below(program: &Program, named: ClassNo, under: &mut [bool; 12]) {
    for index in 0..12usize {
        if program.graph().is_below(class(CLASS_NUMBERS[index]), named) {
            under[index] = true;
        }
    }
}

// Adds the classes for which a definition is.
fn add_definition(program: &Program, classes: &Tuple, under: &mut Under) {
    for index in 0..4usize {
        if let Some(named) = classes.classes().get(index) {
            add_below(program, *named, &mut under[index]);
        }
    }
}

// For which classes the selector's definitions are.
fn add_definitions(program: &Program, number: u16, under: &mut Under) {
    for place in 1..MANY {
        match program.of_selector(selector(number), place) {
            Some((classes, _body)) => add_definition(program, classes, under),
            None => break,
        }
    }
}

/// Where the code of a list of a selector stands, by the place of the selector.
pub fn code_place(selector_place: usize, list: usize) -> usize {
    selector_place.saturating_mul(LISTS).saturating_add(list)
}

/// The code that stands there.
pub fn code_at(codes: &[u64], place: usize) -> u64 {
    match codes.get(place) {
        Some(code) => *code,
        None => 0,
    }
}

// Sets it.
fn set_code(codes: &mut Vec<u64>, place: usize, code: u64) {
    if let Some(old) = codes.get_mut(place) {
        *old = code;
    }
}

/// The codes of the lists that continue this one, in the order of the classes.
pub fn codes_after(codes: &[u64], selector_place: usize, list: usize) -> Cells {
    let mut cells = [0; 12];
    let mut place = code_place(selector_place, first_longer(list));
    for word in &mut cells {
        *word = code_at(codes, place);
        place = place.saturating_add(1);
    }
    cells
}

// The code of a list: of the answer where it has as many classes as the selector takes, else 1.
fn code_of_list(program: &Program, number: u16, arity: u8, list: usize) -> u64 {
    if length_of(list) < arity {
        return 1;
    }
    match query_of(number, list) {
        Some(query) => code_of(program, &query),
        None => 0,
    }
}

// Sets the codes of the lists that continue this one by the classes for which some definition is.
fn set_after(
    program: &Program,
    numbers: (usize, u16, u8),
    list: usize,
    under: &[bool; 12],
    codes: &mut Vec<u64>,
) {
    let (selector_place, number, arity) = numbers;
    let mut longer = first_longer(list);
    for holds in under {
        if *holds {
            let code = code_of_list(program, number, arity, longer);
            set_code(codes, code_place(selector_place, longer), code);
        }
        longer = longer.saturating_add(1);
    }
}

// Sets the codes of all lists that may begin a query that is understood, and of those queries.
fn set_down(program: &Program, numbers: (usize, u16, u8), under: &Under, codes: &mut Vec<u64>) {
    let (selector_place, _number, arity) = numbers;
    for list in 0..PREFIXES {
        let length = length_of(list);
        let is_met = list == 0 || code_at(codes, code_place(selector_place, list)) != 0;
        if is_met && length < arity {
            set_after(
                program,
                numbers,
                list,
                &under[usize::from(length % 4)],
                codes,
            );
        }
    }
}

// The codes of lists that begin no query that is understood are 0 again.
fn clear_up(selector_place: usize, arity: u8, codes: &mut Vec<u64>) {
    for before in 0..PREFIXES {
        let list = (PREFIXES - 1).saturating_sub(before);
        if length_of(list) < arity && !is_some(&codes_after(codes, selector_place, list)) {
            set_code(codes, code_place(selector_place, list), 0);
        }
    }
}

// All codes are 0.
fn clear(codes: &mut Vec<u64>) {
    for code in codes {
        *code = 0;
    }
}

/// How many arguments a selector takes, 0 where it isn't live.
pub fn arity_of(program: &Program, number: u16) -> u8 {
    program.arity(selector(number)).map_or(0, Arity::number)
}

// Sets the codes of a selector's lists.
fn set_selector(program: &Program, selector_place: usize, number: u16, codes: &mut Vec<u64>) {
    let arity = arity_of(program, number);
    let mut under: Under = [[false; 12]; 4];
    add_definitions(program, number, &mut under);
    set_down(program, (selector_place, number, arity), &under, codes);
    clear_up(selector_place, arity, codes);
}

/// Sets the codes of the lists of all selectors that take so many arguments or more: of each query that is understood that
/// of its answer, of what such queries begin with a number other than 0, and of all others 0.
pub fn set_codes(program: &Program, least: u8, numbers: &[u16; 12], codes: &mut Vec<u64>) {
    clear(codes);
    let mut selector_place: usize = 0;
    for number in numbers {
        if arity_of(program, *number) >= least {
            set_selector(program, selector_place, *number, codes);
        }
        selector_place = selector_place.saturating_add(1);
    }
}
