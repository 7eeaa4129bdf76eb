use crate::cells::{Cells, cells_of, count_changes, is_some};
use crate::image::{CELLS, Image};
use crate::met::{Met, Turn};
use crate::search::{cell_number, fits, lowest_place, meets_own, use_cells};
use crate::small::{CLASS_NUMBERS, SELECTOR_NUMBERS, class, selector};
use dt_definitions::{Arity, Program};
use dt_trials::Fault;
use std::alloc::Global;

// A selector as it is placed.
#[derive(Clone, Copy)]
struct Placed {
    // How many arguments it takes; 0 where it isn't live.
    arity: u8,
    // The words of its cells.
    cells: Cells,
    // Its place + 1; 0 where it has none.
    word: u32,
}

/// The placing of the selectors of a small program, by a plain search.
#[derive(Drop)]
pub struct Placing {
    // So many cells lie between a place and the next: 2,048 where a place is a colour, 1 where it is a displacement.
    width: u32,
    // In the order of their numbers.
    selectors: [Placed; 12],
    // Of each cell the number of the selector that uses it + 1, or 0.
    users: Vec<u16>,
}

// The place word of a selector in its turn, and what becomes of it: it has no place where it needs no cell; it keeps the one
// that it has where it fits there; else it gets the lowest.
fn choose(users: &[u16], width: u32, user: u16, old: &Placed, needed: &Cells) -> (u32, Turn) {
    if !is_some(needed) {
        let turn = if old.word == 0 {
            Turn::Nowhere
        } else {
            Turn::Went
        };
        return (0, turn);
    }
    let lowest = lowest_place(users, width, user, needed);
    let word = lowest.saturating_add(1);
    if old.word == 0 {
        return (word, Turn::Came);
    }
    if fits(users, width, user, needed, old.word.saturating_sub(1)) {
        let is_above = word < old.word;
        return (old.word, Turn::Stayed { is_above });
    }
    let is_over_own = meets_own(users, width, user, needed, lowest);
    (word, Turn::Moved { is_over_own })
}

// The turn of a selector: its place is decided, its old cells are unused, and its cells are used.
fn take_turn(
    users: &mut Vec<u16>,
    width: u32,
    user: u16,
    old: &Placed,
    needed: &Cells,
) -> (u32, Turn) {
    let (word, turn) = choose(users, width, user, old, needed);
    use_cells(users, width, 0, &old.cells, old.word.saturating_sub(1));
    use_cells(users, width, user, needed, word.saturating_sub(1));
    (word, turn)
}

// Follows a selector: it has a turn where a class answers it otherwise than before.
fn follow_selector(
    users: &mut Vec<u16>,
    width: u32,
    program: &Program,
    number: u16,
    placed: &mut Placed,
    met: &mut Met,
) {
    let needed = cells_of(program, number);
    let changes = count_changes(&placed.cells, &needed);
    if changes == 0 {
        return;
    }
    let user = number.saturating_add(1);
    let (word, turn) = take_turn(users, width, user, placed, &needed);
    placed.cells = needed;
    placed.word = word;
    met.add_turn(turn);
    met.changes = met.changes.saturating_add(changes);
}

// Follows how many arguments a selector takes.
fn follow_arity(program: &Program, number: u16, placed: &mut Placed, met: &mut Met) {
    let arity = program.arity(selector(number)).map_or(0, Arity::number);
    if arity != placed.arity && arity != 0 && placed.arity != 0 {
        met.arities = met.arities.saturating_add(1);
    }
    placed.arity = arity;
}

// Lays the cells of a selector at its place.
fn lay_cells(image: &mut Image, width: u32, place: u32, cells: &Cells) {
    for index in 0..12usize {
        if cells[index] != 0 {
            image.set_cell(
                cell_number(width, place, CLASS_NUMBERS[index]),
                cells[index],
            );
        }
    }
}

// Lays the words of a selector.
fn lay_selector(image: &mut Image, width: u32, number: u16, placed: &Placed) {
    let at = u32::from(number);
    image.set_head(4096 + at, u64::from(placed.arity));
    image.set_head(8192 + at, u64::from(placed.word));
    lay_cells(image, width, placed.word.saturating_sub(1), &placed.cells);
}

/// Lays the words of the classes.
pub fn lay_classes(image: &mut Image, program: &Program) {
    for number in CLASS_NUMBERS {
        if program.is_live(class(number)) {
            image.set_head(u32::from(number), 1);
        }
    }
}

impl Placing {
    /// No selector has a place, and there is no cell before [`Placing::fill`].
    pub fn new(alloc: Global, width: u32) -> Placing {
        let none = Placed {
            arity: 0,
            cells: [0; 12],
            word: 0,
        };
        Placing {
            width,
            selectors: [none; 12],
            users: Vec::new(alloc),
        }
    }

    /// The cells come, all unused.
    pub fn fill(&mut self, alloc: Global) -> Result<(), Fault> {
        self.users = vec![in alloc; 0; CELLS]?;
        Ok(())
    }

    /// Follows the program: selectors that some class answers otherwise than before have their turns, in ascending order.
    pub fn follow(&mut self, program: &Program, met: &mut Met) {
        let width = self.width;
        let users = &mut self.users;
        for index in 0..12usize {
            let placed = &mut self.selectors[index];
            follow_arity(program, SELECTOR_NUMBERS[index], placed, met);
            follow_selector(users, width, program, SELECTOR_NUMBERS[index], placed, met);
        }
    }

    /// Lays the words of the selectors.
    pub fn lay(&self, image: &mut Image) {
        for index in 0..12usize {
            lay_selector(
                image,
                self.width,
                SELECTOR_NUMBERS[index],
                &self.selectors[index],
            );
        }
    }
}
