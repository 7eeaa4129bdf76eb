use crate::cells::{cells_of, is_some};
use crate::rows::Rows;
use crate::rows_met::RowsMet;
use crate::small::SELECTOR_NUMBERS;
use dt_definitions::Program;

/// The part of a pair in which a selector has cells.
#[derive(Clone, Copy)]
pub enum Part {
    /// None.
    Neither,
    /// That of queries of one class.
    First,
    /// That of queries of two classes and more.
    Second,
}

/// The parts in which the selectors of a small program have cells, in the order of their numbers.
#[derive(Clone, Copy)]
pub struct Parts {
    parts: [Part; 12],
}

// The part in which a selector has cells.
fn part_of(program: &Program, rows: &Rows, selector_place: usize, number: u16) -> Part {
    if rows.has_row(selector_place) {
        Part::Second
    } else if is_some(&cells_of(program, number)) {
        Part::First
    } else {
        Part::Neither
    }
}

impl Parts {
    /// No selector has cells.
    pub fn new() -> Parts {
        Parts {
            parts: [Part::Neither; 12],
        }
    }

    /// Follows the program, whose rows are these.
    pub fn follow(&mut self, program: &Program, rows: &Rows, met: &mut RowsMet) {
        for place in 0..12usize {
            let now = part_of(program, rows, place, SELECTOR_NUMBERS[place]);
            met.add_part(self.parts[place], now);
            self.parts[place] = now;
        }
    }
}
