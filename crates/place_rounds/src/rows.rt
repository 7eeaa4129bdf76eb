use crate::cells::{Cells, is_some};
use crate::image::{CELLS, Image};
use crate::prefixes::{LISTS, LONGEST_FIRST, PREFIXES, first_longer, length_of};
use crate::rows_met::{RowTurn, RowsMet};
use crate::search::{fits, meets_own, use_cells};
use crate::small::{CLASS_NUMBERS, SELECTOR_NUMBERS};
use crate::understood::{arity_of, code_at, code_place, codes_after, set_codes};
use dt_definitions::Program;
use dt_trials::Fault;
use std::alloc::Global;

// The codes of all selectors' lists, before a batch and after it.
#[derive(Drop)]
struct Codes {
    before: Vec<u64>,
    now: Vec<u64>,
}

// The master array, and the rows in it. A row is known by its number + 1, 0 is none.
#[derive(Drop)]
struct Array {
    // Of each row its displacement + 1; 0 where it has none.
    words: Vec<u16>,
    // Of each cell the row that uses it.
    users: Vec<u16>,
    // Of each displacement the row that has it.
    owners: Vec<u16>,
    // Of each row 1 where it has gone once.
    gone: Vec<u16>,
}

/// The placing of the rows of a small program's selectors, by a plain search.
#[derive(Drop)]
pub struct Rows {
    // Selectors that take so many arguments or more have rows.
    least: u8,
    // How many arguments the selectors take; 0 where they aren't live.
    arities: [u8; 12],
    codes: Codes,
    array: Array,
}

// The number of the row of a selector's prefix.
fn row_number(selector_place: usize, prefix: usize) -> usize {
    selector_place
        .saturating_mul(PREFIXES)
        .saturating_add(prefix)
}

// What stands there, or 0.
fn number_at(numbers: &[u16], place: usize) -> u16 {
    match numbers.get(place) {
        Some(number) => *number,
        None => 0,
    }
}

// Sets it.
fn set_number(numbers: &mut Vec<u16>, place: usize, number: u16) {
    if let Some(old) = numbers.get_mut(place) {
        *old = number;
    }
}

// By what the row of this number is known.
fn user_of(row: usize) -> u16 {
    row.saturating_add(1).min(60_000) as u16
}

// Of the first cells those that are needed, or aren't needed, by the second, too.
fn split_cells(first: &Cells, second: &Cells, is_needed: bool) -> Cells {
    let mut cells = *first;
    for index in 0..12usize {
        if (second[index] != 0) != is_needed {
            cells[index] = 0;
        }
    }
    cells
}

// The displacement that a word tells.
fn displacement(word: u16) -> u32 {
    u32::from(word.saturating_sub(1))
}

// Whether some cell is used before or after that wasn't or isn't then.
fn is_changed(before: &Cells, now: &Cells) -> bool {
    is_some(&split_cells(before, now, false)) || is_some(&split_cells(now, before, false))
}

impl Array {
    // The lowest displacement at which the needed cells are unused or the row's own, and which no other row has.
    fn lowest(&self, user: u16, needed: &Cells, met: &mut RowsMet) -> u16 {
        for place in 0..CELLS as u16 {
            if fits(&self.users, 1, user, needed, u32::from(place)) {
                let owner = number_at(&self.owners, usize::from(place));
                if owner == 0 || owner == user {
                    return place;
                }
                met.had = met.had.saturating_add(1);
            }
        }
        CELLS as u16
    }

    // The word that a row gets, and what becomes of it.
    fn choose(
        &self,
        row: usize,
        before: &Cells,
        needed: &Cells,
        met: &mut RowsMet,
    ) -> (u16, RowTurn) {
        let user = user_of(row);
        let old = number_at(&self.words, row);
        let is_kept = old != 0 && fits(&self.users, 1, user, needed, displacement(old));
        if is_kept && !is_changed(before, needed) {
            return (old, RowTurn::Stayed { is_above: false });
        }
        let lowest = self.lowest(user, needed, met);
        let word = lowest.saturating_add(1);
        if old == 0 {
            return (word, RowTurn::Came);
        }
        if is_kept {
            let is_above = word < old;
            return (old, RowTurn::Stayed { is_above });
        }
        let is_over_own = meets_own(&self.users, 1, user, needed, u32::from(lowest));
        (word, RowTurn::Moved { is_over_own })
    }

    // The row has this word instead of the one that it had.
    fn set_word(&mut self, row: usize, word: u16) {
        let old = number_at(&self.words, row);
        if old != 0 {
            set_number(&mut self.owners, usize::from(old.saturating_sub(1)), 0);
        }
        if word != 0 {
            set_number(
                &mut self.owners,
                usize::from(word.saturating_sub(1)),
                user_of(row),
            );
        }
        set_number(&mut self.words, row, word);
    }

    // What a row doesn't need any more is unused. It goes where it needs nothing.
    fn leave(&mut self, row: usize, before: &Cells, needed: &Cells, met: &mut RowsMet) {
        let old = number_at(&self.words, row);
        let left = split_cells(before, needed, false);
        use_cells(&mut self.users, 1, 0, &left, displacement(old));
        if !is_some(needed) {
            self.set_word(row, 0);
            set_number(&mut self.gone, row, 1);
            met.add_turn(RowTurn::Went);
        }
    }

    // The turn of a row: its displacement is decided, its old cells are unused, and its cells are used.
    fn take_turn(
        &mut self,
        row: usize,
        before: &Cells,
        needed: &Cells,
        met: &mut RowsMet,
    ) -> RowTurn {
        let (word, turn) = self.choose(row, before, needed, met);
        let old = number_at(&self.words, row);
        let own = split_cells(before, needed, true);
        if old != 0 {
            use_cells(&mut self.users, 1, 0, &own, displacement(old));
        }
        use_cells(&mut self.users, 1, user_of(row), needed, displacement(word));
        self.set_word(row, word);
        met.highest = met.highest.max(displacement(word));
        turn
    }
}

// Counts the turn of a row where a cell came or went, or it moved.
fn count_turn(
    array: &Array,
    row: usize,
    prefix: usize,
    is_other: bool,
    turn: RowTurn,
    met: &mut RowsMet,
) {
    let is_same = matches!(turn, RowTurn::Stayed { is_above: false });
    if is_same && !is_other {
        return;
    }
    met.add_turn(turn);
    met.add_length(length_of(prefix));
    if matches!(turn, RowTurn::Came) {
        met.again = met
            .again
            .saturating_add(u32::from(number_at(&array.gone, row)));
    }
}

// The rows of a selector leave what they don't need any more.
fn leave_selector(array: &mut Array, codes: &Codes, selector_place: usize, met: &mut RowsMet) {
    for prefix in 0..PREFIXES {
        let row = row_number(selector_place, prefix);
        if number_at(&array.words, row) != 0 {
            let before = codes_after(&codes.before, selector_place, prefix);
            let needed = codes_after(&codes.now, selector_place, prefix);
            array.leave(row, &before, &needed, met);
        }
    }
}

// The turn of the row of a prefix, where there is one.
fn take_prefix(
    array: &mut Array,
    codes: &Codes,
    selector_place: usize,
    prefix: usize,
    met: &mut RowsMet,
) {
    let needed = codes_after(&codes.now, selector_place, prefix);
    if !is_some(&needed) {
        return;
    }
    let row = row_number(selector_place, prefix);
    let before = codes_after(&codes.before, selector_place, prefix);
    let turn = array.take_turn(row, &before, &needed, met);
    count_turn(array, row, prefix, is_changed(&before, &needed), turn, met);
}

// The rows of the prefixes from one number to before another have their turns, in ascending order.
fn take_range(
    array: &mut Array,
    codes: &Codes,
    selector_place: usize,
    range: (usize, usize),
    met: &mut RowsMet,
) {
    let (begin, end) = range;
    for prefix in begin..end {
        take_prefix(array, codes, selector_place, prefix, met);
    }
}

// The rows of a selector have their turns: longer prefixes first, and those of one length in ascending order.
fn take_selector(array: &mut Array, codes: &Codes, selector_place: usize, met: &mut RowsMet) {
    for range in &LONGEST_FIRST {
        take_range(array, codes, selector_place, *range, met);
    }
}

// The code of a cell: of the answer, or of the displacement of the next row.
fn cell_code(array: &Array, codes: &Codes, selector_place: usize, arity: u8, list: usize) -> u64 {
    let code = code_at(&codes.now, code_place(selector_place, list));
    if code == 0 || length_of(list) >= arity {
        return code;
    }
    u64::from(number_at(&array.words, row_number(selector_place, list)))
}

// Lays the cells of a row.
fn lay_row(image: &mut Image, rows: &Rows, selector_place: usize, arity: u8, prefix: usize) {
    let word = number_at(&rows.array.words, row_number(selector_place, prefix));
    if word == 0 {
        return;
    }
    let mut list = first_longer(prefix);
    for number in CLASS_NUMBERS {
        let code = cell_code(&rows.array, &rows.codes, selector_place, arity, list);
        if code != 0 {
            let at = displacement(word).saturating_add(u32::from(number));
            image.set_master(at as usize, (u64::from(word) << 32) | code);
        }
        list = list.saturating_add(1);
    }
}

// Lays the words of a selector that has rows, where it is live.
fn lay_selector(image: &mut Image, rows: &Rows, selector_place: usize, number: u16, arity: u8) {
    let at = u32::from(number);
    image.set_head(4096 + at, u64::from(arity));
    if arity < rows.least {
        return;
    }
    let word = number_at(&rows.array.words, row_number(selector_place, 0));
    image.set_head(8192 + at, u64::from(word));
    for prefix in 0..PREFIXES {
        lay_row(image, rows, selector_place, arity, prefix);
    }
}

// So many zeros take the place of these numbers.
fn set_zeros(alloc: Global, numbers: &mut Vec<u16>, count: usize) -> Result<(), Fault> {
    *numbers = vec![in alloc; 0; count]?;
    Ok(())
}

// The code 0 for each list of each selector takes the place of these.
fn set_no_codes(alloc: Global, codes: &mut Vec<u64>) -> Result<(), Fault> {
    *codes = vec![in alloc; 0; 12 * LISTS]?;
    Ok(())
}

// No query is understood.
fn fill_codes(alloc: Global, codes: &mut Codes) -> Result<(), Fault> {
    set_no_codes(alloc, &mut codes.before)?;
    set_no_codes(alloc, &mut codes.now)
}

// No row has a displacement.
fn fill_array(alloc: Global, array: &mut Array) -> Result<(), Fault> {
    set_zeros(alloc, &mut array.words, 12 * PREFIXES)?;
    set_zeros(alloc, &mut array.users, CELLS)?;
    set_zeros(alloc, &mut array.owners, CELLS)?;
    set_zeros(alloc, &mut array.gone, 12 * PREFIXES)
}

// No code at all.
fn no_codes(alloc: Global) -> Codes {
    Codes {
        before: Vec::new(alloc),
        now: Vec::new(alloc),
    }
}

// No row and no cell at all.
fn no_array(alloc: Global) -> Array {
    Array {
        words: Vec::new(alloc),
        users: Vec::new(alloc),
        owners: Vec::new(alloc),
        gone: Vec::new(alloc),
    }
}

impl Rows {
    /// No selector has rows, and there is nowhere to place any before [`Rows::fill`]; those that take so many arguments
    /// or more may get some then.
    pub fn new(alloc: Global, least: u8) -> Rows {
        Rows {
            least,
            arities: [0; 12],
            codes: no_codes(alloc),
            array: no_array(alloc),
        }
    }

    /// The master array and the codes come, all unused.
    pub fn fill(&mut self, alloc: Global) -> Result<(), Fault> {
        fill_codes(alloc, &mut self.codes)?;
        fill_array(alloc, &mut self.array)
    }

    /// Whether a selector has rows.
    pub fn has_row(&self, selector_place: usize) -> bool {
        number_at(&self.array.words, row_number(selector_place, 0)) != 0
    }

    // Follows how many arguments the selectors take.
    fn follow_arities(&mut self, program: &Program, met: &mut RowsMet) {
        let least = self.least;
        for place in 0..12usize {
            let now = arity_of(program, SELECTOR_NUMBERS[place]);
            met.add_arity(least, self.arities[place], now);
            self.arities[place] = now;
        }
    }

    /// Follows the program: rows leave what they don't need any more, and then each row has its turn, in the order of
    /// selectors.
    pub fn follow(&mut self, program: &Program, met: &mut RowsMet) {
        self.follow_arities(program, met);
        std::mem::swap(&mut self.codes.before, &mut self.codes.now);
        set_codes(program, self.least, &SELECTOR_NUMBERS, &mut self.codes.now);
        for selector_place in 0..12 {
            leave_selector(&mut self.array, &self.codes, selector_place, met);
        }
        for selector_place in 0..12 {
            take_selector(&mut self.array, &self.codes, selector_place, met);
        }
    }

    /// Lays the words of the selectors' rows, and how many arguments all selectors take.
    pub fn lay(&self, image: &mut Image) {
        for place in 0..12usize {
            lay_selector(
                image,
                self,
                place,
                SELECTOR_NUMBERS[place],
                self.arities[place],
            );
        }
    }
}
