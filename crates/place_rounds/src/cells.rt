use crate::small::CLASS_NUMBERS;
use dt_definitions::Program;
use dt_scratch::{Answer, Query, Reply, resolve};

/// The words of a selector's cells, in the order of the classes of a small program; 0 where the class doesn't understand
/// it.
pub type Cells = [u64; 12];

/// The selector number + 1, by which a cell is known.
pub fn tag_of(selector: u16) -> u64 {
    u64::from(selector) + 1
}

// The answer to a query, by look-up from scratch.
fn answer(program: &Program, query: &Query) -> Answer {
    match resolve(program, query) {
        Reply::Answered { answer } => answer,
        _ => Answer::NotUnderstood,
    }
}

// The code of an answer, 0 where the query isn't understood.
fn code(answer: Answer) -> u64 {
    match answer {
        Answer::Method { body } => u64::from(body.number()) + 2,
        Answer::Ambiguous => 1,
        Answer::NotUnderstood => 0,
    }
}

/// The code of the answer to a query, 0 where it isn't understood.
pub fn code_of(program: &Program, query: &Query) -> u64 {
    code(answer(program, query))
}

// The word of the cell of a class.
fn cell_word(program: &Program, selector: u16, class: u16) -> u64 {
    let code = match Query::new(selector, &[class]) {
        Some(query) => code_of(program, &query),
        None => 0,
    };
    if code == 0 {
        return 0;
    }
    (tag_of(selector) << 32) | code
}

/// The words of the cells of a selector in this program.
pub fn cells_of(program: &Program, selector: u16) -> Cells {
    let mut cells = [0; 12];
    for index in 0..12usize {
        cells[index] = cell_word(program, selector, CLASS_NUMBERS[index]);
    }
    cells
}

/// How many cells differ.
pub fn count_changes(old: &Cells, new: &Cells) -> u32 {
    let mut changes: u32 = 0;
    for index in 0..12usize {
        if old[index] != new[index] {
            changes = changes.saturating_add(1);
        }
    }
    changes
}

/// Whether some class understands the selector.
pub fn is_some(cells: &Cells) -> bool {
    cells.iter().any(|word| *word != 0)
}
