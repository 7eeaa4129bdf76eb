use crate::parts::Part;

/// What became of a row that some query leads otherwise than before.
#[derive(Clone, Copy)]
pub enum RowTurn {
    /// It had no displacement, and has one.
    Came,
    /// It kept its displacement.
    Stayed {
        /// Whether there is a lower one for it.
        is_above: bool,
    },
    /// It has another displacement.
    Moved {
        /// Whether one of its cells was its own before.
        is_over_own: bool,
    },
    /// It had a displacement, and is no more.
    Went,
}

/// What was met of rows and of selectors.
#[derive(Clone, Copy, Default)]
pub struct RowsMet {
    /// The rows that came.
    pub came: u32,
    /// Those of them that had gone before.
    pub again: u32,
    /// Those that kept theirs though a cell came or went, and those of them for which there is a lower one.
    pub stayed: [u32; 2],
    /// Those that got another, and those of them that got a cell there that was their own.
    pub moved: [u32; 2],
    /// Those that went.
    pub went: u32,
    /// Displacements at which a row would have fit, but another row had them.
    pub had: u32,
    /// The selectors that took another number of arguments, of those with rows.
    pub arities: u32,
    /// The selectors that went from the first part of a pair to the second, and back.
    pub parts: [u32; 2],
    /// Those of them that had cells in the part that they left, and have cells in the other.
    pub with_cells: [u32; 2],
    /// The rows of prefixes of no class, of one, two and three that had a turn.
    pub lengths: [u32; 4],
    /// The highest displacement.
    pub highest: u32,
}

// One more of all, and of those for which something holds.
fn count(counts: &mut [u32; 2], holds: bool) {
    let [all, some] = *counts;
    let more = u32::from(holds);
    *counts = [all.saturating_add(1), some.saturating_add(more)];
}

impl RowsMet {
    /// Takes in what became of a row.
    pub fn add_turn(&mut self, turn: RowTurn) {
        match turn {
            RowTurn::Came => self.came = self.came.saturating_add(1),
            RowTurn::Stayed { is_above } => count(&mut self.stayed, is_above),
            RowTurn::Moved { is_over_own } => count(&mut self.moved, is_over_own),
            RowTurn::Went => self.went = self.went.saturating_add(1),
        }
    }

    /// Takes in that a row of so many classes had a turn.
    pub fn add_length(&mut self, length: u8) {
        let [none, one, two, three] = self.lengths;
        self.lengths = match length {
            0 => [none.saturating_add(1), one, two, three],
            1 => [none, one.saturating_add(1), two, three],
            2 => [none, one, two.saturating_add(1), three],
            _ => [none, one, two, three.saturating_add(1)],
        };
    }

    /// Takes in how many arguments a selector took before and takes now, where so many or more give it rows.
    pub fn add_arity(&mut self, least: u8, before: u8, now: u8) {
        if before == 0 || now == 0 || before == now {
            return;
        }
        let [forth, back] = self.parts;
        match (before >= least, now >= least) {
            (true, true) => self.arities = self.arities.saturating_add(1),
            (false, true) => self.parts = [forth.saturating_add(1), back],
            (true, false) => self.parts = [forth, back.saturating_add(1)],
            (false, false) => {}
        }
    }

    /// Takes in the parts in which a selector had cells before and has cells now.
    pub fn add_part(&mut self, before: Part, now: Part) {
        let [forth, back] = self.with_cells;
        match (before, now) {
            (Part::First, Part::Second) => self.with_cells = [forth.saturating_add(1), back],
            (Part::Second, Part::First) => self.with_cells = [forth, back.saturating_add(1)],
            _ => {}
        }
    }
}
