use crate::rows_met::RowsMet;

/// What became of a selector that some class answers otherwise than before.
#[derive(Clone, Copy)]
pub enum Turn {
    /// It had no place, and has one.
    Came,
    /// It kept its place.
    Stayed {
        /// Whether it would fit at a lower one.
        is_above: bool,
    },
    /// It has another place.
    Moved {
        /// Whether one of its cells was its own before.
        is_over_own: bool,
    },
    /// It had a place, and has none, since no class understands it.
    Went,
    /// It had no place, and has none.
    Nowhere,
}

/// What was met.
#[derive(Clone, Copy, Default)]
pub struct Met {
    /// The batches that were committed.
    pub committed: u32,
    /// Those in which an edit was refused.
    pub refused: u32,
    /// The selectors that took another number of arguments after a batch.
    pub arities: u32,
    /// The cells that changed.
    pub changes: u32,
    /// The selectors that got a place.
    pub came: u32,
    /// Those that kept theirs though a cell changed, and those of them that would fit at a lower one.
    pub stayed: [u32; 2],
    /// Those that got another, and those of them that got a cell there that was their own.
    pub moved: [u32; 2],
    /// Those that lost theirs.
    pub went: u32,
    /// What was met of rows in the master array.
    pub rows: RowsMet,
    /// How many words were compared.
    pub compared: u64,
    /// How many of them were told wrongly.
    pub wrong: u32,
}

// One more of all, and of those for which something holds.
fn count(counts: &mut [u32; 2], holds: bool) {
    let [all, some] = *counts;
    let more = u32::from(holds);
    *counts = [all.saturating_add(1), some.saturating_add(more)];
}

impl Met {
    /// Takes in what became of a selector.
    pub fn add_turn(&mut self, turn: Turn) {
        match turn {
            Turn::Came => self.came = self.came.saturating_add(1),
            Turn::Stayed { is_above } => count(&mut self.stayed, is_above),
            Turn::Moved { is_over_own } => count(&mut self.moved, is_over_own),
            Turn::Went => self.went = self.went.saturating_add(1),
            Turn::Nowhere => {}
        }
    }

    /// Takes in how many words were compared, and how many of them were told wrongly.
    pub fn add_words(&mut self, compared: u32, wrong: u32) {
        self.compared = self.compared.saturating_add(u64::from(compared));
        self.wrong = self.wrong.saturating_add(wrong);
    }
}
