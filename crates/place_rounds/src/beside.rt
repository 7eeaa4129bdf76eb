use crate::image::{ADDRESSES, Image, count_words};
use crate::indexed::lay_indexed;
use crate::met::Met;
use crate::parts::Parts;
use crate::placing::{Placing, lay_classes};
use crate::rows::Rows;
use crate::rules::{Rules, Singles};
use dt_definitions::Program;
use dt_pages::Tree;
use dt_trials::Fault;
use std::alloc::Global;

/// What a table is held against: a program of its own, a plain placing, and the words that these make.
#[derive(Drop)]
pub struct Beside {
    rules: Rules,
    /// The program.
    pub program: Program,
    placed: Placed,
    parts: Parts,
    image: Image,
}

// The placing of selectors of one argument, and of rows in the master array.
#[derive(Drop)]
struct Placed {
    placing: Placing,
    rows: Rows,
}

// Nothing has a place.
fn nothing_placed(alloc: Global, rules: &Rules) -> Placed {
    let width = match rules.singles {
        Singles::Placed { width } => width,
        _ => 1,
    };
    Placed {
        placing: Placing::new(alloc, width),
        rows: Rows::new(alloc, rules.least),
    }
}

// Whether the selectors of one argument have cells of their own, and the others rows in the master array.
fn is_pair(rules: &Rules) -> bool {
    rules.least == 2
}

// Whether the selectors of one argument have places.
fn is_placed(rules: &Rules) -> bool {
    matches!(rules.singles, Singles::Placed { .. })
}

impl Beside {
    // A program with nowhere to place anything.
    fn of(alloc: Global, rules: &Rules, program: Program) -> Beside {
        Beside {
            rules: *rules,
            program,
            placed: nothing_placed(alloc, rules),
            parts: Parts::new(),
            image: Image::new(alloc, &rules.blocks),
        }
    }

    /// The empty program, and nowhere to place anything before [`Beside::fill`].
    pub fn new(alloc: Global, rules: &Rules) -> Result<Beside, Fault> {
        let program = Program::new(alloc)?;
        Ok(Beside::of(alloc, rules, program))
    }

    /// All cells and words come, none of them used.
    pub fn fill(&mut self, alloc: Global) -> Result<(), Fault> {
        self.placed.placing.fill(alloc)?;
        self.placed.rows.fill(alloc)?;
        self.image.fill(alloc)
    }

    /// The program of a table stands here, too.
    pub fn take_back(&mut self, program: &Program) -> Result<(), Fault> {
        self.program = program.copy()?;
        Ok(())
    }

    /// The placing follows the program.
    pub fn follow(&mut self, met: &mut Met) {
        if is_placed(&self.rules) {
            self.placed.placing.follow(&self.program, met);
        }
        if self.rules.least <= 4 {
            self.placed.rows.follow(&self.program, &mut met.rows);
        }
        if is_pair(&self.rules) {
            self.parts
                .follow(&self.program, &self.placed.rows, &mut met.rows);
        }
    }

    // Lays all words, and no other.
    fn lay(&mut self) {
        self.image.clear();
        lay_classes(&mut self.image, &self.program);
        match self.rules.singles {
            Singles::Placed { .. } => self.placed.placing.lay(&mut self.image),
            Singles::Indexed => lay_indexed(&mut self.image, &self.program),
            Singles::Along => {}
        }
        if self.rules.least <= 4 {
            self.placed.rows.lay(&mut self.image);
        }
    }

    /// Holds each word of the table against what it is to be.
    pub fn hold(&mut self, tree: &Tree, met: &mut Met) {
        self.lay();
        let wrong = self.image.count_wrong(tree);
        met.add_words(self.image.count(), wrong);
    }

    /// Holds how many words are set, at all addresses, against how many are to be.
    pub fn hold_count(&self, tree: &Tree, met: &mut Met) {
        let wrong = count_words(tree).abs_diff(self.image.count_set());
        met.add_words(ADDRESSES, wrong);
    }
}
