use dt_pages::Tree;
use dt_trials::Fault;
use std::alloc::Global;

/// Addresses are below this number.
pub const ADDRESSES: u32 = 1 << 27;

/// The cells begin here.
pub const CELLS_BEGIN: u32 = 1 << 24;

/// The master array begins here.
pub const MASTER_BEGIN: u32 = 1 << 26;

/// The cells of a small program are fewer than these, in each of both regions.
pub const CELLS: usize = 32_768;

/// Which blocks of 2,048 cells are looked at, where the cells of all selectors stand one after another: the first.
pub const FIRST_BLOCKS: [u32; 16] = [0, 1, 2, 3, 4, 5, 6, 7, 8, 9, 10, 11, 12, 13, 14, 15];

// So many cells are a block.
const BLOCK: usize = 2048;

// The words of classes and selectors and the place words end here.
const HEADS: usize = 12_288;

/// Which words an image is to have, where those of a small program stand: the words of classes and selectors and the place
/// words, some blocks of the cells of one receiver, and the first cells of the master array.
#[derive(Drop)]
pub struct Image {
    blocks: [u32; 16],
    heads: Vec<u64>,
    cells: Vec<u64>,
    master: Vec<u64>,
}

// So many zeros take the place of these words.
fn set_zeros(alloc: Global, words: &mut Vec<u64>, count: usize) -> Result<(), Fault> {
    *words = vec![in alloc; 0; count]?;
    Ok(())
}

// How many of the words, from this address on, the tree has otherwise.
fn count_wrong(tree: &Tree, first: u32, words: &[u64]) -> u32 {
    let mut wrong: u32 = 0;
    let mut at = first;
    for word in words {
        if at >= ADDRESSES || tree.word(at) != *word {
            wrong = wrong.saturating_add(1);
        }
        at = at.saturating_add(1);
    }
    wrong
}

// How many of the words in these blocks of cells the tree has otherwise.
fn count_wrong_cells(tree: &Tree, blocks: &[u32; 16], words: &[u64]) -> u32 {
    let mut wrong: u32 = 0;
    let mut begin: usize = 0;
    for block in blocks {
        let end = begin.saturating_add(BLOCK);
        let first = CELLS_BEGIN.saturating_add(block.saturating_mul(BLOCK as u32));
        if let Some(part) = words.get(begin..end) {
            wrong = wrong.saturating_add(count_wrong(tree, first, part));
        }
        begin = end;
    }
    wrong
}

// All words are 0.
fn clear(words: &mut Vec<u64>) {
    for word in words {
        *word = 0;
    }
}

/// How many words of the tree are set, at all its addresses.
pub fn count_words(tree: &Tree) -> u32 {
    let mut count: u32 = 0;
    for at in 0..ADDRESSES {
        if tree.word(at) != 0 {
            count = count.saturating_add(1);
        }
    }
    count
}

impl Image {
    /// There is no word before [`Image::fill`], and these blocks of cells are looked at.
    pub fn new(alloc: Global, blocks: &[u32; 16]) -> Image {
        Image {
            blocks: *blocks,
            heads: Vec::new(alloc),
            cells: Vec::new(alloc),
            master: Vec::new(alloc),
        }
    }

    /// All words come, each 0.
    pub fn fill(&mut self, alloc: Global) -> Result<(), Fault> {
        set_zeros(alloc, &mut self.heads, HEADS)?;
        set_zeros(alloc, &mut self.cells, CELLS)?;
        set_zeros(alloc, &mut self.master, CELLS)
    }

    /// All words are 0 again.
    pub fn clear(&mut self) {
        clear(&mut self.heads);
        clear(&mut self.cells);
        clear(&mut self.master);
    }

    /// The word of a class or a selector, or a place word.
    pub fn set_head(&mut self, at: u32, word: u64) {
        if let Some(place) = self.heads.get_mut(at as usize) {
            *place = word;
        }
    }

    /// The word of this cell of the master array.
    pub fn set_master(&mut self, cell: usize, word: u64) {
        if let Some(place) = self.master.get_mut(cell) {
            *place = word;
        }
    }

    /// The word of the cell of this number, in the order of the blocks.
    pub fn set_cell(&mut self, cell: usize, word: u64) {
        if let Some(place) = self.cells.get_mut(cell) {
            *place = word;
        }
    }

    /// How many words it has.
    pub fn count(&self) -> u32 {
        (HEADS + CELLS + CELLS) as u32
    }

    /// How many of its words the tree has otherwise.
    pub fn count_wrong(&self, tree: &Tree) -> u32 {
        let heads = count_wrong(tree, 0, &self.heads);
        let cells = count_wrong_cells(tree, &self.blocks, &self.cells);
        let master = count_wrong(tree, MASTER_BEGIN, &self.master);
        heads.saturating_add(cells).saturating_add(master)
    }

    /// How many words are set.
    pub fn count_set(&self) -> u32 {
        let heads = count_set(&self.heads);
        let cells = count_set(&self.cells);
        heads
            .saturating_add(cells)
            .saturating_add(count_set(&self.master))
    }
}

// How many words are set.
fn count_set(words: &[u64]) -> u32 {
    let mut count: u32 = 0;
    for word in words {
        if *word != 0 {
            count = count.saturating_add(1);
        }
    }
    count
}
