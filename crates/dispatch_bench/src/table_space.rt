ghost use Rattle.std.specs.Prelude.{◌<◌, ◌≤◌, ◌+◌};

use crate::metric::Metric;
use crate::queries::takes;
use crate::table::Table;
use dt_cells::place_address;
use dt_definitions::Program;
use dt_pages::Tree;
use dt_selectors::SELECTORS;

/// A part of a table.
#[derive(Clone, Copy)]
pub enum Region {
    /// The cells of queries of one class, whatever the kind.
    Single,
    /// The cells of the master array.
    Master,
}

impl Region {
    /// The first address of its cells.
    pub fn first(self) -> u32
        ensures { result ≤ 67108864 }
    {
        match self {
            Region::Single => 1 << 24,
            Region::Master => 1 << 26,
        }
    }

    // How many addresses are those of its cells.
    fn addresses(self) -> u32
        ensures { result ≤ 67108864 }
    {
        match self {
            Region::Single => 1 << 24,
            Region::Master => 1 << 26,
        }
    }

    /// How many of its cells there are up to the last that is not 0.
    pub fn spanned(self, tree: &Tree) -> u32
        ensures { result ≤ 67108864 }
    {
        Cells::count(tree, self).spanned
    }
}

/// The room that a table takes: its part for queries of one class, and the master array.
#[derive(Clone, Copy)]
pub struct Space {
    // The cells of queries of one class.
    single: Cells,
    // The cells of the master array.
    master: Cells,
    // The greatest place of a selector in the part for queries of one class, counted from 1; 0 where none has a place there.
    highest_single: u64,
    // The same of the master array.
    highest_master: u64,
}

// How many cells a region has.
#[derive(Clone, Copy)]
struct Cells {
    // How many cells are not 0.
    used: u32,
    // How many cells there are from the first address of the region to the last cell that is not 0.
    spanned: u32,
    ghost in_range: { spanned ≤ 67108864 },
}

impl Cells {
    // Counts the cells of a region.
    fn count(tree: &Tree, region: Region) -> Cells {
        let (first, addresses) = (region.first(), region.addresses());
        let mut used: u32 = 0;
        let mut spanned: u32 = 0;
        for number in 0..addresses {
            if tree.word(first + number) != 0 {
                used = used.saturating_add(1);
                spanned = number + 1;
            }
        }
        Cells { used, spanned }
    }
}

// The greatest place word of the selectors that take one argument, and that of the others.
fn highest_places(program: &Program, tree: &Tree) -> (u64, u64) {
    let mut one: u64 = 0;
    let mut more: u64 = 0;
    for selector in 0..SELECTORS {
        let place = tree.word(place_address(selector));
        if takes(program, selector, 1) {
            one = one.max(place);
        } else {
            more = more.max(place);
        }
    }
    (one, more)
}

// Puts the greatest place under this metric. What has no places has no line.
fn put_highest(table: &mut Table, metric: Metric, place: u64) {
    if place != 0 {
        table.put(metric, place);
    }
}

impl Space {
    /// The room that the words of this tree take, which is that of the table of this program.
    pub fn of(program: &Program, tree: &Tree) -> Space {
        let single = Cells::count(tree, Region::Single);
        let master = Cells::count(tree, Region::Master);
        let (one, more) = highest_places(program, tree);
        // Where no cell is one of queries of one class, every place is one of the master array.
        let (highest_single, highest_master) = if single.used == 0 {
            (0, one.max(more))
        } else {
            (one, more)
        };
        Space {
            single,
            master,
            highest_single,
            highest_master,
        }
    }

    /// Puts the numbers into the table. A part without places has no line for the highest.
    pub fn put(self, table: &mut Table) {
        table.put(Metric::CellsUsed, u64::from(self.single.used));
        table.put(Metric::CellsSpanned, u64::from(self.single.spanned));
        put_highest(table, Metric::HighestPlace, self.highest_single);
        table.put(Metric::MasterUsed, u64::from(self.master.used));
        table.put(Metric::MasterSpanned, u64::from(self.master.spanned));
        put_highest(table, Metric::MasterHighest, self.highest_master);
    }
}
