use crate::figures::Thousandths;
use dt_graph::NoMemory;
use std::alloc::Global;
use std::io;

/// What a figure is of a time and a number of operations.
#[derive(Clone, Copy)]
pub enum Unit {
    /// Nanoseconds for each operation.
    Nanoseconds,
    /// Milliseconds for all.
    Milliseconds,
    /// Millions of operations in a second.
    Rate,
}

/// The figures of one metric: ours, those of the plain words, and how often the time of these goes into ours.
#[derive(Drop)]
pub struct Rows {
    unit: Unit,
    ours: Vec<u64>,
    plain: Vec<u64>,
    ratios: Vec<u64>,
}

impl Unit {
    // The word that is printed.
    fn word(self) -> &'static str {
        match self {
            Unit::Nanoseconds => "ns",
            Unit::Milliseconds => "ms",
            Unit::Rate => "million/s",
        }
    }

    // The figure in thousandths.
    fn figure(self, nanoseconds: u64, operations: u32) -> u64 {
        let count = u64::from(operations.max(1));
        match self {
            Unit::Nanoseconds => nanoseconds.saturating_mul(1000) / count,
            Unit::Milliseconds => nanoseconds / 1000,
            Unit::Rate => count * 1_000_000 / nanoseconds.max(1),
        }
    }
}

// Prints a line of the median, the least and the greatest, if there is a figure.
fn print_line(rt: &impl Print, metric: &str, unit: &str, figures: &mut [u64]) -> io::Result<()> {
    if figures.is_empty() {
        return Ok(());
    }
    figures.sort_unstable();
    let median = Thousandths {
        count: figures[figures.len() / 2],
    };
    let least = Thousandths { count: figures[0] };
    let greatest = Thousandths {
        count: figures[figures.len() - 1],
    };
    println!(rt; "versions | {metric} | {unit} | {median} | {least} | {greatest}")
}

impl Rows {
    /// No figure.
    pub fn new(alloc: Global, unit: Unit) -> Rows {
        Rows {
            unit,
            ours: Vec::new(alloc),
            plain: Vec::new(alloc),
            ratios: Vec::new(alloc),
        }
    }

    /// One more round: what so many operations took, and what the same of plain words.
    pub fn put(&mut self, ours: u64, plain: u64, operations: u32) -> Result<(), NoMemory> {
        self.ours.push(self.unit.figure(ours, operations))?;
        self.plain.push(self.unit.figure(plain, operations))?;
        self.ratios.push(ours.saturating_mul(1000) / plain.max(1))?;
        Ok(())
    }

    /// Prints a line of ours, one of the plain words, and one of the ratios.
    pub fn print(&mut self, rt: &impl Print, metric: &str) -> io::Result<()> {
        print_line(rt, metric, self.unit.word(), &mut self.ours)?;
        print_line(rt, metric, "plain", &mut self.plain)?;
        print_line(rt, metric, "ratio", &mut self.ratios)
    }
}
