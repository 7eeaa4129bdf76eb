ghost use Rattle.std.specs.Prelude.{◌<◌, length, IfOk};

use crate::figures::{Summary, sum_up};
use crate::metric::Metric;
use crate::mix::Mix;
use dt_graph::NoMemory;
use dt_trials::Fault;
use std::alloc::Global;
use std::io;

// Where a further line comes from: its words and unit are a variant of `Metric`; what it asks or edits is drawn once, in a
// field of `Asked`, `Edited` or `TableWork`; and each round times it, in `time_asked`, `time_edited` or a function of its own
// that `time_rounds` calls (of a graph: `graph_rounds::time_round`). A kind of edits is a variant of `EditKind`, drawn in
// `edits`. The table needs nothing: a metric has its line, in its place, from its first figure on.

// The figures of one metric, one for each round.
#[derive(Drop)]
struct Row {
    metric: Metric,
    figures: Vec<u64>,
}

/// The figures of all metrics, in the order in which the metrics were first measured, and what goes wrong on the way.
#[derive(Drop)]
pub struct Table {
    alloc: Global,
    rows: Vec<Row>,
    // What goes wrong first. It is kept until the figures are printed, so that what is timed has no way out.
    fault: Option<Fault>,
    /// What the answers of the round come to.
    pub mix: Mix,
}

// Prints a line: the name, the metric, its unit, and the median, the least and the greatest figure.
fn print_line(rt: &impl Print, name: &str, metric: Metric, summary: &Summary) -> io::Result<()> {
    let unit = metric.unit();
    let word = unit.word();
    let median = unit.figure(summary.median);
    let least = unit.figure(summary.least);
    let greatest = unit.figure(summary.greatest);
    println!(rt; "{name} | {metric} | {word} | {median} | {least} | {greatest}")
}

impl Row {
    // Prints the row, if it has a figure.
    fn print(&mut self, rt: &impl Print, name: &str) -> io::Result<()> {
        if self.figures.is_empty() {
            return Ok(());
        }
        let summary = sum_up(&mut self.figures);
        print_line(rt, name, self.metric, &summary)
    }
}

impl Table {
    /// No figure.
    pub fn new(alloc: Global) -> Table {
        Table {
            alloc,
            rows: Vec::new(alloc),
            fault: None,
            mix: Mix::new(),
        }
    }

    /// Keeps the fault, if it is the first.
    pub fn fail(&mut self, fault: Fault) {
        if self.fault.is_none() {
            self.fault = Some(fault);
        }
    }

    /// The code goes into what the answers of the round come to; a fault is kept.
    pub fn add(&mut self, code: Result<u32, Fault>) {
        match code {
            Ok(code) => self.mix.add(code),
            Err(fault) => self.fail(fault),
        }
    }

    /// A fault is kept.
    pub fn keep(&mut self, done: Result<(), Fault>) {
        if let Err(fault) = done {
            self.fail(fault);
        }
    }

    /// The round ends: what its answers come to is a figure, and the next round has none yet.
    pub fn end_round(&mut self) {
        let number = self.mix.number();
        self.put(Metric::Mix, u64::from(number));
        self.mix = Mix::new();
    }

    // The place of the metric's row, which is made where there is none.
    fn place(&mut self, metric: Metric) -> Result<usize, NoMemory>
        ensures { IfOk result (λ place. place < length self.new.rows.items) }
    {
        for (place, row) in self.rows.iter().enumerate() {
            if row.metric == metric {
                return Ok(place);
            }
        }
        let row = Row {
            metric,
            figures: Vec::new(self.alloc),
        };
        self.rows.push(row)?;
        Ok(self.rows.len() - 1)
    }

    // One more figure of the metric.
    fn push(&mut self, metric: Metric, figure: u64) -> Result<(), NoMemory> {
        let place = self.place(metric)?;
        self.rows[place].figures.push(figure)?;
        Ok(())
    }

    /// One more figure of the metric; that memory runs out is kept.
    pub fn put(&mut self, metric: Metric, figure: u64) {
        if self.push(metric, figure).is_err() {
            self.fail(Fault::NoMemory);
        }
    }

    // Prints a line for each metric.
    fn print_rows(&mut self, rt: &impl Print, name: &str) -> io::Result<()> {
        for row in &mut self.rows {
            row.print(rt, name)?;
        }
        Ok(())
    }

    /// Prints a line for each metric, or answers the fault that is kept.
    pub fn print(&mut self, rt: &impl Print, name: &str) -> Result<(), Fault> {
        if let Some(fault) = self.fault {
            return Err(fault);
        }
        self.print_rows(rt, name)?;
        Ok(())
    }
}
