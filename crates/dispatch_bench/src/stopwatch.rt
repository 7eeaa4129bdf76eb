use crate::figures::{cost, nanoseconds};
use crate::metric::Metric;
use crate::table::Table;
use dt_trials::Fault;
use std::rt::Clock;
use std::time::Instant;

/// A time that has begun, or that couldn't.
#[derive(Clone, Copy)]
pub struct Stopwatch {
    start: Option<Instant>,
}

impl Stopwatch {
    /// The time begins.
    pub fn start(rt: &impl Clock) -> Stopwatch {
        match Instant::now(rt) {
            Ok(start) => Stopwatch { start: Some(start) },
            Err(_) => Stopwatch { start: None },
        }
    }

    /// How many nanoseconds have gone by.
    pub fn nanoseconds(self, rt: &impl Clock) -> Result<u64, Fault> {
        match self.start {
            Some(start) => Ok(nanoseconds(start.elapsed(rt)?)),
            None => Err(Fault::Outside),
        }
    }

    /// Puts what each of so many operations took into the table. Where there are none there is no figure.
    pub fn stop(self, rt: &impl Clock, table: &mut Table, metric: Metric, operations: u32) {
        let time = self.nanoseconds(rt);
        match time {
            Ok(time) => put_cost(table, metric, time, operations),
            Err(fault) => table.fail(fault),
        }
    }
}

/// Puts what each of so many operations took into the table, of which all took this time. Where there are none there is no
/// figure.
pub fn put_cost(table: &mut Table, metric: Metric, nanoseconds: u64, operations: u32) {
    if operations != 0 {
        let unit = metric.unit().nanoseconds();
        table.put(metric, cost(nanoseconds, unit, operations));
    }
}
