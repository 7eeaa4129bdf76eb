ghost use Rattle.std.specs.Prelude.{◌<◌, length};

use std::fmt;
use std::time::Duration;

/// A figure as it is written.
#[derive(Clone, Copy)]
pub enum Figure {
    /// A whole number.
    Whole { count: u64 },
    /// So many thousandths, written with three decimals.
    Thousandths { count: u64 },
}

impl fmt::Display for Figure {
    fn fmt<W: fmt::Write>(&self, f: &mut fmt::Formatter<W>) -> fmt::Result {
        match *self {
            Figure::Whole { count } => write!(f, "{count}"),
            Figure::Thousandths { count } => {
                let whole = count / 1000;
                let part = count % 1000;
                write!(f, "{whole}.{part:03}")
            }
        }
    }
}

/// What so much time is for each of so many operations, in thousandths of a unit of so many nanoseconds.
pub fn cost(nanoseconds: u64, unit: u32, operations: u32) -> u64
    requires some_time { 0 < unit }
    requires some_operation { 0 < operations }
{
    nanoseconds.saturating_mul(1000) / (u64::from(unit) * u64::from(operations))
}

/// A time in nanoseconds, or the greatest number where it is longer.
pub fn nanoseconds(time: Duration) -> u64 {
    u64::try_from(time.as_nanos()).unwrap_or(u64::MAX)
}

/// The median, the least and the greatest of the figures of some rounds.
#[derive(Clone, Copy)]
pub struct Summary {
    /// The one in the middle, or the upper one of the two.
    pub median: u64,
    /// The least.
    pub least: u64,
    /// The greatest.
    pub greatest: u64,
}

/// Sorts the figures, and sums them up.
pub fn sum_up(figures: &mut [u64]) -> Summary
    requires { 0 < length figures.old }
{
    figures.sort_unstable();
    Summary {
        median: figures[figures.len() / 2],
        least: figures[0],
        greatest: figures[figures.len() - 1],
    }
}
