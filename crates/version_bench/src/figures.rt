use crate::fault::Fault;
use std::fmt;
use std::rt::Clock;
use std::time::Instant;

/// A number of thousandths, written with three decimals.
#[derive(Clone, Copy)]
pub struct Thousandths {
    /// How many thousandths.
    pub count: u64,
}

impl fmt::Display for Thousandths {
    fn fmt<W: fmt::Write>(&self, f: &mut fmt::Formatter<W>) -> fmt::Result {
        let whole = self.count / 1000;
        let part = self.count % 1000;
        write!(f, "{whole}.{part:03}")
    }
}

/// How many nanoseconds have gone by since.
pub fn nanoseconds(rt: &impl Clock, start: &Instant) -> Result<u64, Fault> {
    let time = start.elapsed(rt)?;
    Ok(u64::try_from(time.as_nanos()).unwrap_or(u64::MAX))
}
