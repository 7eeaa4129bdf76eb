ghost use Rattle.std.specs.Prelude.{◌≡◌, ℕ, ◌≤◌};
ghost use Rattle.dt_outside.specs.Faults.{last_count};

use crate::source::{Failed, Source};
use std::io::Read;

/// A source over a reader of std. It tells what the reader tells, which standard input doesn't.
#[derive(Debug, Drop)]
pub struct StdSource<T> {
    inner: T,
    faults: u64,
    ghost in_range: { faults ≤ last_count },
}

impl<T: Read> StdSource<T> {
    /// A source that reads from this reader.
    pub fn new(inner: T) -> StdSource<T>
        ensures left { ⟦<StdSource<T> as Source>⟧.left result ≡ T.remaining inner }
        ensures faults { ⟦<StdSource<T> as Source>⟧.faults result ≡ 0 }
    {
        StdSource { inner, faults: 0 }
    }
}

impl<T: Read> Source for StdSource<T> {
    ghost left = { λ s. T.remaining s.inner };

    ghost faults = { λ s. s.faults };

    fn read(&mut self, room: &mut [u8]) -> Result<usize, Failed> {
        match self.inner.read(room) {
            Ok(count) => Ok(count),
            Err(_) => {
                self.faults = self.faults.saturating_add(1);
                Err(Failed)
            }
        }
    }
}
