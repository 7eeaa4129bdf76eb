ghost use Rattle.std.specs.Prelude.{◌≡◌, ℕ, ◌≤◌};
ghost use Rattle.dt_outside.specs.Faults.{last_count};

use crate::sink::Sink;
use crate::source::Failed;
use std::io::Write;

/// A sink over a writer of std. It tells what the writer tells, which standard output doesn't. A writer that takes nothing
/// counts as one that failed.
#[derive(Debug, Drop)]
pub struct StdSink<T> {
    inner: T,
    faults: u64,
    ghost in_range: { faults ≤ last_count },
}

impl<T: Write> StdSink<T> {
    /// A sink that writes to this writer.
    pub fn new(inner: T) -> StdSink<T>
        ensures taken { ⟦<StdSink<T> as Sink>⟧.taken result ≡ T.contents inner }
        ensures faults { ⟦<StdSink<T> as Sink>⟧.faults result ≡ 0 }
    {
        StdSink { inner, faults: 0 }
    }
}

impl<T: Write> Sink for StdSink<T> {
    ghost taken = { λ s. T.contents s.inner };

    ghost faults = { λ s. s.faults };

    fn put(&mut self, piece: &[u8]) -> Result<usize, Failed> {
        match self.inner.write(piece) {
            Ok(count) if count > 0 => Ok(count),
            _ => {
                self.faults = self.faults.saturating_add(1);
                Err(Failed)
            }
        }
    }
}
