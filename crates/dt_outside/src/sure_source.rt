ghost use Rattle.std.specs.Prelude.{◌≡◌, ℕ, ◌≤◌, Some, drop, vec_len};

use crate::copy::copy_front;
use crate::source::{Failed, Source};

/// A source in memory that tells its bytes and never fails.
#[derive(Debug, Drop)]
pub struct SureSource {
    bytes: Vec<u8>,
    at: usize,
    ghost within: { at ≤ vec_len bytes },
}

impl SureSource {
    /// A source of these bytes.
    pub fn new(bytes: Vec<u8>) -> SureSource
        ensures left { ⟦<SureSource as Source>⟧.left result ≡ Some bytes.items }
        ensures faults { ⟦<SureSource as Source>⟧.faults result ≡ 0 }
    {
        SureSource { bytes, at: 0 }
    }
}

impl Source for SureSource {
    ghost left = { λ s. Some (drop s.at s.bytes.items) };

    ghost faults = { λ _. 0 };

    fn read(&mut self, room: &mut [u8]) -> Result<usize, Failed> {
        let count = copy_front(room, &self.bytes[self.at..], room.len());
        self.at += count;
        Ok(count)
    }
}
