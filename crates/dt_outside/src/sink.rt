ghost use Rattle.std.specs.Prelude.{◌≡◌, ℕ, ◌<◌, ◌≤◌, List, Option, length, IfOk};
ghost use Rattle.std.specs.Io.{WritesAtMost};
ghost use Rattle.std.specs.Io.KnownBytes.{WriteAppends};
ghost use Rattle.dt_outside.specs.Faults.{last_count, IsCounted};

use crate::source::Failed;

/// What bytes go to.
pub trait Sink {
    /// The bytes that were taken, where the sink tells them.
    ghost taken: { Self → Option (List ℕ) };

    /// How often the sink failed, at most 2^64 - 1; that count rises no more.
    ghost faults: { Self → ℕ };

    /// Takes bytes from the front of the piece, and answers how many, at least one.
    ///
    /// # Errors
    ///
    /// [`Failed`] where the sink failed: the count of faults has risen by one, and nothing was taken. It stands as it was
    /// after every other call.
    fn put(&mut self, piece: &[u8]) -> Result<usize, Failed>
        requires { 0 < length piece.now }
        ensures bound { WritesAtMost result piece.now }
        ensures some { IfOk result (λ count. 0 < count) }
        ensures bytes { WriteAppends (taken self.old) (taken self.new) result piece.now }
        ensures counted { IsCounted result (faults self.old) (faults self.new) }
        ensures counts { faults self.old ≤ faults self.new }
        ensures in_range { faults self.new ≤ last_count };
}
