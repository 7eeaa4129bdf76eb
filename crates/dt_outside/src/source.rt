ghost use Rattle.std.specs.Prelude.{◌≡◌, ℕ, ◌<◌, ◌≤◌, List, Option, length};
ghost use Rattle.std.specs.Io.{ReadsAtMost};
ghost use Rattle.std.specs.Io.KnownBytes.{ReadConsumes};
ghost use Rattle.dt_outside.specs.Faults.{last_count, IsCounted};

use thiserror::Error;

/// The outside failed.
#[derive(Clone, Copy, Debug, PartialEq, Eq, Error)]
#[error("the outside failed")]
pub struct Failed;

/// What bytes come from.
pub trait Source {
    /// The bytes that are still to come, where the source tells them.
    ghost left: { Self → Option (List ℕ) };

    /// How often the source failed, at most 2^64 - 1; that count rises no more.
    ghost faults: { Self → ℕ };

    /// Puts bytes at the front of the room, and answers how many; 0 is the end of input. Where the source tells
    /// what is left, they are the first bytes of that and gone from it, and 0 is answered only where nothing
    /// was left.
    ///
    /// # Errors
    ///
    /// [`Failed`] where the source failed: the count of faults has risen by one, and nothing was given. It stands as it
    /// was after every other call.
    fn read(&mut self, room: &mut [u8]) -> Result<usize, Failed>
        requires { 0 < length room.old }
        ensures bound { ReadsAtMost result room.new }
        ensures bytes { ReadConsumes (left self.old) (left self.new) result room.new }
        ensures counted { IsCounted result (faults self.old) (faults self.new) }
        ensures counts { faults self.old ≤ faults self.new }
        ensures in_range { faults self.new ≤ last_count };
}
