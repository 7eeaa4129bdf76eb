ghost use Rattle.std.specs.Prelude.{◌≡◌, ℕ, ◌+◌, ◌-◌, ◌<◌, ◌≤◌, ◌++◌, length, vec_len, Some, [], IfOk, IfSome, OnOk, IsErrOf};
ghost use Rattle.std.specs.Io.KnownBytes.{IsAtEnd, Keeps};
ghost use Rattle.dt_outside.specs.Losing.{Moves, Loses, LosesAtMost};
ghost use Rattle.dt_outside.specs.ReadCounts.{IsReadCounted};

use crate::source::Source;
use std::alloc::{AllocError, Global};
use thiserror::Error;

/// Why a source wasn't read to its end.
#[derive(Clone, Copy, Debug, PartialEq, Eq, Error)]
pub enum ReadFault {
    /// The source failed.
    #[error("the source failed")]
    Read,
    /// The source gave more bytes than the limit.
    #[error("the source gave more bytes than the limit")]
    TooLong,
    /// Memory was wanted, and none was found.
    #[error("no memory")]
    NoMemory,
}

impl From<AllocError> for ReadFault {
    ghost use Rattle.std.specs.Prelude.{◌≡◌};
    ghost use Rattle.dt_outside.specs.declared.reading.ReadFault.TheVariants.{NoMemory};

    ghost from_gives = { λ _ fault. fault ≡ NoMemory };

    fn from(_error: AllocError) -> ReadFault {
        ReadFault::NoMemory
    }
}

// How many bytes are asked for at a time.
const ROOM: usize = 65_536;

// Room for what a source gives at a time.
fn room_for_reading(alloc: Global) -> Result<Vec<u8>, AllocError>
    ensures { IfOk result (λ room. 0 < vec_len room) }
{
    vec![in alloc; 0; ROOM]
}

// Reads once, and puts what it got behind the bytes, of which there are at most `limit` before and one more after.
// Answers how many bytes it got; 0 is the end of input.
fn read_some<S: Source>(
    source: &mut S,
    room: &mut [u8],
    bytes: &mut Vec<u8>,
    limit: usize,
) -> Result<usize, ReadFault>
    requires room { 0 < length room.old }
    requires short { vec_len bytes.old ≤ limit }
    requires limit { limit < usize.MAX }
    ensures bound { vec_len bytes.new ≤ limit + 1 }
    ensures grown { IfOk result (λ count. vec_len bytes.new ≡ vec_len bytes.old + count) }
    ensures moved { OnOk result (Moves (S.left source.old) bytes.old.items (S.left source.new) bytes.new.items) }
    ensures end { result ≡ Ok 0 → IsAtEnd (S.left source.new) }
    ensures read_fault { IsErrOf result ReadFault.Read → Keeps (S.left source.old) (S.left source.new) }
    ensures not_long { IsErrOf result ReadFault.TooLong → ⊥ }
    ensures lost { LosesAtMost (limit + 1 - vec_len bytes.old) (S.left source.old) (S.left source.new) }
    ensures counted { IsReadCounted result (S.faults source.old) (S.faults source.new) }
    ensures counts { S.faults source.old ≤ S.faults source.new }
{
    let wanted = room.len().min(limit + 1 - bytes.len());
    let count = match source.read(&mut room[..wanted]) {
        Ok(count) => count,
        Err(_) => return Err(ReadFault::Read),
    };
    match bytes.extend_from_slice(&room[..count]) {
        Ok(()) => Ok(count),
        Err(_) => Err(ReadFault::NoMemory),
    }
}

/// Reads a source to its end, at most `limit` bytes. It takes memory for the bytes and for what is read at a time.
///
/// # Errors
///
/// [`ReadFault::Read`] where the source failed; it isn't read again. [`ReadFault::TooLong`] exactly where the source
/// gave byte `limit` + 1; no more is read then. The source has lost what it gave.
pub fn read_to_end<S: Source>(
    alloc: Global,
    source: &mut S,
    limit: usize,
) -> Result<Vec<u8>, ReadFault>
    requires { limit < usize.MAX }
    ensures whole { IfOk result (λ bytes. IfSome (S.left source.old) (λ left. bytes.items ≡ left)) }
    ensures end { OnOk result (IfSome (S.left source.old) (λ left. S.left source.new ≡ Some [])) }
    ensures short { IfOk result (λ bytes. vec_len bytes ≤ limit) }
    ensures too_long { IsErrOf result ReadFault.TooLong → Loses (limit + 1) (S.left source.old) (S.left source.new) }
    ensures read_fault { IsErrOf result ReadFault.Read → LosesAtMost limit (S.left source.old) (S.left source.new) }
    ensures lost { LosesAtMost (limit + 1) (S.left source.old) (S.left source.new) }
    ensures counted { IsReadCounted result (S.faults source.old) (S.faults source.new) }
    ensures counts { S.faults source.old ≤ S.faults source.new }
{
    let mut bytes = Vec::new(alloc);
    let mut room = room_for_reading(alloc)?;
    while bytes.len() <= limit {
        let count = read_some(source, &mut room, &mut bytes, limit)?;
        if count == 0 {
            return Ok(bytes);
        }
    }
    Err(ReadFault::TooLong)
}
