ghost use Rattle.std.specs.Prelude.{◌≡◌, ℕ, ◌≤◌, min, take, length};

/// Copies as many bytes as there are, fit the room and are allowed to the front of the room.
pub fn copy_front(room: &mut [u8], bytes: &[u8], limit: usize) -> usize
    ensures count { result ≡ min (min (length room.old) limit) (length bytes.now) }
    ensures front { take result room.new ≡ take result bytes.now }
{
    let count = room.len().min(limit).min(bytes.len());
    room[..count].copy_from_slice(&bytes[..count]);
    count
}
