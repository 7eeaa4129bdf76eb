ghost use Rattle.std.specs.Prelude.{◌≡◌, ◌<◌, ◌∷◌, length};
ghost use Rattle.dt_script.specs.Lines.{lines_of};

use crate::cut::cut;

/// The first line of the bytes, without its line feed, and the bytes after it. There is a byte at least.
pub fn first_line(bytes: &[u8]) -> (&[u8], &[u8])
    requires { 0 < length bytes.now }
    ensures lines { lines_of bytes.now ≡ result.0.now ∷ lines_of result.1.now }
    ensures shorter { length result.1.now < length bytes.now }
{
    let (line, rest) = cut(bytes, b'\n');
    match rest {
        Some(rest) => (line, rest),
        None => (line, &[]),
    }
}
