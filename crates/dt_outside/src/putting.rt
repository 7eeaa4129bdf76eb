ghost use Rattle.std.specs.Prelude.{◌≡◌, ℕ, ◌<◌, ◌≤◌, length, OnOk};
ghost use Rattle.std.specs.Io.KnownBytes.{Appends};
ghost use Rattle.dt_outside.specs.Faults.{IsCounted};
ghost use Rattle.dt_outside.specs.Putting.{AppendsPrefix};

use crate::sink::Sink;
use crate::source::Failed;

/// Puts a text, piece by piece. It takes no memory, and calls the sink at most once for each byte.
///
/// # Errors
///
/// [`Failed`] where the sink failed; it took a prefix of the text then, and isn't called again.
pub fn put_all<K: Sink>(sink: &mut K, text: &[u8]) -> Result<(), Failed>
    ensures ok { OnOk result (Appends (K.taken sink.old) (K.taken sink.new) text.now) }
    ensures prefix { AppendsPrefix (K.taken sink.old) (K.taken sink.new) text.now }
    ensures counted { IsCounted result (K.faults sink.old) (K.faults sink.new) }
    ensures counts { K.faults sink.old ≤ K.faults sink.new }
{
    let mut at = 0;
    while at < text.len() {
        at += sink.put(&text[at..])?;
    }
    Ok(())
}
