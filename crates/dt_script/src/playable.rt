ghost use Rattle.dt_script.specs.Playable.{ReadIsPlayable, ReadHasPhase};

/// A script that was read for a number of readers has what performing with them asks: its callers are readers, each
/// stands once in a phase, and its pins and unpins alternate. It has at least one phase. It does nothing: its contract
/// is the law.
pub fn scripts_read_are_playable()
    ensures playable { ReadIsPlayable }
    ensures phase { ReadHasPhase }
{}
