ghost use Rattle.dt_cells.specs.Following.{ImagesAreDetermined};
ghost use Rattle.dt_cells.specs.Serving.{CellsFollow, BlankServes, ShownServes, ServesAfter, NoneIsStrayAfter, RestStays};

use crate::kind::TableKind;
use dt_scratch::law_of_cells;

/// What holds of every kind of table. The empty image serves the empty program. Where a reading shows the cells of
/// a lawful program and has its class words and selector words, look-up over it gives the program's replies; and
/// the changes of a batch, staged over it, make of it one that gives the new program's. The premise on stray place words
/// is kept from batch to batch. The words after a batch are determined by those before it. It does nothing: a caller whose
/// reasoning needs this calls it.
pub fn law_of_kinds<K: TableKind>()
    ensures blank { BlankServes K.kind }
    ensures shown { ShownServes K.kind }
    ensures after { ServesAfter K.kind }
    ensures strays { NoneIsStrayAfter K.kind }
    ensures rest { RestStays K.kind }
    ensures determined { ImagesAreDetermined K.kind }
{
    law_of_cells();
}

/// What is held after the differences of two lawful programs is what the new program understands. It does nothing: a
/// caller whose reasoning needs this calls it.
pub fn cells_follow()
    ensures { CellsFollow }
{
    law_of_cells();
}
