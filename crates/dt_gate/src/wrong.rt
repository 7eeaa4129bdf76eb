//! Machines that differ in one event, and are not sound: for each a run that shows it.

ghost use Rattle.dt_gate.specs.WrongMachines.{FreesAtOnce, LoadsThenStores, DrainsExits, EntersWithoutALook, FillsUnderAReader};

/// A publish that frees the old root at once: a reader is still inside it.
pub fn a_publish_that_frees_at_once()
    ensures { FreesAtOnce }
{}

/// A publish that loads the version word and stores it later: who entered between is not among the old root's entries.
pub fn a_publish_that_loads_then_stores()
    ensures { LoadsThenStores }
{}

/// A sweep that stores into an old root's exits: they no longer tell who has left.
pub fn a_sweep_that_drains()
    ensures { DrainsExits }
{}

/// An enter with no look before it: the entries pass every bound.
pub fn an_enter_without_a_look()
    ensures { EntersWithoutALook }
{}

/// A fill of a page that a live root reaches: a word changes under a reader.
pub fn a_fill_under_a_reader()
    ensures { FillsUnderAReader }
{}
