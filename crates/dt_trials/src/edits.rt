ghost use Rattle.std.specs.Prelude.{◌<◌, ◌^◌, length};

use crate::fault::Fault;
use dt_definitions::{ApplyFault, Batch, Edit, Program};

// A batch here has fewer edits. It may have many more.
const MOST: u32 = 1 << 20;

/// Whether the program accepts the edit. Where it is refused the program is as it was. [`Fault::NoMemory`] where none was
/// found.
pub fn is_applied(program: &mut Program, edit: &Edit) -> Result<bool, Fault> {
    match program.apply(edit) {
        Ok(()) => Ok(true),
        Err(ApplyFault::Refused { .. }) => Ok(false),
        Err(ApplyFault::NoMemory) => Err(Fault::NoMemory),
    }
}

/// Puts the edit last. [`Fault::NoMemory`] where none was found, [`Fault::Outside`] where the batch has 2^20 edits.
pub fn put(batch: &mut Batch, edit: Edit) -> Result<(), Fault> {
    if batch.len() >= MOST {
        return Err(Fault::Outside);
    }
    match batch.push(edit) {
        Ok(()) => Ok(()),
        Err(_) => Err(Fault::NoMemory),
    }
}
