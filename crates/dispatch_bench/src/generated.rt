use crate::size::Size;
use dt_definitions::{Batch, BodyNo, ClassNo, Edit, SelNo, Tuple};
use dt_outside::SureSource;
use dt_script::{CALLERS, Phase, Script, ScriptFault, make_script, read_script};
use dt_trials::Fault;
use std::alloc::Global;
use std::mem;

/// A generated program.
#[derive(Drop)]
pub struct Generated {
    /// Its size.
    pub size: Size,
    /// The batches that make it: its classes, then its selectors, then its definitions.
    pub batches: Vec<Batch>,
}

// Why a script wasn't read. A generated text is always a script, so that it is want of memory.
fn fault_of(fault: ScriptFault) -> Fault {
    match fault {
        ScriptFault::NoMemory => Fault::NoMemory,
        _ => Fault::Outside,
    }
}

// The script that the text is.
fn read_text(alloc: Global, text: Vec<u8>) -> Result<Script, Fault> {
    let mut source = SureSource::new(text);
    match read_script(alloc, &mut source, CALLERS) {
        Ok(script) => Ok(script),
        Err(fault) => Err(fault_of(fault)),
    }
}

// Takes the batches of the first phase.
fn take_batches(alloc: Global, phases: &mut [Phase]) -> Vec<Batch> {
    match phases.first_mut() {
        Some(phase) => mem::replace(&mut phase.edits, Vec::new(alloc)),
        None => Vec::new(alloc),
    }
}

// The batches that make the generated program of this number and size.
fn make_batches(alloc: Global, number: u32, size: Size) -> Result<Vec<Batch>, Fault> {
    let text = make_script(alloc, number, size.classes, size.selectors)?;
    let mut script = read_text(alloc, text)?;
    Ok(take_batches(alloc, &mut script.phases))
}

// The edit of this number, from 0, among those of all batches.
fn edit_of(batches: &[Batch], number: u32) -> Option<&Edit> {
    let mut left = number;
    for batch in batches {
        if left < batch.len() {
            return batch.edit(left + 1);
        }
        left -= batch.len();
    }
    None
}

impl Generated {
    /// The program that the script of this number and size makes before its calls.
    pub fn new(alloc: Global, number: u32, size: Size) -> Result<Generated, Fault> {
        let batches = make_batches(alloc, number, size)?;
        Ok(Generated { size, batches })
    }

    /// The first parent of the class, as it is added.
    pub fn first_parent(&self, class: ClassNo) -> Option<ClassNo> {
        match edit_of(&self.batches, u32::from(class.number()))? {
            Edit::AddClass { parents, .. } => parents.classes().first().copied(),
            _ => None,
        }
    }

    /// The definition of this number, from 0, as it is made.
    pub fn definition(&self, number: u16) -> Option<(SelNo, Tuple, BodyNo)> {
        let before = u32::from(self.size.classes) + u32::from(self.size.selectors);
        match edit_of(&self.batches, before + u32::from(number))? {
            Edit::Define {
                selector,
                classes,
                body,
            } => Some((*selector, *classes, *body)),
            _ => None,
        }
    }
}
