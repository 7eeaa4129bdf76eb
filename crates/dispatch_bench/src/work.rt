use crate::mix::{Mix, code_of};
use dt_definitions::{Batch, BatchFault, ClassGraph, ClassNo, Edit, Program};
use dt_scratch::{Query, resolve};
use dt_trials::{Fault, is_applied};
use std::alloc::Global;

// Applies a batch. Where it is refused the program is as it was.
fn step_batch(program: &mut Program, batch: &Batch) -> Result<(), Fault> {
    match program.apply_batch(batch) {
        Ok(()) => Ok(()),
        Err(BatchFault::Refused { .. }) => Ok(()),
        Err(BatchFault::NoMemory) => Err(Fault::NoMemory),
    }
}

// Applies the batches in order.
fn step_batches(program: &mut Program, batches: &[Batch]) -> Result<(), Fault> {
    for batch in batches {
        step_batch(program, batch)?;
    }
    Ok(())
}

/// The program that these batches make.
pub fn load(alloc: Global, batches: &[Batch]) -> Result<Program, Fault> {
    let mut program = Program::new(alloc)?;
    step_batches(&mut program, batches)?;
    Ok(program)
}

/// Applies the edits in order, and answers how many were accepted.
pub fn apply_all(program: &mut Program, edits: &[Edit]) -> Result<u32, Fault> {
    let mut accepted: u32 = 0;
    for edit in edits {
        if is_applied(program, edit)? {
            accepted = accepted.saturating_add(1);
        }
    }
    Ok(accepted)
}

/// Resolves the queries in order; the mix takes each reply in.
pub fn resolve_all(program: &Program, queries: &[Query], mix: &mut Mix) {
    for query in queries {
        mix.add(code_of(resolve(program, query)));
    }
}

/// Asks for each pair whether its first class is below its second, and answers how many are.
pub fn count_below(graph: &ClassGraph, pairs: &[(ClassNo, ClassNo)]) -> usize {
    pairs
        .iter()
        .filter(|pair| graph.is_below(pair.0, pair.1))
        .count()
}
