use crate::batch::Batch;
use crate::program::Program;
use crate::two_programs::TwoPrograms;

// Whatever crosses threads has to be shown so where the type stands.
fn is_shared<T: Send + Sync>(_value: &T) {}

pub(crate) fn are_shared(batch: &Batch, program: &Program, two: &TwoPrograms) {
    is_shared(batch);
    is_shared(program);
    is_shared(two);
}
