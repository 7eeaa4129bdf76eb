ghost use Rattle.std.specs.Prelude.{◌≡◌, length, IfOk};

use dt_graph::{ClassNo, NoMemory};
use std::alloc::Global;
use std::marker::Model;

/// The parents of a class, in the order that they were given.
#[derive(Debug, Drop)]
pub struct Parents {
    classes: Vec<ClassNo>,
}

impl Model for Parents {
    ghost use Rattle.std.specs.Prelude.{ℕ, List};

    ghost Value = { List ℕ };

    ghost view = { λ p. p.classes.items };
}

impl Parents {
    /// These parents in this order, however many. [`NoMemory`] where no memory was found.
    pub fn new(alloc: Global, classes: &[ClassNo]) -> Result<Parents, NoMemory>
        ensures { IfOk result (λ parents. parents ≡ classes.now) }
    {
        let classes = classes.to_vec(alloc)?;
        Ok(Parents { classes })
    }

    /// The parents.
    pub fn classes(&self) -> &[ClassNo]
        ensures { result.now ≡ self.now }
    {
        &self.classes
    }

    // Equal parents.
    pub(crate) fn copy(&self) -> Result<Parents, NoMemory>
        ensures { IfOk result (λ parents. parents ≡ self.now) }
    {
        let classes = self.classes.clone()?;
        Ok(Parents { classes })
    }
}
