ghost use Rattle.std.specs.Prelude.{◌≤◌};
ghost use Rattle.dt_propagate.specs.Counted.{greatest};

use dt_scratch::Change;

// The changes that were found so far, and how many steps were counted; 2^64 - 1 where they are more.
#[derive(Debug, Drop)]
pub(crate) struct Found {
    pub(crate) changes: Vec<Change>,
    pub(crate) counted: u64,
}

impl Found {
    // What holds of every such value. It does nothing: what reasons by this calls it.
    pub(crate) fn law(&self)
        ensures { self.now.counted ≤ greatest }
    {
        let _counted = self.counted;
    }
}
