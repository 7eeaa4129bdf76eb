ghost use Rattle.dt_definitions.specs.Program.{empty_program};
ghost use Rattle.dt_propagate.specs.Limits.{AreSizesOf};

/// At most how many cells and rows a program has. They are kept from edit to edit, so that an edit needn't count anew;
/// they may be more than there are, and are exact where they were counted.
#[derive(Clone, Copy, Debug, PartialEq, Eq)]
pub struct Sizes {
    /// No more cells are understood.
    pub cells: u64,
    /// There are no more rows.
    pub rows: u64,
}

impl Sizes {
    /// Those of the empty program.
    pub fn none() -> Sizes
        ensures { AreSizesOf empty_program result }
    {
        Sizes { cells: 0, rows: 0 }
    }
}
