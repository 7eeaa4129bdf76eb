ghost use Rattle.std.specs.Prelude.{◌≡◌, ◌<◌, ◌≤◌, ◌^◌};
ghost use Rattle.dt_fit.specs.Geometry.{width_of, cell_limit};
ghost use Rattle.dt_fit.specs.Cells.{bit_of};
ghost use Rattle.dt_fit.specs.Bits.{step_of};

/// How a table numbers the cells of its rows. A row has an index for each class that it has a cell for, below 2,048; at the
/// place `p` the cell of the index `i` is `width * p + i`, counted from the begin of the table.
#[derive(Clone, Copy, Debug, PartialEq, Eq)]
pub enum Geometry {
    /// A place is a colour below 4,096, with 2,048 cells of its own: the width is 2,048.
    Colours,
    /// A place is a displacement below 2^26 in one array, in which rows lie over one another: the width is 1.
    Displacements,
}

impl Geometry {
    /// How many cells lie between a place and the next.
    pub fn width(self) -> u32
        ensures { result ≡ width_of self }
    {
        match self {
            Geometry::Colours => 2048,
            Geometry::Displacements => 1,
        }
    }

    // Cells are below this number.
    pub(crate) fn cell_limit(self) -> u32
        ensures { result ≡ cell_limit self }
    {
        match self {
            Geometry::Colours => 2048 * 4096,
            Geometry::Displacements => 1 << 27,
        }
    }

    // The bit of a cell: the places of an index are neighbours.
    pub(crate) fn bit_of(self, cell: u32) -> usize
        requires { cell < cell_limit self }
        ensures value { result ≡ bit_of self cell }
        ensures in_range { result < 2 ^ 27 }
    {
        let cell = cell as usize;
        match self {
            Geometry::Colours => 4096 * (cell % 2048) + cell / 2048,
            Geometry::Displacements => cell,
        }
    }

    // So many bits lie between those of neighbouring indexes.
    pub(crate) fn step(self) -> usize
        ensures value { result ≡ step_of self }
        ensures in_range { result ≤ 4096 }
    {
        match self {
            Geometry::Colours => 4096,
            Geometry::Displacements => 1,
        }
    }
}
