ghost use Rattle.std.specs.Prelude.{◌≡◌, ◌<◌, ◌-◌, ◌^◌};
ghost use Rattle.dt_mrd.specs.Reading.{cell_at};
ghost use Rattle.dt_mrd.specs.Placing.{displacements};
ghost use Rattle.dt_mrd.specs.Laying.{number_at};

// The master array begins here.
const CELLS: u32 = 1 << 26;

// The number of the cell of a class in the row with this tag, counted from the begin of the master array.
pub(crate) fn cell_number(tag: u32, class: u16) -> u32
    requires tag { tag - 1 < displacements }
    requires class { class < 2048 }
    ensures value { result ≡ number_at tag class }
    ensures in_range { result < 2 ^ 26 }
{
    tag.saturating_sub(1) + u32::from(class)
}

// The address of the cell of a class in the row with this tag.
pub(crate) fn cell_address(tag: u32, class: u16) -> u32
    requires tag { tag - 1 < displacements }
    requires class { class < 2048 }
    ensures value { result ≡ cell_at tag class }
    ensures in_range { result < 2 ^ 27 }
{
    CELLS + cell_number(tag, class)
}
