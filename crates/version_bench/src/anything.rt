use dt_gate::Meaning;

/// A meaning by which every image shows every history: the words alone are timed.
pub struct Anything;

impl Meaning for Anything {
    ghost use Rattle.dt_gate.specs.WrongMachines.{anything};

    type Item = u64;

    ghost shows = { anything };
}
