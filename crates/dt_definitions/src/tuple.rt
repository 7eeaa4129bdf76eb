ghost use Rattle.std.specs.Prelude.{◌≡◌, ◌<◌, ◌≤◌, length};
ghost use Rattle.std.specs.Option.{SomeIff};
ghost use Rattle.dt_definitions.specs.Nth.{nth};

use dt_graph::ClassNo;
use std::marker::Model;

/// One to four classes, one for each argument.
#[derive(Clone, Copy, Debug, PartialEq, Eq)]
pub struct Tuple {
    // The places from `arity` on hold the first class again.
    classes: [ClassNo; 4],
    arity: u8,
}

impl Model for Tuple {
    ghost use Rattle.std.specs.Prelude.{◌≡◌, ℕ, ◌<◌, ◌≤◌, List, length, take};
    ghost use Rattle.std.proofs.Common.{length-take-le};
    ghost use Rattle.dt_definitions.specs.TupleForm.{padded};

    ghost Value = { List ℕ };

    ghost view = { λ t. take t.arity t.classes };

    ghost invariant = { λ t. (0 < t.arity) × (t.arity ≤ 4) × (t.arity ≤ length t.classes)
        × (padded (take t.arity t.classes) ≡ t.classes) };

    ghost inverse = { λ classes. record { classes = padded classes; arity = length classes } };

    ghost inverse_ok = { λ t h i. record {
      classes = h.3 i;
      arity = length-take-le t.arity t.classes h.2 i;
    } };
}

impl Tuple {
    /// The tuple of these classes; `None` exactly where their number isn't from 1 to 4.
    pub fn new(classes: &[ClassNo]) -> Option<Tuple>
        ensures { SomeIff result ((0 < length classes.now) × (length classes.now ≤ 4)) classes.now }
    {
        let (classes, arity) = match *classes {
            [a] => ([a, a, a, a], 1),
            [a, b] => ([a, b, a, a], 2),
            [a, b, c] => ([a, b, c, a], 3),
            [a, b, c, d] => ([a, b, c, d], 4),
            _ => return None,
        };
        Some(Tuple { classes, arity })
    }

    /// How many classes there are, from 1 to 4.
    pub fn arity(&self) -> u8
        ensures value { result ≡ length self.now }
        ensures in_range { (0 < result) × (result ≤ 4) }
    {
        self.arity
    }

    /// The class at this place, from 1; `None` exactly where there is no such place.
    pub fn class(&self, place: u8) -> Option<ClassNo>
        ensures { result ≡ nth self.now place }
    {
        let place = usize::from(place).checked_sub(1)?;
        self.classes().get(place).copied()
    }

    /// The classes.
    pub fn classes(&self) -> &[ClassNo]
        ensures value { result.now ≡ self.now }
        ensures in_range { (0 < length result.now) × (length result.now ≤ 4) }
    {
        &self.classes[..self.arity as usize]
    }
}
