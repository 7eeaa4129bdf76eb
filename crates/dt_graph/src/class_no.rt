ghost use Rattle.std.specs.Prelude.{◌≡◌, ℕ, ◌<◌};
ghost use Rattle.std.specs.Option.{SomeIff};

use crate::limits::CLASSES;
use std::marker::Model;

/// The number of a class, below [`CLASSES`]. Who numbers classes by their names gives a class that is
/// dropped and added again the same number.
#[derive(Clone, Copy, Debug, PartialEq, Eq, PartialOrd, Ord)]
pub struct ClassNo {
    number: u16,
}

impl Model for ClassNo {
    ghost use Rattle.std.specs.Prelude.{ℕ, ◌<◌};
    ghost use Rattle.dt_graph.specs.declared.limits.TheConstants.{CLASSES};

    ghost Value = { ℕ };

    ghost view = { λ c. c.number };

    ghost invariant = { λ c. c.number < CLASSES };

    ghost inverse = { λ n. record { number = n } };
}

impl Default for ClassNo {
    // The class of the number 0.
    fn default() -> ClassNo
        ensures { result ≡ 0 }
    {
        ClassNo { number: 0 }
    }
}

impl ClassNo {
    /// The class of this number; `None` exactly where the number is [`CLASSES`] or more.
    pub fn new(number: u16) -> Option<ClassNo>
        ensures { SomeIff result (number < CLASSES) number }
    {
        if number < CLASSES {
            Some(ClassNo { number })
        } else {
            None
        }
    }

    /// The number, from 0 to 2,047.
    pub fn number(self) -> u16
        ensures value { result ≡ self }
        ensures in_range { result < CLASSES }
    {
        self.number
    }

    // The class of a number in range.
    pub(crate) fn from_index(index: usize) -> ClassNo
        requires { index < CLASSES }
        ensures { result ≡ index }
    {
        ClassNo {
            number: index as u16,
        }
    }
}
