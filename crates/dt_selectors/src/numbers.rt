ghost use Rattle.std.specs.Prelude.{◌≡◌, ℕ, ◌<◌, ◌≤◌};
ghost use Rattle.std.specs.Option.{SomeIff};
ghost use Rattle.dt_selectors.specs.declared.limits.TheConstants.{BODIES, SELECTORS};

use crate::limits::SELECTORS;
use std::marker::Model;

/// The number of a selector, below [`SELECTORS`].
#[derive(Clone, Copy, Debug, PartialEq, Eq, PartialOrd, Ord)]
pub struct SelNo {
    number: u16,
}

impl Model for SelNo {
    ghost use Rattle.std.specs.Prelude.{ℕ, ◌<◌};
    ghost use Rattle.dt_selectors.specs.declared.limits.TheConstants.{SELECTORS};

    ghost Value = { ℕ };

    ghost view = { λ s. s.number };

    ghost invariant = { λ s. s.number < SELECTORS };

    ghost inverse = { λ n. record { number = n } };
}

impl Default for SelNo {
    // The selector of the number 0.
    fn default() -> SelNo
        ensures { result ≡ 0 }
    {
        SelNo { number: 0 }
    }
}

impl SelNo {
    /// The selector of this number; `None` exactly where the number is [`SELECTORS`] or more.
    pub fn new(number: u16) -> Option<SelNo>
        ensures { SomeIff result (number < SELECTORS) number }
    {
        if number < SELECTORS {
            Some(SelNo { number })
        } else {
            None
        }
    }

    /// The number, from 0 to 4,095.
    pub fn number(self) -> u16
        ensures value { result ≡ self }
        ensures in_range { result < SELECTORS }
    {
        self.number
    }

    // The selector of a number in range.
    pub(crate) fn from_index(index: usize) -> SelNo
        requires { index < SELECTORS }
        ensures { result ≡ index }
    {
        SelNo {
            number: index as u16,
        }
    }
}

/// The number of a body, any `u16`. A body is what answers a send; here it is a number alone.
#[derive(Clone, Copy, Debug, PartialEq, Eq, PartialOrd, Ord)]
pub struct BodyNo {
    number: u16,
}

impl Model for BodyNo {
    ghost use Rattle.std.specs.Prelude.{ℕ, ◌<◌};
    ghost use Rattle.dt_selectors.specs.declared.limits.TheConstants.{BODIES};

    ghost Value = { ℕ };

    ghost view = { λ b. b.number };

    ghost invariant = { λ b. b.number < BODIES };

    ghost inverse = { λ n. record { number = n } };
}

impl Default for BodyNo {
    // The body of the number 0.
    fn default() -> BodyNo
        ensures { result ≡ 0 }
    {
        BodyNo { number: 0 }
    }
}

impl BodyNo {
    /// The body of this number.
    pub fn new(number: u16) -> BodyNo
        ensures { result ≡ number }
    {
        BodyNo { number }
    }

    /// The number, any `u16`.
    pub fn number(self) -> u16
        ensures value { result ≡ self }
        ensures in_range { result < BODIES }
    {
        self.number
    }
}

/// How many arguments a selector takes, from 1 to 4.
#[derive(Clone, Copy, Debug, PartialEq, Eq, PartialOrd, Ord)]
pub struct Arity {
    number: u8,
}

impl Model for Arity {
    ghost use Rattle.std.specs.Prelude.{ℕ, ◌<◌, ◌≤◌};

    ghost Value = { ℕ };

    ghost view = { λ a. a.number };

    ghost invariant = { λ a. (0 < a.number) × (a.number ≤ 4) };

    ghost inverse = { λ n. record { number = n } };
}

impl Arity {
    /// The arity of this number; `None` exactly where the number isn't from 1 to 4.
    pub fn new(number: u8) -> Option<Arity>
        ensures { SomeIff result ((0 < number) × (number ≤ 4)) number }
    {
        if 0 < number && number <= 4 {
            Some(Arity { number })
        } else {
            None
        }
    }

    /// The number, from 1 to 4.
    pub fn number(self) -> u8
        ensures value { result ≡ self }
        ensures in_range { (0 < result) × (result ≤ 4) }
    {
        self.number
    }
}
