ghost use Rattle.std.specs.Prelude.{◌<◌};

/// Numbers by chance, the same in each run.
#[derive(Debug, Drop)]
pub struct Chance {
    state: u64,
}

impl Chance {
    /// The row of numbers that starts at this one.
    pub fn new(number: u64) -> Chance {
        Chance { state: number }
    }

    /// The next number, below the limit.
    pub fn below(&mut self, limit: u16) -> u16
        requires { 0 < limit }
        ensures { result < limit }
    {
        self.state = self
            .state
            .wrapping_mul(6_364_136_223_846_793_005)
            .wrapping_add(1_442_695_040_888_963_407);
        ((self.state >> 33) % u64::from(limit)) as u16
    }
}
