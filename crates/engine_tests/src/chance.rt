//! Numbers by chance, the same in each run.
ghost use Rattle.std.specs.Prelude.{◌<◌};

// Numbers by chance.
#[derive(Debug, Drop)]
pub(crate) struct Chance {
    state: u64,
}

impl Chance {
    pub(crate) fn new() -> Chance {
        Chance { state: 0 }
    }

    // A number below the limit.
    pub(crate) fn below(&mut self, limit: u16) -> u16
        requires { 0 < limit }
        ensures { result < limit }
    {
        self.state = self
            .state
            .wrapping_mul(6_364_136_223_846_793_005)
            .wrapping_add(1_442_695_040_888_963_407);
        ((self.state >> 33) % u64::from(limit)) as u16
    }
}
