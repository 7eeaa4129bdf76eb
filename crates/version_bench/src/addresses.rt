/// Addresses that look drawn, of the bits of a mask.
#[derive(Clone, Copy)]
pub struct Addresses {
    state: u64,
    mask: u64,
}

impl Addresses {
    /// The addresses of the bits of this mask, which has 24 bits at most.
    pub fn new(mask: u64) -> Addresses {
        Addresses { state: 1, mask }
    }

    /// The next one.
    pub fn draw(&mut self) -> u64 {
        self.state = self
            .state
            .wrapping_mul(6_364_136_223_846_793_005)
            .wrapping_add(1_442_695_040_888_963_407);
        (self.state >> 40) & self.mask
    }
}
