//! Numbers at random.

/// Numbers at random, by a linear congruential generator.
#[derive(Drop)]
pub struct Random {
    pub state: u32,
}

impl Random {
    /// A number below the bound; 0 where that is 0.
    pub fn below(&mut self, bound: u32) -> u32 {
        self.state = self
            .state
            .wrapping_mul(1_664_525)
            .wrapping_add(1_013_904_223);
        if bound == 0 {
            return 0;
        }
        (self.state >> 16) % bound
    }
}
