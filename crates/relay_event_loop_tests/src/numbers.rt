//! Numbers that look random.

/// Numbers that look random, from a seed (Knuth's linear congruential generator).
#[derive(Drop)]
pub(crate) struct Numbers {
    pub state: u64,
}

impl Numbers {
    /// A number below `limit`, which is not 0.
    pub fn below(&mut self, limit: u64) -> u64 {
        self.state = self
            .state
            .wrapping_mul(6_364_136_223_846_793_005)
            .wrapping_add(1_442_695_040_888_963_407);
        (self.state >> 33).checked_rem(limit).unwrap_or(0)
    }
}
