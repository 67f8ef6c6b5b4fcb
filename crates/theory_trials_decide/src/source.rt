//! Numbers by a fixed rule.

/// A linear congruence, of which the high bits are taken.
#[derive(Drop)]
pub struct Source {
    state: u32,
}

impl Source {
    pub fn new(seed: u32) -> Source {
        Source {
            state: seed.wrapping_mul(2_654_435_761),
        }
    }

    /// The next number, below 2^20.
    pub fn next(&mut self) -> u32 {
        self.state = self
            .state
            .wrapping_mul(1_664_525)
            .wrapping_add(1_013_904_223);
        self.state >> 12
    }

    /// The next number below a limit.
    pub fn below(&mut self, limit: u32) -> u32 {
        self.next().checked_rem(limit).unwrap_or(0)
    }
}
