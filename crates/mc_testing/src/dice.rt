//! Random numbers for tests: the same seed always draws the same numbers.
ghost use Rattle.std.specs.Prelude.{◌<◌};

/// A linear congruential generator of 64 bits. Draws use its upper 31 bits.
#[derive(Drop)]
pub struct Dice {
    state: u64,
}

impl Dice {
    /// Makes dice that start at this seed.
    pub fn new(seed: u64) -> Dice {
        Dice { state: seed }
    }

    /// Draws a number below `many`, which is at least 1.
    pub fn below(&mut self, many: u64) -> u64
        requires { 0 < many }
        ensures { result < many }
    {
        self.state = self
            .state
            .wrapping_mul(6_364_136_223_846_793_005)
            .wrapping_add(1_442_695_040_888_963_407);
        (self.state >> 33) % many
    }
}
