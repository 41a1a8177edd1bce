//! Numbers that are drawn, the same ones from the same seed.

/// What is drawn from: each number comes from the state, which grows by one step.
#[derive(Drop)]
pub(super) struct Dice {
    state: u64,
}

impl Dice {
    pub(super) fn new(seed: u64) -> Dice {
        Dice { state: seed }
    }

    /// Any number. The steps are those of SplitMix64.
    pub(super) fn any(&mut self) -> u64 {
        self.state = self.state.wrapping_add(0x9E37_79B9_7F4A_7C15);
        let first = (self.state ^ (self.state >> 30)).wrapping_mul(0xBF58_476D_1CE4_E5B9);
        let second = (first ^ (first >> 27)).wrapping_mul(0x94D0_49BB_1331_11EB);
        second ^ (second >> 31)
    }

    /// A number below a bound. Of 0 it is 0.
    pub(super) fn below(&mut self, bound: usize) -> usize {
        let drawn = self.any();
        usize::try_from(drawn % u64::try_from(bound.max(1)).unwrap_or(1)).unwrap_or(0)
    }

    /// Any number, as often a short one as a long one.
    pub(super) fn of_any_length(&mut self) -> u64 {
        let drawn = self.any();
        drawn >> (self.any() % 64)
    }

    /// Any byte.
    pub(super) fn byte(&mut self) -> u8 {
        u8::try_from(self.any() % 256).unwrap_or(0)
    }
}
