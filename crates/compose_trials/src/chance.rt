//! Pseudo-random numbers, which are the same again for the same seed (SplitMix64, by Steele, Lea
//! and Flood).

/// A sequence of numbers.
#[derive(Clone, Copy, Drop)]
pub struct Chance {
    state: u64,
}

impl Chance {
    /// Starts the sequence of a seed.
    pub fn new(seed: u64) -> Chance {
        Chance { state: seed }
    }

    /// Returns the next number.
    pub fn next(&mut self) -> u64 {
        self.state = self.state.wrapping_add(0x9e37_79b9_7f4a_7c15);
        let first = (self.state ^ (self.state >> 30)).wrapping_mul(0xbf58_476d_1ce4_e5b9);
        let second = (first ^ (first >> 27)).wrapping_mul(0x94d0_49bb_1331_11eb);
        second ^ (second >> 31)
    }

    /// Returns a number below this one; 0 if that is 0.
    pub fn below(&mut self, end: usize) -> usize {
        let next = self.next() >> 1;
        (next as usize).checked_rem(end).unwrap_or(0)
    }

    /// Whether an event happens that has a chance of one in this number.
    pub fn once_in(&mut self, times: usize) -> bool {
        self.below(times) == 0
    }
}
