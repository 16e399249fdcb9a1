//! Numbers that are drawn, the same ones for each seed.

/// A source of numbers.
#[derive(Clone, Copy)]
pub struct Draws(u64);

impl Draws {
    /// The source of a seed.
    pub fn new(seed: u64) -> Draws {
        Draws(seed)
    }

    // The next 64 bits, by SplitMix64.
    fn next(&mut self) -> u64 {
        self.0 = self.0.wrapping_add(0x9e37_79b9_7f4a_7c15);
        let mut bits = self.0;
        bits = (bits ^ (bits >> 30)).wrapping_mul(0xbf58_476d_1ce4_e5b9);
        bits = (bits ^ (bits >> 27)).wrapping_mul(0x94d0_49bb_1331_11eb);
        bits ^ (bits >> 31)
    }

    /// A number below this one; 0 below 0.
    pub fn below(&mut self, end: u32) -> u32 {
        let bits = self.next() >> 32;
        u32::try_from(bits % u64::from(end.max(1))).unwrap_or(0)
    }

    /// Whether one of so many cases comes.
    pub fn one_in(&mut self, cases: u32) -> bool {
        self.below(cases) == 0
    }
}
