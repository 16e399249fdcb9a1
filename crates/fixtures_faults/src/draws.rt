//! Numbers that are drawn, the same ones for each seed.

use rand_core::utils::NextWord;
use rand_pcg::Pcg32;

/// A source of numbers.
#[derive(Drop)]
pub struct Draws(Pcg32);

impl Draws {
    /// The source of a seed.
    pub fn new(seed: u64) -> Draws {
        Draws(Pcg32::new(seed, 1))
    }

    /// A number below this one; 0 below 0.
    pub fn below(&mut self, end: u32) -> u32 {
        self.0.next_word() % end.max(1)
    }

    /// A place in so many bytes or events, or 0.
    pub fn place(&mut self, end: usize) -> usize {
        self.below(u32::try_from(end).unwrap_or(0)) as usize
    }

    /// A byte.
    pub fn byte(&mut self) -> u8 {
        u8::try_from(self.below(256)).unwrap_or(0)
    }

    /// Whether one of so many cases comes.
    pub fn one_in(&mut self, cases: u32) -> bool {
        self.below(cases) == 0
    }
}
