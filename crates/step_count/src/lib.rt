//! A count of steps, by which contracts bound the work of a function.
#![tactic(auto)]

ghost use Rattle.std.specs.Prelude.{◌≡◌, ℕ, ◌+◌, ◌%◌, ◌^◌};

use std::marker::Model;

/// How many steps were taken, 0 to 2^64 - 1. Only a tick changes it.
///
/// A function whose work is bounded takes it as its last argument and ticks once for each step; what a step is there, its own comment
/// says. Its contract says how many it may take at most. A caller that counts nothing hands in a new one.
#[derive(Debug, Drop)]
pub struct Steps {
    count: u64,
}

impl Model for Steps {
    ghost Value = { ℕ };

    ghost view = { λ s. s.count };
}

impl Steps {
    /// No step was taken yet.
    pub fn new() -> Steps
        ensures { result ≡ 0 }
    {
        Steps { count: 0 }
    }

    /// One step more. Behind 2^64 - 1 comes 0: no run gets there.
    #[inline]
    pub fn tick(&mut self)
        ensures { self.new ≡ (self.old + 1) % 2 ^ 64 }
    {
        self.count = self.count.wrapping_add(1);
    }

    /// Takes over as many steps as another count has.
    #[inline]
    pub fn add(&mut self, other: &Steps)
        ensures { self.new ≡ (self.old + other.now) % 2 ^ 64 }
    {
        self.count = self.count.wrapping_add(other.count);
    }

    /// How many steps were taken.
    pub fn count(&self) -> u64
        ensures { result ≡ self.now }
    {
        self.count
    }
}
