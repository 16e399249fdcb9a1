//! What a program that runs schedules does, from the bytes that it reads to those that it prints, and its status.
#![tactic(auto)]

pub mod inputs;
pub mod show;
pub mod simulate;

// passed on, for tests of runs
pub use world;
pub use world::transcript;
