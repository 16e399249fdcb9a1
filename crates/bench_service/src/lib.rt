//! Measures of drivers and frames, of threads, and of client calls on a service.
#![tactic(auto)]

pub mod bench_calls;
pub mod bench_frames;
pub mod bench_threads;
