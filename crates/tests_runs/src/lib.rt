//! Tests of runs of schedules: transcripts, while drivers die, hang, answer late, badly or too little, and are given up; what the media
//! hold after writes; and runs that aren't begun, or whose transcript can't be written. `compared` makes the runs, and compares what came
//! of them with what a test wants. Each expected value is taken from a format or worked out by hand.
#![tactic(auto)]

mod compared;
#[cfg(test)]
mod evicted;
#[cfg(test)]
mod faults;
#[cfg(test)]
mod largest;
#[cfg(test)]
mod pauses;
#[cfg(test)]
mod reads;
#[cfg(test)]
mod refusals;
#[cfg(test)]
mod runs;
#[cfg(test)]
mod supplies;
#[cfg(test)]
mod writers;
#[cfg(test)]
mod writes;
