//! A file server over drivers that a schedule moves: events are run and calls answered, until the schedule's end.

pub mod aside;
pub mod course;
pub mod link;
pub mod run;
pub mod turns;

pub use link::{Arrival, Ran, WorldLink};
