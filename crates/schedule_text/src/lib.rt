//! Schedules as text: a line for each event.
#![tactic(auto)]

pub mod line;
pub mod reading;
