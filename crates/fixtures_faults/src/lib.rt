//! Schedules with faults put in, each run out: events are added, and it is run again, until nothing is left to do. What is wrong then is
//! said. And the small volume with one byte changed (`damaged`).
#![tactic(auto)]

pub mod damaged;
pub mod drawn;
pub mod draws;
pub mod places;
pub mod requests;
pub mod run_out;
pub mod schedules;
pub mod settings;
pub mod standing;
pub mod trial;
