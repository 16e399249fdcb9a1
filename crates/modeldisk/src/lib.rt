//! Three drivers over media in memory: one moves sectors in rising order, one in the order of an arm
//! that sweeps over the disk, and one goes wrong by a script; and one round another driver that dies once it has moved so many sectors.
//!
//! None of them takes memory once it is made.
#![tactic(auto)]

mod dies_after;
mod fault;
mod model;
mod ram;
mod scripted;
pub mod sector_mover;
pub mod supply;

pub use dies_after::DiesAfter;
pub use fault::{Fault, FaultKind};
pub use model::ModelDriver;
pub use ram::RamDriver;
pub use scripted::{Inner, ScriptedDriver};
