//! Disk drivers, each in a thread of its own, and the reincarnation server in another, which starts them and ends them.
#![tactic(auto)]

pub mod alone;
pub mod comparing;
mod driver_task;
pub mod running;
mod shared;
mod supervisor;
pub mod watch;
mod witness;
