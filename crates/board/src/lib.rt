//! The board of a service, which is the status words that its threads share: the tally of its record, the generation of its driver,
//! whether the device was given up, and the driver's pulse. No call waits. And the link of the service, which counts on the board what
//! goes over another link (`counting`).
//!
//! The record itself is stored nowhere: it stands in the proofs, as what the record's seat has seen, and every other seat has seen a
//! beginning of it. So does the history of a link, what it was told and what it gave (`History`): what a step adds is told by the
//! arguments of its call, so however long it grows, it takes no memory.
#![tactic(auto)]

mod board;
pub mod counting;
pub mod laws;
mod mark;
mod rule;
mod seat;
mod told;

pub use board::{Board, Device};
pub use seat::Seat;
pub use told::History;
