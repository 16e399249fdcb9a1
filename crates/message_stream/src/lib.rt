//! Messages of 9P from a stream, each answered on another.
#![tactic(auto)]

pub mod answering;
pub mod framing;
