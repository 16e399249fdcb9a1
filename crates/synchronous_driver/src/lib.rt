//! What is asked of a driver that is run by the thread which waits for it.
#![tactic(auto)]

pub mod local;
