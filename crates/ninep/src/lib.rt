//! The messages of 9P2000.L, by which Linux mounts a file server over a stream: what their bytes say, and the bytes that say them.
#![tactic(auto)]

pub mod entries;
pub mod fault;
mod fields;
pub mod names;
mod reader;
pub mod reading;
pub mod reply;
pub mod request;
mod requests;
pub mod write_refusal;
pub mod writing;
