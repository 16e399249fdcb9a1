//! A volume that is mounted: a service on it, whose sessions answer the messages of a stream.
#![tactic(auto)]

pub mod handing;
pub mod killed;
pub mod mortal;
pub mod mount;
pub mod program;
pub mod sessions;
pub mod starting;
pub mod teller;
pub mod telling_gate;
