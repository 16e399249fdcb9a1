//! What tests of services run on, and what is done with services and their sessions, whichever server and link they have: an image, a gate,
//! drivers that note what they write, sessions that call, and a link that has ended.
#![tactic(auto)]

pub mod callers;
pub mod recording_driver;
pub mod services;
pub mod silent;
pub mod stage;
pub mod watch;
