//! What `mkmfs` and `mfsck` do, between what they read and what they write.
#![tactic(auto)]

pub mod handing;
pub mod make;
pub mod verify;
