//! The record of a file server: its marks, when it is well formed and legal, and what servers and sessions keep of it.
#![tactic(auto)]

pub mod legal;
pub mod marks;
