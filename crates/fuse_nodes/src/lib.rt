//! What a mount by FUSE knows: nodes, by the numbers by which the kernel names them, and handles, by theirs.
#![tactic(auto)]

pub mod handles;
pub mod laws;
pub mod names;
pub mod node;
pub mod nodes;
