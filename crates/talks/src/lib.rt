//! What a protocol asks of a file server's sessions, and what it hears: calls and their answers, and the trait of who answers messages.
#![tactic(auto)]

pub mod answers;
pub mod ask;
pub mod changes;
pub mod end;
pub mod flags;
pub mod heard;
pub mod refused;
pub mod sessions;
pub mod target;
