//! Replies, sessions and transcripts as text: how a reply is shown, a line for each answer of a session, a line for each mark of a
//! record.
#![tactic(auto)]

pub mod answers;
mod line;
pub mod mark;
pub mod outcomes;
pub mod text;
pub mod write;
