//! The open files of all sessions, and the descriptors that lead to them: those of the file tree.
#![tactic(auto)]

mod free;
pub mod laws;
mod opened;
mod table;

pub use table::Descriptors;
