//! The fields of a binary message: read from the left with the first fault, and put behind one another.
#![tactic(auto)]

pub mod fault;
pub mod fields;
pub mod putting;
pub mod reader;
