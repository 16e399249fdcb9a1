//! Scripts as text: a line for the user, and then a line for each call.

pub mod reading;
pub mod script;
pub mod script_files;
pub mod timed;
