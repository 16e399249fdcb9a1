//! What programs ask of the machine they run on: the words of their command lines, files read at once, files replaced whole or not at all.
#![tactic(auto)]

pub mod command_line;
pub mod frames;
pub mod play_words;
pub mod sparse;
mod version;
pub mod volume_words;
pub mod whole_file;
mod words;
