//! Client calls and scripts as lines of text: which words are which call, and which text is a script (`scripts`). Below both: how a text
//! falls into lines and words, and which words are numbers, bytes and flags.
#![tactic(auto)]

pub mod bytes;
pub mod call;
pub mod scripts;
pub mod words;
pub mod written_call;
