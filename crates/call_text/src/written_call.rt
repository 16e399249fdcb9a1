//! Client calls as words write them, with the bytes that are still to be decoded, and those of up to two words by their names.

pub mod call;
pub mod short;
