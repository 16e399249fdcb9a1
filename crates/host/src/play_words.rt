//! The words of the programs that play against a server, or mount it, and what they say.

pub mod mfs;
pub mod mfssim;
pub mod mount;
