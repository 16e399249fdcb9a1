//! The words of the programs that make, check and migrate a volume, and what they say: a module for each program.

pub mod mfmig;
pub mod mfsck;
pub mod mkmfs;
