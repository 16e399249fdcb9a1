//! Tests of the messages of FUSE by their bytes, as linux/fuse.h lays them out.
#![tactic(auto)]

#[cfg(test)]
mod answers;
#[cfg(test)]
mod requests;
