//! Tests of the redo log and of an image file over it: crashes after every step of a commit, of its recovery and of the recovery of that,
//! and failed writes and syncs.
#![tactic(auto)]

#[cfg(test)]
mod commits;
#[cfg(test)]
mod crashes;
#[cfg(test)]
mod files;
#[cfg(test)]
mod foreign;
#[cfg(test)]
mod puts;
