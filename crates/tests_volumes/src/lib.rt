//! Tests of volumes: of superblocks, of inodes' bytes, of new volumes, and of the check's findings on a small volume; of the programs'
//! words, and of what is written of volumes that are made and checked, with which status. Each expected value is taken from the format's
//! tables or docs/PROGRAMS.md, or worked out by hand.
#![tactic(auto)]

#[cfg(test)]
mod findings;
#[cfg(test)]
mod images;
#[cfg(test)]
mod inodes;
#[cfg(test)]
mod made;
#[cfg(test)]
mod new_volumes;
#[cfg(test)]
mod refusals;
#[cfg(test)]
mod superblocks;
#[cfg(test)]
mod verified;
#[cfg(test)]
mod words;
#[cfg(test)]
mod writers;
#[cfg(test)]
mod zeros;
