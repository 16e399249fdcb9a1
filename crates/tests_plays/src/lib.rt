//! Tests of plays: scripts of all calls, sessions of different users, whole images and partitions, drivers that die, plays that are
//! refused, and the images that are left. Each expected value is taken from a format or worked out by hand.
#![tactic(auto)]

#[cfg(test)]
mod attributes;
#[cfg(test)]
mod boxed;
#[cfg(test)]
mod bytes;
#[cfg(test)]
mod calls;
#[cfg(test)]
mod deaths;
#[cfg(test)]
mod faults;
#[cfg(test)]
mod followed;
#[cfg(test)]
mod full;
#[cfg(test)]
mod images;
#[cfg(test)]
mod largest;
#[cfg(test)]
mod left_open;
#[cfg(test)]
mod links;
#[cfg(test)]
mod moves;
#[cfg(test)]
mod opened;
#[cfg(test)]
mod opening;
#[cfg(test)]
mod partitions;
#[cfg(test)]
mod places;
#[cfg(test)]
mod recalled;
#[cfg(test)]
mod renames;
#[cfg(test)]
mod table;
#[cfg(test)]
mod writers;
