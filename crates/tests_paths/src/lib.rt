//! Tests of paths, of access, of open files and descriptors, of a directory's names, of walks and the places that paths mean: each
//! expected value is worked out by hand from the format and from the rules of client calls.
#![tactic(auto)]

#[cfg(test)]
mod access;
#[cfg(test)]
mod images;
#[cfg(test)]
mod links;
#[cfg(test)]
mod names;
#[cfg(test)]
mod opens;
#[cfg(test)]
mod paths;
#[cfg(test)]
mod recalled;
#[cfg(test)]
mod stops;
#[cfg(test)]
mod volumes;
#[cfg(test)]
mod walks;
