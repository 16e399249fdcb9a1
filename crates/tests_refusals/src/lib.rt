//! Tests of memory that is refused to what makes or reads an image, to plays and to runs; and of output that is refused. Each run is made
//! once as it is, and over an allocator that takes orders (`bin/refusals` builds one) once for each of its requests, of which that one is
//! refused.
#![tactic(auto)]

#[cfg(test)]
mod made;
#[cfg(test)]
mod migrated;
#[cfg(test)]
mod plays;
#[cfg(test)]
mod runs;
#[cfg(test)]
mod told;
#[cfg(test)]
mod trials;
#[cfg(test)]
mod writers;
