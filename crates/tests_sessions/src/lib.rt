//! Tests of a service's sessions: in turn, given up and refused; and of how services end: stopped, with a session left, while a driver hangs,
//! let go, or over a link that has ended. Each expected value is worked out by hand.
#![tactic(auto)]

#[cfg(test)]
mod ended;
#[cfg(test)]
mod endings;
#[cfg(test)]
mod left;
#[cfg(test)]
mod let_go;
#[cfg(test)]
mod programs;
#[cfg(test)]
mod read_back;
#[cfg(test)]
mod sessions;
#[cfg(test)]
mod taken;
