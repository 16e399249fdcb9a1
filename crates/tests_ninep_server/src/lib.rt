//! Tests: a connection of 9P2000.L over sessions whose outcomes are written down, message by message, by the bytes of the protocol.
#![tactic(auto)]

#[cfg(test)]
mod entries;
#[cfg(test)]
mod files;
#[cfg(test)]
mod names;
#[cfg(test)]
mod refusals;
#[cfg(test)]
mod talk;
#[cfg(test)]
mod users;
