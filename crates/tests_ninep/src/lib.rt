//! Tests of messages of 9P2000.L: by their bytes, as the protocol has them; and of those that come in pieces, are cut short, or whose
//! answers can't be written.
#![tactic(auto)]

#[cfg(test)]
mod answers;
#[cfg(test)]
mod pieces;
#[cfg(test)]
mod requests;
#[cfg(test)]
mod streams;
