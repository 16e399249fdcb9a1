//! Tests of requests and of frames, over a link that answers from a list: what is begun, told and settled, and what is issued again. Each
//! expected value is worked out by hand.
#![tactic(auto)]

#[cfg(test)]
mod blocks;
#[cfg(test)]
mod caches;
#[cfg(test)]
mod found;
#[cfg(test)]
mod frames;
#[cfg(test)]
mod runs;
#[cfg(test)]
mod texts;
#[cfg(test)]
mod transfers;
