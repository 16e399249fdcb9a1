//! Tests of the board that a service's seats share. Each expected value is worked out by hand.
#![tactic(auto)]

#[cfg(test)]
mod seats;
