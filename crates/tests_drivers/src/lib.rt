//! Tests of media and partition tables, of drivers and scripts of faults, and of restarts. Each expected value is worked out by hand.
#![tactic(auto)]

#[cfg(test)]
mod drivers;
#[cfg(test)]
mod faults;
#[cfg(test)]
mod restarts;
#[cfg(test)]
mod roomy;
#[cfg(test)]
mod sectors;
#[cfg(test)]
mod texts;
