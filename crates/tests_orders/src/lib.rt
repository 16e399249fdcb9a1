//! A hundred drawn orders of a service's threads.
#![tactic(auto)]

#[cfg(test)]
mod drawn;
#[cfg(test)]
mod judged;
