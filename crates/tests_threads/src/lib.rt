//! Tests of a service's threads: drivers and a flusher that are held, and sessions in threads of their own. Each expected value is worked
//! out by hand.
#![tactic(auto)]

#[cfg(test)]
mod at_once;
#[cfg(test)]
mod boxed;
#[cfg(test)]
mod held;
#[cfg(test)]
mod idle;
#[cfg(test)]
mod many;
#[cfg(test)]
mod no_wait;
#[cfg(test)]
mod threads;
