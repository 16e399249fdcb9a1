//! Orders of a service's threads that a number draws: who goes on, what two sessions call, which drivers fail; and what has to come of it.
#![tactic(auto)]

mod plan;
mod served;
pub mod trial;
mod watched;
