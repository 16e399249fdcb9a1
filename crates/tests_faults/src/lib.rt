//! Runs with faults at every place of a schedule, each run out; and what becomes of damaged images, and of boot
//! sectors, scripts and schedules of drawn bytes.
#![tactic(auto)]

#[cfg(test)]
mod all_right;
#[cfg(test)]
mod drawn;
#[cfg(test)]
mod images;
#[cfg(test)]
mod inputs;
#[cfg(test)]
mod pairs;
#[cfg(test)]
mod replies;
#[cfg(test)]
mod singles;
