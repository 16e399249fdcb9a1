//! Tests of texts: of calls, schedules and scripts, every kind of line, and lines that can't be read; of errors, replies, outcomes, flags
//! and transcripts, and of writers that fail. Each expected value is the format's or docs/PROGRAMS.md's, or worked out by hand.
#![tactic(auto)]

#[cfg(test)]
mod calls;
#[cfg(test)]
mod outcomes;
#[cfg(test)]
mod outputs;
#[cfg(test)]
mod refusals;
#[cfg(test)]
mod replies;
#[cfg(test)]
mod schedules;
#[cfg(test)]
mod scripts;
#[cfg(test)]
mod transcripts;
