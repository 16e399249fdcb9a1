//! What a run came to and what is shown of it: its record, the replies that drivers sent, the drivers and the server as they stand, the
//! bytes of its media.
//!
//! A record's marks are read off what the run's link was told and gave: a message leaves a mark unless it is an End or a reply that doesn't
//! count, and a post or a complaint unless it was of no effect.
#![tactic(auto)]

pub mod bytes;
pub mod marks;
pub mod run_transcript;
pub mod shown;

pub use run_transcript::Transcript;
