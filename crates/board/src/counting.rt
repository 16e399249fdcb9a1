//! The link of a service, which counts on the board what goes over another link; and what that needs: the record's seat, and the
//! numbers of the sessions.

pub mod keeper;
pub mod parameters;
pub mod recorder;
mod recording_link;
pub mod steady;
pub mod written;

pub use recording_link::RecordingLink;
