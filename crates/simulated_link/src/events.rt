//! What the events of a schedule do to the drivers of a run, to the media under them, and to the reincarnation server over them.

pub mod laws;
pub mod ruling;
pub mod stage;
