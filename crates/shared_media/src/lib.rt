//! The media that the drivers of one volume share: they write in its partition alone, and what may have changed is marked.
#![tactic(auto)]

pub mod confined;
mod edition;
pub mod laws;
