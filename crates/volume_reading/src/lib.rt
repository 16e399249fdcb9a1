//! Reading a range of a volume through a link, and reading pieces of a volume back once all that is pending has come.
#![tactic(auto)]

pub mod back;
pub mod place;
pub mod reading;
pub mod room;
pub mod sought;

pub use back::read_back;
pub use place::{Place, Takes};
pub use reading::{Stop, read_range};
pub use room::ReadRoom;
