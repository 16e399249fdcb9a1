//! A gate that draws which thread of a service goes on, and sessions that do what is drawn.
#![tactic(auto)]

pub mod chooser;
pub mod deed;
pub mod deeds;
pub mod drawn;
pub mod draws;
pub mod held;
pub mod shared;
pub mod temper;
