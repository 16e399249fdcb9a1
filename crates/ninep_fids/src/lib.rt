//! What a connection of 9P knows: its users and fids; and the answers that it writes.
#![tactic(auto)]

pub mod answer;
pub mod checks;
pub mod entries;
pub mod faults;
pub mod fid;
pub mod fids;
pub mod flags;
pub mod knows;
pub mod laws;
pub mod paths;
pub mod send;
pub mod tag;
pub mod told;
pub mod users;
