//! The client call `rename`, over any blocks: what its two paths name, what bars the move, whether there is room, and the move. No memory
//! is taken.
#![tactic(auto)]

pub mod ancestors;
mod asked;
mod barred;
mod carrying;
pub mod last_page;
mod laws;
mod moves;
mod renamed;
mod room;

pub use asked::{Asked, find_asked};
pub use barred::why_barred;
pub use laws::{found_is_asked, moves_that_fit};
pub use moves::{a_move_takes_zones, moves_are_possible};
pub use renamed::rename;
pub use room::has_room;

// passed on, for the body of each call
pub use calls_names;
