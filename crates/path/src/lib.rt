//! Paths, read once; access by permissions; and the walk from a path to an inode, or to the place that a path means for a name, over any
//! blocks. Memory is taken where a cache of names is made, and nowhere else.
#![tactic(auto)]

mod access;
mod first;
mod names;
mod parts;
mod place;
mod read;
mod step;
mod stop;

pub use access::{Wish, is_owner, may};
pub use names::NameCache;
pub use parts::Parts;
pub use place::{Found, NamePlace, find_place, look_up};
pub use read::{Path, is_dot, is_dot_dot};
pub use step::walk;
pub use stop::Stop;
