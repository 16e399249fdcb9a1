//! The body of each client call, by its kind, over any blocks.
#![tactic(auto)]

mod calls;

pub use calls::body;

// passed on, for who hands one in
pub use path::NameCache;
