//! Frames: the blocks of a volume in memory, read and written by requests of one block each.
//!
//! Slots say which block stands where, which of its bytes are the disk's, and which slot goes next. A call ends early, cut, where the
//! link ends or the device is given up.
#![tactic(auto)]

pub mod cache;
mod frame;
mod index;
pub mod laws;
pub mod refusals;
mod settling;
mod shape;
mod slot;
mod state;
mod table;
mod tournament;
mod uses;

pub use block_store::Cut;
pub use cache::Cache;
pub use frame::Frame;
pub use refusals::CacheRefusal;
pub use settling::{Took, is_end, settle};
pub use shape::Shape;
pub use slot::{Slot, zeros};
pub use state::State;
pub use table::Slots;
