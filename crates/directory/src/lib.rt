//! Directories: rows of entries of 64 bytes in the zones of a volume, seen as names that lead to inodes; names are looked up, added,
//! taken away and changed, over any blocks. No memory is taken.
#![tactic(auto)]

mod bytes;
mod changes;
mod entries;
pub mod entry_laws;
mod look_up;
mod positions;
mod removal;

pub use bytes::first_entries;
pub use changes::{insert, rename, replace, set_parent};
pub use entries::{ENTRY_SIZE, Placed, entry_inode, entry_name};
pub use look_up::{entry, find, parent, stands_at};
pub use positions::position;
pub use removal::remove;

// passed on, for paths
pub use file::file_pages;
