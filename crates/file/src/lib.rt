//! Files: the bytes of an inode, which stand in the zones of its pages.
#![tactic(auto)]

pub mod changing;
pub mod file_pages;
pub mod file_room;
pub mod laws;

pub use changing::write_at;

// passed on, for directories
pub use zone;
