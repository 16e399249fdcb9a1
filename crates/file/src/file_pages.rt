//! The pages of files: their zones found side by side, their bytes read, and written one page at a time; and the size and the times
//! of an inode.

pub mod changing;
pub mod reading;
pub mod rows;
pub mod writing;
