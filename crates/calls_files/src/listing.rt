//! readdir: the names of an open directory, in the order of their bytes, over any blocks.

mod call;
mod gather;
mod names;

pub use call::readdir;
