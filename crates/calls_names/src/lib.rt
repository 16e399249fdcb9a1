//! The client calls `unlink`, `rmdir` and `link`, over any blocks: what each asks of its paths, whether there is room for the name, and
//! the call. No memory is taken.
//!
//! The client calls `open`, `mkdir` and `symlink`, over any blocks: a descriptor more, for a node that is there or for a file that is
//! made; a new directory; a new symbolic link. No memory is taken.
#![tactic(auto)]

mod asking;
mod directories;
mod files;
mod linking;
pub mod named;
mod opening;
mod readying;
mod removing;
mod symlinks;
mod vacant;

pub use directories::mkdir;
pub use files::{make_file, put_file};
pub use linking::link;
pub use opening::open;
pub use removing::{rmdir, unlink};
pub use symlinks::symlink;
pub use vacant::free_number;
