//! Client calls that look at the attributes of one node or change them, or that are of the whole volume, over any blocks: what each does
//! to a volume is what it does to the file tree that the volume holds.
//!
//! A body asks the refusals of its call in their order before it changes anything. It may be cut off; what would be read back then isn't
//! known. It answers `Unsound` only where the volume holds no tree.
#![tactic(auto)]

mod attributes;
pub mod found;
pub mod last;
mod links;
pub mod named;
mod open_files;
mod whole;

pub use attributes::{chmod, chown, stat, utime};
pub use links::{lstat, readlink};
pub use open_files::{dup, fstat};
pub use whole::{statfs, sync};
