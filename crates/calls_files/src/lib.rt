//! Client calls that read and write the bytes of files, move the places of open files, close them and list directories, over any blocks:
//! what each does to a volume is what it does to the file tree that the volume holds.
//!
//! A body asks the refusals of its call in their order before it changes anything. It may be cut off; what would be read back then isn't
//! known. It answers `Unsound` only where the volume holds no tree.
#![tactic(auto)]

mod closing;
mod dated;
mod listing;
mod reading;
mod seeking;
mod truncating;
mod writing;

pub use closing::close;
pub use listing::readdir;
pub use reading::read;
pub use seeking::seek;
pub use truncating::truncate;
pub use writing::write;
