//! Where what a service's sessions write is kept: behind each sync the changes of the media are put into an archive, such as an image file.
#![tactic(auto)]

pub mod ending;
pub mod file_archive;
pub mod keeper;
pub mod puts;
pub mod shared_archive;

pub use ending::Ending;
pub use file_archive::FileArchive;
pub use keeper::Keeper;
pub use puts::Archive;
pub use shared_archive::{Begins, SharedArchive};
