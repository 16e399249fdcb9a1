//! How a file server comes to stand on a volume: what it starts on (media, the volume's place, drivers that are ready), the volume checked
//! where it lies, or read through a link and checked, and a server opened on it; or why not.
#![tactic(auto)]

pub mod checking;
pub mod in_place;
pub mod laws;
pub mod mounted;
pub mod opening;
pub mod prepared;
pub mod refusal;
pub mod whole;

pub use checking::read_volume;
pub use in_place::check_volume;
pub use prepared::{Prepared, prepare};
pub use refusal::StartRefusal;
pub use whole::{MountRefusal, sizes};

// passed on, for who opens one
pub use fsck::Clean;
pub use vfs::Server;
