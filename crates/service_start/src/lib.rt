//! Starting a service of the file server on the volume of an image, whose drivers run in threads of their own: the volume is checked where
//! it lies, or mounted through the drivers, or the start is refused; and a program that runs over a service that was mounted.
#![tactic(auto)]

pub mod checked;
pub mod ending;
pub mod opened;
pub mod program;
pub mod start;

// passed on, for who starts one
pub use volume_mount;
