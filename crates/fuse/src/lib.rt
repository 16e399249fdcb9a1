//! The messages of FUSE, by which Linux mounts a file server over the device /dev/fuse: what their bytes say, and the bytes that say
//! answers. The protocol is 7.31, as `linux/fuse.h` has it.
#![tactic(auto)]

pub mod entries;
pub mod forgets;
pub mod opcode;
pub mod reading;
pub mod reply;
pub mod request;
mod requests;
pub mod write_refusal;
pub mod writing;
