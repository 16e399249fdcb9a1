//! A mount by FUSE: each message of the kernel is answered by calls of sessions, and by what is known of nodes and handles.
#![tactic(auto)]

mod attributes;
mod bounds;
mod descriptors;
mod files;
mod heads;
mod listing;
mod making;
pub mod mount;
mod naming;
mod plus;
mod said;
mod send;
mod serving;
mod talk;
mod told;
mod work;
mod writing;
