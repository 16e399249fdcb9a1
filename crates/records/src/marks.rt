//! The record of a file server: its marks, when they are well formed, what they say of the disk, and what a link was told.

pub mod laws;

/// Why a driver is replaced.
#[derive(Clone, Copy, Debug, PartialEq, Eq)]
pub enum Cause {
    /// It ended.
    Exit,
    /// It missed its heartbeats.
    Hung,
    /// The file server complained of an answer.
    Complaint,
}
