//! Plays that are written as text, each against the whole service on a small volume: the replies are those of the text, and so is the
//! image that is left.
//!
//! A line `user U G` begins a session. Each line behind it is a call, after its time, with ` -> ` and its reply behind it. Three kinds of
//! lines are none of these: one that begins with `#` is a remark; behind `unchanged` nothing changes the image; and `left AT HEX` are
//! bytes of the image that is left, from a place on. Where many plays stand in one text, each has its volume on a line before it
//! (`scripted_plays`).
#![tactic(auto)]

pub mod deaths;
pub mod disks;
pub mod left;
pub mod partitions;
pub mod plays;
pub mod refusals;
pub mod said;
pub mod shelf;
pub mod texts;
pub mod writers;
