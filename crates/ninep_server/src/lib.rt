//! A connection of 9P2000.L: each message is answered by calls of sessions, and by what the connection knows of its fids and users.
#![tactic(auto)]

mod attach;
mod attributes;
mod begin;
pub mod connection;
mod creation;
mod listing;
mod making;
mod naming;
mod opening;
mod transfer;
mod turn;
mod walk;
mod work;
