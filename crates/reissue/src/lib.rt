//! Requests that are issued again to each new driver until they are answered good over their whole range, over any link.
//!
//! At most sixteen are pending, in the order of their ids: what is asked for, what is left of it, and what it comes to.
#![tactic(auto)]

pub mod ask;
pub mod link;
pub mod list_link;
pub mod pending;
pub mod queue;
pub mod table;
pub mod transfers;

pub use ask::{Ask, BeginRefusal, Settled, Ticket};
pub use link::{Link, LinkRefusal};
pub use transfers::Transfers;
