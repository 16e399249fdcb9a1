//! The link of a file server to drivers that run in threads of their own, and the channels between these threads.
#![tactic(auto)]

pub mod channel;
pub mod link;
pub mod messages;
pub mod order_line;
pub mod server_line;
