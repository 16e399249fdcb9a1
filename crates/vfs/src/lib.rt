//! The file server of one volume, over the frames of a cache: how it answers a client call, absorbs messages, and is unmounted.
#![tactic(auto)]

mod calls;
pub mod over_link;
pub mod reading_back;
pub mod server;
pub mod server_laws;
pub mod unmounting;

pub use calls::answer;
pub use server::Server;
