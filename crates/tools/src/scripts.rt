//! Scripts played on a service that is started for them, each in a session and a thread of its own; and the image once the service was
//! stopped.

pub mod admitting;
pub mod client;
pub mod players;
pub mod script_session;
pub mod starting;
pub mod turns;

pub use players::{Came, ServiceRefusal};
pub use starting::play_scripts;
