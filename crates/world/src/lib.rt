//! A run of a schedule: an image is checked, drivers are started, a file server is opened, and the schedule moves them all; or why no run
//! is begun.
#![tactic(auto)]

pub mod beginnings;
pub mod link;
pub mod preparing;
pub mod run_loop;
pub mod run_refusal;
pub mod run_shown;
pub mod server;
pub mod world_run;

pub use preparing::{PreparedRun, prepare_run};
pub use run_refusal::RunRefusal;
pub use world_run::World;

// passed on, for who shows one
pub use transcript;
