//! What mfs does, between the bytes that it reads and the bytes that it writes: scripts are played on a service that is started for them
//! (`scripts`), what came of them is printed (`play`), and the image that is left is handed on (`handing`).
#![tactic(auto)]

pub mod handing;
pub mod play;
pub mod scripts;
