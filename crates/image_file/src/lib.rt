//! An image file that survives a crash: what changed is put by its redo log, so that the next start finds the image of the last put that
//! was answered ok, or of the one under way, whole.
#![tactic(auto)]

mod changed;
mod differing;
mod kept;
mod reading;
mod refusal;

pub use changed::{Copies, InPlace};
pub use kept::Kept;
pub use reading::read_through;
pub use redo::Puts;
pub use refusal::OpenRefusal;
