//! Room for a file's bytes: how many zones more its pages take, and whether the volume has as many free.

pub mod laws;
pub mod pages;
pub mod room;

pub use pages::need;
pub use room::{has_room, has_room_beside, zones_for};
