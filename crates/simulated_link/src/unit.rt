//! A driver that was started.

ghost use Rattle.std.specs.Prelude.{◌≤◌, length};
ghost use Rattle.std.specs.VecDeque.{deque_capacity};

use message::BlockRequest;
use std::collections::VecDeque;

/// How many requests a line holds.
pub const LINE: usize = 32;

/// A driver that was started.
#[derive(Drop)]
pub struct Unit<D> {
    /// The driver as it stands.
    pub driver: D,
    /// It neither died nor failed.
    pub live: bool,
    /// It beats no more.
    pub hung: bool,
    /// The requests that wait for it, the next one first: at most 32, for which there is room.
    pub line: VecDeque<BlockRequest>,
    pub ghost roomy: { 32 ≤ deque_capacity line },
    pub ghost few: { length line.items ≤ 32 },
}
