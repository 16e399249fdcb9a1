//! Laws that lead from this layer to the client calls, each a function whose contract is the law.

ghost use Rattle.file.specs.Laws.{BytesAreRead, NodeTakesHeld, RoomIsSpace};

/// What `read_at` leaves in the slice is what a client's read of as many bytes gives.
pub fn bytes_are_read()
    ensures { BytesAreRead }
{}

/// In a sound volume a node takes the zones of the pages that its inode holds.
pub fn node_takes_held()
    ensures { NodeTakesHeld }
{}

/// There are zones enough for a node's pages exactly where the nodes fit with it in the other's place.
pub fn room_is_space()
    ensures { RoomIsSpace }
{}
