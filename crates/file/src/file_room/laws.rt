//! A law that leads from this layer to the client calls, as a function whose contract is the law.

ghost use Rattle.file.specs.RoomLaws.{RoomBesideIsSpace};

/// There are zones enough for a node's pages and for others beside exactly where the nodes fit with it in the other's place, and
/// those others too.
pub fn room_beside_is_space()
    ensures { RoomBesideIsSpace }
{}
