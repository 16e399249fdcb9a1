//! Reading places of a file server's volume back.

ghost use Rattle.std.specs.Prelude.{◌≡◌, ◌≢◌, ◌≤◌, ◌^◌, List, false, Err};
ghost use Rattle.volume_reading.specs.Pieces.{Piece};
ghost use Rattle.volume_reading.specs.Places.{AreAt, ArePlaces, AreTaken};
ghost use Rattle.file_server.specs.Back.{ReadsBack};
ghost use Rattle.vfs.specs.Back.{end_of as end_as};
ghost use Rattle.vfs.specs.OverLink.{IsReadyOver, line_of, serving_over};

use crate::server::Server;
use cached_blocks::Stored;
use file_server::ReadEnd;
use reissue::Link;
use volume_reading::{Place, ReadRoom, Stop, Takes, read_back};

/// How reading a volume back ended, by how reading its range did.
fn end_of(read: Result<(), Stop>) -> ReadEnd
    requires { read ≢ Err Stop.OutOfMemory }
    ensures { result ≡ end_as read }
{
    match read {
        Ok(()) => ReadEnd::Read,
        Err(Stop::GaveUp) => ReadEnd::GivenUp,
        Err(Stop::Ended) => ReadEnd::Cut,
        Err(Stop::OutOfMemory) => unreachable!(),
    }
}

impl<L: Link> Server<Stored<L>> {
    /// Lets the frames go, waits for all that is pending, and reads places of the volume's range through the link, in order. Each piece is
    /// taken before the next one is read. Gives the link.
    pub fn read_back<T: Takes>(
        self,
        room: ReadRoom,
        places: &[Place],
        taker: &mut T,
    ) -> (L, ReadEnd)
        requires ready { IsReadyOver L.Link self }
        requires few { self.absorbed ≤ 2 ^ 48 }
        requires live { (serving_over L.Link self).ended ≡ false }
        requires places { ArePlaces 0 (2 ^ 48) places.now }
        ensures back { (pieces : List Piece) × AreTaken T.takes taker.old pieces taker.new
            × (result.1 ≡ ReadEnd.Read → AreAt places.now pieces)
            × ReadsBack (serving_over L.Link self) result.1 pieces (L.history result.0) (L.truth (line_of self)) (L.truth result.0) }
        ensures goes { L.goes_on (line_of self) result.0 }
    {
        let Server {
            alloc: _,
            blocks,
            names: _,
            geometry: _,
            opens: _,
            absorbed: _,
        } = self;
        let minor = blocks.minor();
        let mut transfers = blocks.into_transfers();
        let end = end_of(read_back(&mut transfers, room, minor, places, taker));
        (transfers.into_link(), end)
    }
}
