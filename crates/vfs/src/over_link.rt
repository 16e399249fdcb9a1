//! The server over a link, as a file server of all calls.

ghost use Rattle.vfs.specs.OverLink.{IsIdleOver, IsReadyOver, line_of as link_there, with_line as with_link_there};

use crate::server::Server;
use cached_blocks::Stored;
use file_server::{Ending, FileServer, ReadEnd};
use message::Incoming;
use reissue::Link;
use tree::{Call, Reply, Who};
use volume_reading::{Place, ReadRoom, Takes};

impl<L: Link + Drop> FileServer<L> for Server<Stored<L>> {
    ghost use Rattle.std.specs.Prelude.{refl};
    ghost use Rattle.vfs.specs.LineLaws.{stays_by, ready_by};

    ghost knows = { λ call. Unit {0} };

    ghost line = { link_there };

    ghost with_line = { with_link_there };

    ghost absorbed = { λ s. s.absorbed };

    ghost is_ready = { IsReadyOver L.Link };

    ghost is_idle = { IsIdleOver L.Link };

    fn call(&mut self, who: Who, now: u32, call: &Call, reply: &mut Reply) -> Ending {
        self.call(who, now, call, reply)
    }

    fn absorb(&mut self, message: Incoming) {
        self.absorb(message);
    }

    fn read_back<T: Takes>(self, room: ReadRoom, places: &[Place], taker: &mut T) -> (L, ReadEnd) {
        self.read_back(room, places, taker)
    }

    fn link(&self) -> &L {
        self.blocks.link()
    }

    fn link_mut(&mut self) -> &mut L {
        self.blocks.link_mut()
    }

    ghost is_there = { λ s l. refl };

    ghost counts_on = { λ s l. refl };

    ghost tells = { λ s. refl };

    ghost stays = { stays_by L.Link.own };

    ghost stays_ready = { ready_by L.Link.own };
}
