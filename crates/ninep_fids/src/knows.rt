//! What a connection knows.

ghost use Rattle.std.specs.Prelude.{◌≡◌, ◌-◌, ◌≤◌, []};

use crate::fid::Fid;
use crate::fids::Fids;
use crate::users::Users;
use std::alloc::Global;
use talks::refused::Refused;

/// The fewest bytes that a client may have its messages limited to.
pub const MIN_MESSAGE: u32 = 4096;

/// The most bytes of a message: those of a read of 64 KiB, and what stands before them.
pub const MAX_MESSAGE: u32 = 65560;

/// How many bytes of a message its data leave to what stands before them.
pub const HEAD: u32 = 24;

/// What a connection knows.
#[derive(Drop)]
pub struct Knows {
    pub alloc: Global,
    /// The most bytes of a message.
    pub message_size: u32,
    pub users: Users,
    pub fids: Fids,
    ghost sized: { (4096 ≤ message_size) × (message_size ≤ 65560) },
}

impl Knows {
    ghost use Rattle.ninep_fids.specs.Knowledge.{known_of, IsTaken};

    /// A new connection's: no user is attached.
    pub fn new(alloc: Global) -> Knows
        ensures { known_of result ≡ record { message_size = 65560; users = []; fids = [] } }
    {
        Knows {
            alloc,
            message_size: MAX_MESSAGE,
            users: Users::new(alloc),
            fids: Fids::new(alloc),
        }
    }

    /// Lets a fid go, and its user where no other fid is that one's. What it stood for, and whether its user stays. EBADF where there is
    /// none.
    pub fn take(&mut self, fid: u32) -> Result<(Fid, bool), Refused>
        ensures { IsTaken (known_of self.old) fid result (known_of self.new) }
    {
        let taken = self.fids.take(fid)?;
        let stays = self.fids.has(taken.user.uid);
        if !stays {
            self.users.leave(taken.user.uid);
        }
        Ok((taken, stays))
    }

    /// The most bytes that a read, a write or a list of names may move.
    pub fn most(&self) -> u32
        ensures { result ≡ self.now.message_size - 24 }
    {
        self.message_size - HEAD
    }
}
