//! Unmounting a file server's volume.

ghost use Rattle.std.specs.Prelude.{◌≡◌, OnOk, false};
ghost use Rattle.vfs.specs.Unmounting.{refused_by, unmount_refusal_number};

use crate::server::Server;
use block_store::Cut;
use cached_blocks::Caches;
use thiserror::Error;

/// Why a volume isn't unmounted. Where several hold when it is asked, the least is answered, and nothing was done.
#[derive(Clone, Copy, Debug, PartialEq, Eq, Error)]
pub enum UnmountRefusal {
    /// The link gives no message any more. Changes that weren't written may be lost.
    #[error("LinkEnded")]
    LinkEnded,
    /// The device was given up. Changes that weren't written are lost.
    #[error("Eio")]
    Eio,
    /// Some file is open. Nothing was written for it, and the server goes on.
    #[error("Busy")]
    Busy,
}

impl UnmountRefusal {
    /// Its number: 1 to 3.
    pub fn number(self) -> u32
        ensures { result ≡ unmount_refusal_number self }
    {
        match self {
            UnmountRefusal::LinkEnded => 1,
            UnmountRefusal::Eio => 2,
            UnmountRefusal::Busy => 3,
        }
    }
}

impl From<Cut> for UnmountRefusal {
    fn from(cut: Cut) -> UnmountRefusal
        ensures { result ≡ refused_by cut }
    {
        match cut {
            Cut::Eio => UnmountRefusal::Eio,
            Cut::LinkEnded => UnmountRefusal::LinkEnded,
        }
    }
}

impl<B: Caches> Server<B> {
    ghost use Rattle.vfs.specs.Serving.{Spends};
    ghost use Rattle.vfs.specs.Server.{IsOpen};
    ghost use Rattle.vfs.specs.Unmounting.{Unmounts, unmounting_as};

    /// Writes all that was changed, and says whether the volume may be let go: then nothing is unsure, and the disk alone holds the tree.
    ///
    /// It is refused: 1 LinkEnded once a take gave End, 2 Eio once the device was given up, 3 Busy where some file is open. Where one of
    /// these holds when it is asked, nothing is done at the link; the first two may also come while it writes. The server stands as before
    /// then, with its open files. A Flush that is taken in it is done.
    pub fn unmount(&mut self) -> Result<(), UnmountRefusal>
        requires may { IsOpen B.caching self.old }
        ensures may { IsOpen B.caching self.new }
        ensures unmounts { Unmounts B.caching B.frame_count B.wanted self.old self.new (unmounting_as result) }
        ensures goes { B.goes_on self.old.blocks self.new.blocks }
        ensures flushed { OnOk result (B.wanted self.new.blocks ≡ false) }
        ensures spends { Spends 0 (B.caching self.old.blocks) (B.caching self.new.blocks) }
        ensures absorbed { self.new.absorbed ≡ self.old.absorbed }
    {
        if let Err(cut) = self.blocks.live() {
            return Err(UnmountRefusal::from(cut));
        }
        if self.opens.is_busy() {
            return Err(UnmountRefusal::Busy);
        }
        if let Err(cut) = self.blocks.sync() {
            return Err(UnmountRefusal::from(cut));
        }
        self.blocks.flush_wanted();
        match self.blocks.live() {
            Ok(()) => Ok(()),
            Err(cut) => Err(UnmountRefusal::from(cut)),
        }
    }
}
