//! A service, as what runs over it has it.

ghost use Rattle.std.specs.Prelude.{◌≡◌, [], IfErr, IfOk};
ghost use Rattle.shared_media.specs.Confined.{IsImageOutside};
ghost use Rattle.shared_server.specs.Finishing.{sync_of};
ghost use Rattle.serve.specs.Stopping.{IsLastImage};
ghost use Rattle.lecternowl.specs.Serving.{IsNotOpened, IsOpened};

use crate::files::Files;
use serve::stopping::NoImage;
use shared_server::locked::LastSync;
use shared_server::refusal::SessionRefusal;
use std::alloc::{AllocError, Global};

/// A service: a mounted volume, for up to 64 sessions at one time. It stays in the thread that it was made in; its sessions needn't.
pub trait Served: Drop {
    /// Its sessions.
    type Session: Files + Send;

    /// A session for this user and group. It may wait for the calls of other sessions. It is refused: `TooMany` where there are 64
    /// sessions, `Stopped` where the link to the drivers has ended, `OutOfMemory` where no memory was found.
    fn session(&self, uid: u16, gid: u16) -> Result<Self::Session, SessionRefusal>
        ensures made { IfOk result (λ s.
            IsOpened Self.Session.words Self.Session.sizes Self.Session.opening uid gid (Self.Session.state s)) }
        ensures refused { IfErr result (IsNotOpened Self.Session.words Self.Session.opening) };

    /// The image of the media as they stand. Behind a sync that was done, and before a further call is made, that is the volume as it was
    /// synced. Refused where no memory was found for it.
    fn image(&self, alloc: Global) -> Result<Vec<u8>, AllocError>
        ensures { IfOk result (λ image. IsImageOutside Self.Session.opening image.items) };

    /// Stops the service: how its last sync went, and the image as the media then stand. No image comes while a session is left.
    fn stop(self) -> Result<(LastSync, Vec<u8>), NoImage>
        ensures { IfOk result (λ left. IsLastImage Self.Session.words Self.Session.sizes Self.Session.opening [] (sync_of left.0)
            left.1.items) };
}
