//! An archive, as the place of the image at the end.

ghost use Rattle.archive.specs.Ending.{IsEndedIn};

use crate::puts::Archive;
use volume_commands::handing::ImagePlace;

/// The archive of a service, as the place of its image at the end; none where a thread still has it.
#[derive(Drop)]
pub struct Ending<A> {
    /// The archive, if there is one.
    pub archive: Option<A>,
}

impl<A: Archive + Drop> ImagePlace for Ending<A> {
    ghost puts = { λ s image put t. IsEndedIn A.ends s.archive image put t.archive };

    fn put(&mut self, image: &[u8]) -> bool {
        match &mut self.archive {
            Some(archive) => archive.finish(image).is_ok(),
            None => false,
        }
    }
}
