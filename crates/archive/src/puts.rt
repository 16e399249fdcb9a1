//! Where the changes of the media are put behind each sync that was done, and the image at the end.

ghost use Rattle.std.specs.Prelude.{ℕ, List, Result};
ghost use Rattle.errno.specs.declared.Errno.{Errno};
ghost use Rattle.archive.specs.Behind.{OkMeansPut};

use errno::Errno;
use redo::Puts;

/// Where an image is kept: the changes of each sync are put into it. What a put may come to is said by a relation of the implementation;
/// contracts of what uses one speak of this relation alone.
pub trait Archive {
    /// How changes may be put: the state before, the changed units' numbers with their bytes, what is answered, and the state after.
    ghost puts: { Self → List (ℕ × List ℕ) → Result (Unit {0}) Errno → Self → Type 0 };

    /// How the image at the end may be put: the state before, the image's bytes, what is answered, and the state after.
    ghost ends: { Self → List ℕ → Result (Unit {0}) Errno → Self → Type 0 };

    /// Puts changed units into the image that is kept, whole or not at all. Where it is refused, the error is what the sync is answered,
    /// and the units are in the next changes again.
    fn put<P: Puts>(&mut self, changes: &P) -> Result<(), Errno>
        ensures { puts self.old (P.puts changes.now) result self.new };

    /// Puts the image at the end in the place of the one that is kept, whole or not at all.
    fn finish(&mut self, image: &[u8]) -> Result<(), Errno>
        ensures { ends self.old image.now result self.new };
}

/// A sync that is answered ok was put: a session made it and was answered ok, and behind that the archive took changes of the media, which
/// are, outside of the volume, what was handed in.
#[tactic(auto, using(crate::proofs::Putting::ok_means_put))]
pub fn ok_is_put<A: Archive>()
    ensures { OkMeansPut A.puts }
{}
