//! Two files on stable storage, a redo log and an image, in units of 4096 bytes: what a program asks of them, and what a crash may leave.
#![tactic(auto)]

pub mod memory;

ghost use Rattle.std.specs.Prelude.{◌∷◌, [], Option, None, IfOk};
ghost use Rattle.stable.specs.Disk.{Write, Sync};
ghost use Rattle.stable.specs.Runs.{Known, Follows, Happens, Reads};

use std::io;

/// The bytes of a unit (own): what a disk may write at once. A disk whose physical sectors have 4096 bytes rewrites a whole one for each
/// sector of 512 bytes.
pub const UNIT: usize = 4096;

/// The two files.
#[derive(Clone, Copy, Debug, Drop, PartialEq, Eq)]
pub enum Which {
    /// The redo log.
    Log,
    /// The image that it is for.
    Image,
}

/// Two files on stable storage. Units are numbered from 0; unit `n` has the 4096 bytes from byte 4096 · `n` on.
pub trait Storage {
    // What the files held at first and what happened since. An implementation that knows neither, as one over real files, has None.
    ghost known: { Self → Option Known } = { λ _. None };

    /// Reads unit `n` of a file.
    fn read(&mut self, file: Which, n: u64) -> io::Result<[u8; UNIT]>
        ensures bytes { IfOk result (λ bytes. Reads (known self.old) file n bytes) }
        ensures same { Happens [] (known self.old) (known self.new) };

    /// Writes neighbouring units of a file, from unit `first` on.
    fn write(&mut self, file: Which, first: u64, units: &[[u8; UNIT]]) -> io::Result<()>
        ensures { Follows (Write file first units.now ∷ []) (known self.old) (known self.new) result };

    /// Waits until a crash leaves all that was written to a file.
    fn sync(&mut self, file: Which) -> io::Result<()>
        ensures { Follows (Sync file ∷ []) (known self.old) (known self.new) result };
}
