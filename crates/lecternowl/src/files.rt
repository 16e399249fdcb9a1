//! A session of a service, as an application has it.

ghost use Rattle.std.specs.Prelude.{◌≡◌, ◌<◌, ◌^◌, List, Result};
ghost use Rattle.errno.specs.declared.Errno.{Errno};
ghost use Rattle.layout.specs.declared.Geometry.{Geometry as Sizes};
ghost use Rattle.records.specs.Marks.{Mark, counted};
ghost use Rattle.records.specs.Opening.{Opening};
ghost use Rattle.records.specs.Session.{SessionState, DeviceKeeps};
ghost use Rattle.reissue.specs.declared.link.Link.{Ghosts as LinkWords};
ghost use Rattle.board.specs.Words.{is_given_up};
ghost use Rattle.lecternowl.specs.Answers.{described, done, followed, listed, measured, opened, placed, read, wrote};
ghost use Rattle.lecternowl.specs.Calls.{Gives, IsToldOf, from_root};

use crate::answers::{
    CallError, described_of, done_of, followed_of, listed_of, measured_of, opened_of, placed_of,
    read_of, wrote_of,
};
use board::Device;
use tree::{
    Attributes, Call, Entry, LinkTarget, OpenFlags, Outcome, PathFrom, Start, Statfs, Whence,
};

/// A path from the root.
fn from_root(bytes: &[u8]) -> PathFrom<'_>
    ensures { result ≡ from_root bytes.entry }
{
    PathFrom {
        start: Start::Root,
        bytes,
    }
}

/// A session of a service: it makes the calls of one user and group, one at a time.
///
/// Each call takes the time, `now`, in seconds since 1970, which goes into the times of what it changes. A path is bytes that begin with
/// `/`, at most 1024 of them, each name in it at most 60. A mode is permission bits alone, at most octal 777. A descriptor, `fd`, is one
/// that `open` or `dup` of this session gave.
///
/// A method gives what its call means, or a [`CallError`]. Its contract says that there is an outcome of the call, of which the result is
/// the plain form, and for which all holds that [`Files::call`] promises.
///
/// Contracts see of a session its user, its group and what it knows (`state`), and of its service the sizes of the volume, the volume as it
/// was handed in, the link to the drivers with the record that it keeps, and what may come of the changes behind a sync (`put`).
pub trait Files: Drop {
    ghost state: { Self → SessionState };

    ghost sizes: { Sizes };

    ghost opening: { Opening };

    ghost Line: { Type 0 };

    ghost words: { LinkWords Line };

    ghost marks: { Line → List Mark };

    ghost put: { Result (Unit {0}) Errno → Type 0 };

    /// Makes a call. It may wait for the calls of other sessions. The session has then seen the record of the service up to this call: an
    /// answer is its last mark; a cut, which comes once the link to the drivers has ended, leaves none. Where changes are kept, a sync that
    /// was done is told as done once they were put, and is refused where they weren't: with the errno of that.
    fn call(&mut self, now: u32, call: &Call<'_>) -> Outcome
        ensures { IsToldOf put words marks sizes opening (state self.old) now call.now result (state self.new) };

    /// Whether the device was given up. `GivenUp` comes only where the session has then seen so, and comes where it had seen a call taken
    /// after it.
    fn device(&mut self) -> Device
        ensures { DeviceKeeps (state self.old) (is_given_up result) (state self.new) };

    /// How many starts, answers, flushes, calls and givings up of the record the session has seen; of 2^64 or more it says nothing.
    fn seen(&self) -> u64
        ensures { counted (state self.now).knows.seen < 2 ^ 64 → result ≡ counted (state self.now).knows.seen };

    /// Ends the session: each descriptor that its calls left open is closed, and its number is free again.
    fn end(self);

    /// Opens a file or a directory, at position 0, under the lowest free descriptor, 0 to 31. With `CREATE` a missing file is made
    /// with the mode; with `TRUNCATE` a file that is there is emptied.
    final fn open(
        &mut self,
        now: u32,
        path: &[u8],
        flags: OpenFlags,
        mode: u16,
    ) -> Result<u32, CallError>
        ensures { Gives put words marks sizes opening opened (state self.old) now (Call.Open (from_root path.entry) flags mode) result
            (state self.new) }
    {
        let path = from_root(path);
        opened_of(self.call(now, &Call::Open { path, flags, mode }))
    }

    /// Frees a descriptor. The last one of a file without a name frees the file.
    final fn close(&mut self, now: u32, fd: u32) -> Result<(), CallError>
        ensures { Gives put words marks sizes opening done (state self.old) now (Call.Close fd) result (state self.new) }
    {
        done_of(self.call(now, &Call::Close { fd }))
    }

    /// The lowest free descriptor for the same open file, so with the same position.
    final fn dup(&mut self, now: u32, fd: u32) -> Result<u32, CallError>
        ensures { Gives put words marks sizes opening opened (state self.old) now (Call.Dup fd) result (state self.new) }
    {
        opened_of(self.call(now, &Call::Dup { fd }))
    }

    /// Up to `count` bytes, at most 65536, from the position on, which moves behind them; fewer at the end of the file.
    final fn read(&mut self, now: u32, fd: u32, count: u32) -> Result<Vec<u8>, CallError>
        ensures { Gives put words marks sizes opening read (state self.old) now (Call.Read fd count) result (state self.new) }
    {
        read_of(self.call(now, &Call::Read { fd, count }))
    }

    /// Writes all the bytes, at most 65536, at the position, or with the append flag at the end of the file, and moves the position
    /// behind them. Gives how many they are.
    final fn write(&mut self, now: u32, fd: u32, bytes: &[u8]) -> Result<u32, CallError>
        ensures { Gives put words marks sizes opening wrote (state self.old) now (Call.Write fd bytes.entry) result (state self.new) }
    {
        wrote_of(self.call(now, &Call::Write { fd, bytes }))
    }

    /// Moves the position of an open file, to 0 up to 2147483647; it may lie past the end. Gives the position.
    final fn seek(
        &mut self,
        now: u32,
        fd: u32,
        whence: Whence,
        offset: i64,
    ) -> Result<u32, CallError>
        ensures { Gives put words marks sizes opening placed (state self.old) now (Call.Seek fd whence offset) result (state self.new) }
    {
        placed_of(self.call(now, &Call::Seek { fd, whence, offset }))
    }

    /// The attributes of what a path leads to.
    final fn stat(&mut self, now: u32, path: &[u8]) -> Result<Attributes, CallError>
        ensures { Gives put words marks sizes opening described (state self.old) now (Call.Stat (from_root path.entry)) result
            (state self.new) }
    {
        let path = from_root(path);
        described_of(self.call(now, &Call::Stat { path }))
    }

    /// The attributes of what a descriptor has open.
    final fn fstat(&mut self, now: u32, fd: u32) -> Result<Attributes, CallError>
        ensures { Gives put words marks sizes opening described (state self.old) now (Call.Fstat fd) result (state self.new) }
    {
        described_of(self.call(now, &Call::Fstat { fd }))
    }

    /// The attributes of what a path names: of a symbolic link that stands last, its own.
    final fn lstat(&mut self, now: u32, path: &[u8]) -> Result<Attributes, CallError>
        ensures { Gives put words marks sizes opening described (state self.old) now (Call.Lstat (from_root path.entry)) result
            (state self.new) }
    {
        let path = from_root(path);
        described_of(self.call(now, &Call::Lstat { path }))
    }

    /// A further name, `to`, for the file of the name `from`.
    final fn link(&mut self, now: u32, from: &[u8], to: &[u8]) -> Result<(), CallError>
        ensures { Gives put words marks sizes opening done (state self.old) now (Call.Link (from_root from.entry) (from_root to.entry))
            result (state self.new) }
    {
        let (old, new) = (from_root(from), from_root(to));
        done_of(self.call(now, &Call::Link { old, new }))
    }

    /// Takes a name from a file. A file without a name is freed once it isn't open.
    final fn unlink(&mut self, now: u32, path: &[u8]) -> Result<(), CallError>
        ensures { Gives put words marks sizes opening done (state self.old) now (Call.Unlink (from_root path.entry)) result
            (state self.new) }
    {
        let path = from_root(path);
        done_of(self.call(now, &Call::Unlink { path }))
    }

    /// Makes an empty directory.
    final fn mkdir(&mut self, now: u32, path: &[u8], mode: u16) -> Result<(), CallError>
        ensures { Gives put words marks sizes opening done (state self.old) now (Call.Mkdir (from_root path.entry) mode) result
            (state self.new) }
    {
        let path = from_root(path);
        done_of(self.call(now, &Call::Mkdir { path, mode }))
    }

    /// Removes an empty directory that isn't open.
    final fn rmdir(&mut self, now: u32, path: &[u8]) -> Result<(), CallError>
        ensures { Gives put words marks sizes opening done (state self.old) now (Call.Rmdir (from_root path.entry)) result
            (state self.new) }
    {
        let path = from_root(path);
        done_of(self.call(now, &Call::Rmdir { path }))
    }

    /// Moves a file or a directory from one name to another. What stood there loses the name: a file if a file moves, an empty
    /// directory that isn't open if a directory does.
    final fn rename(&mut self, now: u32, from: &[u8], to: &[u8]) -> Result<(), CallError>
        ensures { Gives put words marks sizes opening done (state self.old) now (Call.Rename (from_root from.entry) (from_root to.entry))
            result (state self.new) }
    {
        let (old, new) = (from_root(from), from_root(to));
        done_of(self.call(now, &Call::Rename { old, new }))
    }

    /// Sets the permissions, for the owner and user 0.
    final fn chmod(&mut self, now: u32, path: &[u8], mode: u16) -> Result<(), CallError>
        ensures { Gives put words marks sizes opening done (state self.old) now (Call.Chmod (from_root path.entry) mode) result
            (state self.new) }
    {
        let path = from_root(path);
        done_of(self.call(now, &Call::Chmod { path, mode }))
    }

    /// Sets the owner and the group, for user 0.
    final fn chown(&mut self, now: u32, path: &[u8], uid: u16, gid: u16) -> Result<(), CallError>
        ensures { Gives put words marks sizes opening done (state self.old) now (Call.Chown (from_root path.entry) uid gid) result
            (state self.new) }
    {
        let path = from_root(path);
        done_of(self.call(now, &Call::Chown { path, uid, gid }))
    }

    /// Sets the times of access and of modification, in seconds since 1970, for the owner and user 0.
    final fn utime(
        &mut self,
        now: u32,
        path: &[u8],
        atime: u32,
        mtime: u32,
    ) -> Result<(), CallError>
        ensures { Gives put words marks sizes opening done (state self.old) now (Call.Utime (from_root path.entry) atime mtime) result
            (state self.new) }
    {
        let path = from_root(path);
        done_of(self.call(now, &Call::Utime { path, atime, mtime }))
    }

    /// Sets the size of a file, at most 2147483647 bytes; where it grows there is a hole, which reads as zeros.
    final fn truncate(&mut self, now: u32, path: &[u8], size: u32) -> Result<(), CallError>
        ensures { Gives put words marks sizes opening done (state self.old) now (Call.Truncate (from_root path.entry) size) result
            (state self.new) }
    {
        let path = from_root(path);
        done_of(self.call(now, &Call::Truncate { path, size }))
    }

    /// The names of a directory but `.` and `..`, with their inodes, in the order of their bytes.
    final fn readdir(&mut self, now: u32, fd: u32) -> Result<Vec<Entry>, CallError>
        ensures { Gives put words marks sizes opening listed (state self.old) now (Call.Readdir fd) result (state self.new) }
    {
        listed_of(self.call(now, &Call::Readdir { fd }))
    }

    /// Answers once all that was changed lies on the disk.
    final fn sync(&mut self, now: u32) -> Result<(), CallError>
        ensures { Gives put words marks sizes opening done (state self.old) now Call.Sync result (state self.new) }
    {
        done_of(self.call(now, &Call::Sync))
    }

    /// The sizes of the volume, and what is free of them.
    final fn statfs(&mut self, now: u32) -> Result<Statfs, CallError>
        ensures { Gives put words marks sizes opening measured (state self.old) now Call.Statfs result (state self.new) }
    {
        measured_of(self.call(now, &Call::Statfs))
    }

    /// Makes a symbolic link at `path` with a target of 1 to 1023 bytes, none of them zero.
    final fn symlink(&mut self, now: u32, target: &[u8], path: &[u8]) -> Result<(), CallError>
        ensures { Gives put words marks sizes opening done (state self.old) now (Call.Symlink target.entry (from_root path.entry)) result
            (state self.new) }
    {
        let path = from_root(path);
        done_of(self.call(now, &Call::Symlink { target, path }))
    }

    /// The target of the symbolic link that a path names.
    final fn readlink(&mut self, now: u32, path: &[u8]) -> Result<LinkTarget, CallError>
        ensures { Gives put words marks sizes opening followed (state self.old) now (Call.Readlink (from_root path.entry)) result
            (state self.new) }
    {
        let path = from_root(path);
        followed_of(self.call(now, &Call::Readlink { path }))
    }
}
