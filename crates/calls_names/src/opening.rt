//! The call open.

ghost use Rattle.std.specs.Prelude.{◌≡◌, ◌≢◌, ◌<◌, IfErr, OnOk, Ok, false};
ghost use Rattle.tree.specs.Tree.{most_sessions};
ghost use Rattle.tree.specs.Flags.{creates, truncates};
ghost use Rattle.tree.specs.FileCalls.{open_path};
ghost use Rattle.tree.specs.Answers.{answer_of, refused};
ghost use Rattle.descriptors.specs.Files.{HasFiles, room_for_file};
ghost use Rattle.descriptors.specs.Table.{files_of};
ghost use Rattle.block_store.specs.Halts.{IsHalt};
ghost use Rattle.block_store.specs.Volume.{IsOn};
ghost use Rattle.block_store.specs.World.{Turns};
ghost use Rattle.calls_attributes.specs.Does.{Meets};
ghost use Rattle.calls_names.specs.Opening.{IsPut};

use crate::asking::may_begin;
use crate::named::are_bytes;
use crate::readying::ready;
use block_store::{Blocks, Halt};
use descriptors::Descriptors;
use errno::Errno;
use layout::Geometry;
use path::{NameCache, Stop};
use tree::{OpenFlags, PathFrom, Reply, User};

/// Opens a node at position 0, under the lowest free descriptor of a session that has one.
fn put(opens: &mut Descriptors, session: u8, inode: u16, flags: OpenFlags, reply: &mut Reply)
    requires session { session < most_sessions }
    requires room { room_for_file (files_of opens.old) session ≡ Ok tt }
    ensures { IsPut (files_of opens.old) session inode flags.0 (answer_of reply.new) (files_of opens.new) }
{
    match opens.put(session, inode, flags) {
        Ok(fd) => *reply = Reply::Descriptor(fd),
        Err(errno) => *reply = Reply::Refused(errno),
    }
}

/// open: the lowest free descriptor of the session leads to a new open file of the path's node, at position 0, with these flags. With the
/// create flag a missing file is made with the mode, with the truncate flag a file that is there is emptied, both at `now` (seconds). A
/// symbolic link that stands last is followed, but with create and exclusive; no file is made where it leads to nothing.
/// Refused, in this order, with nothing changed: EINVAL of flags or of a mode that can't be, EMFILE where the session has no free
/// descriptor, ENFILE where 128 files are open, the refusals of the path and of the look-up, and of a link that is followed those of the
/// walk of the whole path; then of a node that is there EEXIST with create and exclusive, ELOOP of a link that is the path's start, EISDIR
/// of a directory to be written, EACCES where the user lacks a permission; and of a missing name ENOENT without create, EACCES where the
/// user may not change the directory's names, ENOSPC where no inode is free or there are too few zones.
pub fn open<B: Blocks>(
    blocks: &mut B,
    names: &mut NameCache,
    opens: &mut Descriptors,
    geometry: &Geometry,
    user: User,
    now: u32,
    session: u8,
    path: PathFrom,
    flags: OpenFlags,
    mode: u16,
    reply: &mut Reply,
) -> Result<(), Halt>
    requires on { IsOn B.world geometry.now blocks.old }
    requires session { session < most_sessions }
    ensures turns { Turns B.world blocks.old blocks.new (λ d e.
        Meets geometry.now (λ t. open_path geometry.now t user now session path.entry flags.0 mode) result reply.new
        (HasFiles (files_of opens.old)) (HasFiles (files_of opens.new)) d e) }
    ensures looks { creates flags.0 ≡ false → truncates flags.0 ≡ false → B.world.looks blocks.old blocks.new }
    ensures halt { IfErr result (λ h. IsHalt B.world blocks.new h) }
    ensures proper { OnOk result (answer_of reply.new ≢ refused Errno.EIO) }
{
    are_bytes(path.bytes);
    if let Err(errno) = may_begin(opens, session, flags, mode) {
        *reply = Reply::Refused(errno);
        return Ok(());
    }
    match ready(blocks, names, geometry, user, now, path, flags, mode) {
        Ok(number) => match u16::try_from(number) {
            Ok(inode) => {
                put(opens, session, inode, flags, reply);
                Ok(())
            }
            Err(_) => Err(Halt::Unsound),
        },
        Err(Stop::Refused(errno)) => {
            *reply = Reply::Refused(errno);
            Ok(())
        }
        Err(Stop::Halted(halt)) => Err(halt),
    }
}
