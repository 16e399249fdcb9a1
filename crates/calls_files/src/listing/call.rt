//! The call readdir.

ghost use Rattle.std.specs.Prelude.{◌≡◌, ◌≢◌, ◌<◌, IfErr, OnOk};
ghost use Rattle.tree.specs.Tree.{most_sessions};
ghost use Rattle.tree.specs.FileCalls.{readdir};
ghost use Rattle.tree.specs.Answers.{answer_of, refused};
ghost use Rattle.descriptors.specs.Files.{HasFiles};
ghost use Rattle.descriptors.specs.Table.{files_of};
ghost use Rattle.block_store.specs.World.{Turns};
ghost use Rattle.block_store.specs.Volume.{IsOn};
ghost use Rattle.block_store.specs.Halts.{IsHalt};
ghost use Rattle.calls_attributes.specs.Does.{MeetsOrLacks};
ghost use Rattle.calls_files.specs.Refusals.{why_unlisted};

use crate::listing::gather::entries_of;
use block_store::{Blocks, Halt};
use calls_attributes::found::{Found, find, is_directory};
use descriptors::Descriptors;
use errno::Errno;
use layout::Geometry;
use std::alloc::Global;
use tree::Reply;

/// Why the names of an open file can't be listed, if they can't.
fn refusal(file: &Found) -> Option<Errno>
    ensures { result ≡ why_unlisted file.now }
{
    if !file.flags.reads() {
        Some(Errno::EBADF)
    } else if !is_directory(&file.inode) {
        Some(Errno::ENOTDIR)
    } else {
        None
    }
}

/// readdir: all names of an open directory but `.` and `..`, with their inodes, in the order of their bytes. EBADF where the descriptor
/// leads to no open file, or to one that isn't open for reading, else ENOTDIR of a file. ENOMEM where there is no memory for the names.
pub fn readdir<B: Blocks>(
    alloc: Global,
    blocks: &mut B,
    opens: &Descriptors,
    geometry: &Geometry,
    session: u8,
    fd: u32,
    reply: &mut Reply,
) -> Result<(), Halt>
    requires on { IsOn B.world geometry.now blocks.old }
    requires session { session < most_sessions }
    ensures turns { let f = files_of opens.now in Turns B.world blocks.old blocks.new (λ d e.
        MeetsOrLacks geometry.now (λ t. readdir t session fd) result reply.new (HasFiles f) (HasFiles f) d e) }
    ensures looks { B.world.looks blocks.old blocks.new }
    ensures halt { IfErr result (λ h. IsHalt B.world blocks.new h) }
    ensures proper { OnOk result (answer_of reply.new ≢ refused Errno.EIO) }
{
    let Some(file) = find(blocks, opens, geometry, session, fd)? else {
        *reply = Reply::Refused(Errno::EBADF);
        return Ok(());
    };
    if let Some(refusal) = refusal(&file) {
        *reply = Reply::Refused(refusal);
        return Ok(());
    }
    match entries_of(alloc, blocks, geometry, &file.inode)? {
        Ok(entries) => {
            *reply = Reply::Names(entries);
            Ok(())
        }
        Err(_) => {
            *reply = Reply::Refused(Errno::ENOMEM);
            Ok(())
        }
    }
}
