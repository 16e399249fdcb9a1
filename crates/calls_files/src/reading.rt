//! Reads of open files.

ghost use Rattle.std.specs.Prelude.{◌≡◌, ◌≢◌, ◌<◌, ◌≤◌, IfOk, IfErr, OnOk, IfSome, length};
ghost use Rattle.tree.specs.Tree.{most_sessions};
ghost use Rattle.tree.specs.FileCalls.{read, bytes_read};
ghost use Rattle.tree.specs.Answers.{answer_of, refused};
ghost use Rattle.volume.specs.Nodes.{file_of};
ghost use Rattle.volume.specs.Pieces.{pieces};
ghost use Rattle.file.specs.Reading.{read_count};
ghost use Rattle.descriptors.specs.Files.{HasFiles};
ghost use Rattle.descriptors.specs.Table.{files_of};
ghost use Rattle.block_store.specs.World.{Turns, Reads};
ghost use Rattle.block_store.specs.Volume.{IsOn};
ghost use Rattle.block_store.specs.Halts.{IsHalt};
ghost use Rattle.calls_attributes.specs.Does.{MeetsOrLacks};
ghost use Rattle.calls_files.specs.Reading.{why_unread};

use block_store::{Blocks, Cut, Halt};
use calls_attributes::found::{Found, find, is_directory};
use descriptors::Descriptors;
use errno::Errno;
use file::file_pages::reading::read_at;
use layout::Geometry;
use std::alloc::{AllocError, Global};
use tree::{MAX_SIZE, MAX_TRANSFER, Reply};
use volume::Inode;

/// Why an open file can't be read, if it can't.
fn refusal(file: &Found, count: u32) -> Option<Errno>
    ensures { result ≡ why_unread file.now count }
{
    if !file.flags.reads() {
        Some(Errno::EBADF)
    } else if is_directory(&file.inode) {
        Some(Errno::EISDIR)
    } else if count > MAX_TRANSFER {
        Some(Errno::EINVAL)
    } else {
        None
    }
}

/// The bytes of a file from a place on, so many at most, if there is memory for them.
fn bytes_at<B: Blocks>(
    alloc: Global,
    blocks: &mut B,
    geometry: &Geometry,
    inode: &Inode,
    at: u32,
    count: u32,
) -> Result<Result<Vec<u8>, AllocError>, Cut>
    requires on { IsOn B.world geometry.now blocks.old }
    ensures reads { Reads B.world blocks.old blocks.new (λ d. IfOk result (λ r. IfOk r (λ bytes.
        bytes.items ≡ bytes_read (file_of geometry.now (pieces geometry.now d) inode.now) at count))) }
    ensures count { IfOk result (λ r. IfOk r (λ bytes. length bytes.items ≡ read_count inode.now.size at count)) }
    ensures cut { IfErr result (λ c. B.world.over blocks.new c) }
{
    let length = count.min(inode.size.saturating_sub(at));
    let mut bytes = match vec![in alloc; 0; length as usize] {
        Ok(bytes) => bytes,
        Err(error) => return Ok(Err(error)),
    };
    read_at(blocks, geometry, inode, at, &mut bytes)?;
    Ok(Ok(bytes))
}

/// read: bytes of an open file from its position on, which moves behind them; fewer at the end of the file. EBADF where the descriptor
/// leads to no open file, or to one that isn't open for reading, else EISDIR of a directory, else EINVAL where more than 65536 bytes are
/// asked for. ENOMEM where there is no memory for the bytes; then the position stays.
pub fn read<B: Blocks>(
    alloc: Global,
    blocks: &mut B,
    opens: &mut Descriptors,
    geometry: &Geometry,
    session: u8,
    fd: u32,
    count: u32,
    reply: &mut Reply,
) -> Result<(), Halt>
    requires on { IsOn B.world geometry.now blocks.old }
    requires session { session < most_sessions }
    ensures turns { Turns B.world blocks.old blocks.new (λ d e. MeetsOrLacks geometry.now (λ t. read t session fd count) result reply.new
        (HasFiles (files_of opens.old)) (HasFiles (files_of opens.new)) d e) }
    ensures looks { B.world.looks blocks.old blocks.new }
    ensures halt { IfErr result (λ h. IsHalt B.world blocks.new h) }
    ensures proper { OnOk result (answer_of reply.new ≢ refused Errno.EIO) }
{
    let Some(file) = find(blocks, opens, geometry, session, fd)? else {
        *reply = Reply::Refused(Errno::EBADF);
        return Ok(());
    };
    if let Some(refusal) = refusal(&file, count) {
        *reply = Reply::Refused(refusal);
        return Ok(());
    }
    if file.inode.size > MAX_SIZE {
        return Err(Halt::Unsound);
    }
    match bytes_at(alloc, blocks, geometry, &file.inode, file.position, count)? {
        Ok(bytes) => {
            opens.set_position(session, fd, file.position + bytes.len() as u32);
            *reply = Reply::Bytes(bytes);
            Ok(())
        }
        Err(_) => {
            *reply = Reply::Refused(Errno::ENOMEM);
            Ok(())
        }
    }
}
