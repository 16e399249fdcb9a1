//! Writes to open files.

ghost use Rattle.std.specs.Prelude.{◌≡◌, ◌≢◌, ◌<◌, IfErr, OnOk, length};
ghost use Rattle.tree.specs.Tree.{most_sessions};
ghost use Rattle.tree.specs.FileCalls.{write};
ghost use Rattle.tree.specs.Answers.{answer_of, refused};
ghost use Rattle.descriptors.specs.Files.{HasFiles};
ghost use Rattle.descriptors.specs.Table.{files_of};
ghost use Rattle.block_store.specs.World.{Turns};
ghost use Rattle.block_store.specs.Volume.{IsOn};
ghost use Rattle.block_store.specs.Halts.{IsHalt};
ghost use Rattle.calls_attributes.specs.Does.{Meets};
ghost use Rattle.calls_files.specs.Writing.{write_place, why_unwritten};

use crate::dated::write_if_room;
use block_store::{Blocks, Halt};
use calls_attributes::found::{Found, find, is_directory, is_link};
use descriptors::Descriptors;
use errno::Errno;
use layout::Geometry;
use tree::{MAX_SIZE, MAX_TRANSFER, Reply};

/// Where a write to an open file begins: with the append flag at the end of the file, else at the position.
fn write_place(file: &Found) -> u32
    ensures { result ≡ write_place file.now }
{
    if file.flags.appends() {
        file.inode.size
    } else {
        file.position
    }
}

/// Why so many bytes can't be written to an open file, if they can't.
fn refusal(file: &Found, count: usize) -> Option<Errno>
    ensures { result ≡ why_unwritten file.now count }
{
    if !file.flags.writes() {
        Some(Errno::EBADF)
    } else if count > MAX_TRANSFER as usize {
        Some(Errno::EINVAL)
    } else if is_directory(&file.inode) || is_link(&file.inode) {
        Some(Errno::EBADF)
    } else if write_place(file) as usize + count > MAX_SIZE as usize {
        Some(Errno::EFBIG)
    } else {
        None
    }
}

/// write: all the bytes, at an open file's position or with the append flag at the end of the file; the position moves behind them. No
/// bytes change nothing. EBADF where the descriptor leads to no open file, or to one that isn't open for writing, else EINVAL of more
/// than 65536 bytes, else EFBIG where the file would be longer than 2147483647 bytes, else ENOSPC where there are too few zones for all
/// of the bytes; then nothing is changed.
pub fn write<B: Blocks>(
    blocks: &mut B,
    opens: &mut Descriptors,
    geometry: &Geometry,
    now: u32,
    session: u8,
    fd: u32,
    bytes: &[u8],
    reply: &mut Reply,
) -> Result<(), Halt>
    requires on { IsOn B.world geometry.now blocks.old }
    requires session { session < most_sessions }
    ensures turns { Turns B.world blocks.old blocks.new (λ d e. Meets geometry.now (λ t. write geometry.now t now session fd bytes.now)
        result reply.new (HasFiles (files_of opens.old)) (HasFiles (files_of opens.new)) d e) }
    ensures halt { IfErr result (λ h. IsHalt B.world blocks.new h) }
    ensures proper { OnOk result (answer_of reply.new ≢ refused Errno.EIO) }
{
    let Some(file) = find(blocks, opens, geometry, session, fd)? else {
        *reply = Reply::Refused(Errno::EBADF);
        return Ok(());
    };
    if let Some(refusal) = refusal(&file, bytes.len()) {
        *reply = Reply::Refused(refusal);
        return Ok(());
    }
    if bytes.is_empty() {
        *reply = Reply::Wrote(0);
        return Ok(());
    }
    let at = write_place(&file);
    if !write_if_room(blocks, geometry, u32::from(file.number), at, bytes, now)? {
        *reply = Reply::Refused(Errno::ENOSPC);
        return Ok(());
    }
    let count = bytes.len() as u32;
    opens.set_position(session, fd, at + count);
    *reply = Reply::Wrote(count);
    Ok(())
}
