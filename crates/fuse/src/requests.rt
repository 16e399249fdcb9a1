//! The fields of each request.

ghost use Rattle.std.specs.Prelude.{◌≡◌, ℕ, List, Some, [], Result, Ok, IfOk};
ghost use Rattle.std.specs.Borrow.{Bor};
ghost use Rattle.fields.specs.declared.fault.MalformedMessage.{MalformedMessage};
ghost use Rattle.fields.specs.Fields.{Kind};
ghost use Rattle.fields.specs.Parts.{Gives};
ghost use Rattle.fields.specs.Readers.{TakesAll};
ghost use Rattle.fuse.specs.Requests.{Body, body_of, kinds_of, span_kinds, span_fields, tail_length};
ghost use Rattle.fuse.specs.Reading.{typed_at, TakesTail};

use crate::forgets::Forgets;
use crate::opcode;
use crate::request::{Request, Span};
use fields::fault::MalformedMessage;
use fields::fields::{bytes_of, u32_at};
use fields::reader::Reader;

/// How many bytes kernels since 7.36 send behind the flags of INIT.
const MORE: usize = 48;

/// The request of the fields that were read, and the bytes behind it, or the first fault.
fn ended<'a>(
    reader: Reader<'a>,
    request: Request<'a>,
) -> Result<(Request<'a>, &'a [u8]), MalformedMessage>
    ensures plain { (input : Bor (List ℕ)) (kinds : List Kind) → kinds_of (body_of request.entry).opcode ≡ Some kinds
        → (body_of request.entry).tail ≡ [] → ((n : ℕ) → tail_length (body_of request.entry).opcode (body_of request.entry).fields n ≡ 0)
        → TakesAll (Ok input) kinds (body_of request.entry).fields reader.entry.left
        → Gives (λ r. (body_of r.0, r.1.now)) result (typed_at (body_of request.entry).opcode input.now) }
    ensures with_tail { (input : Bor (List ℕ)) (kinds : List Kind) (mid : Result (Bor (List ℕ)) MalformedMessage) (body : Body)
        → kinds_of body.opcode ≡ Some kinds → TakesAll (Ok input) kinds body.fields mid → TakesTail mid body reader.entry.left
        → IfOk reader.entry.left (λ rest. body ≡ body_of request.entry)
        → Gives (λ r. (body_of r.0, r.1.now)) result (typed_at body.opcode input.now) }
{
    match reader.left {
        Ok(rest) => Ok((request, rest)),
        Err(fault) => Err(fault),
    }
}

/// What is wanted of an open file or directory.
fn span_of(reader: &mut Reader<'_>) -> Span
    ensures { TakesAll reader.old.left span_kinds (span_fields result) reader.new.left }
{
    let handle = reader.u64();
    let offset = reader.u64();
    let count = reader.u32();
    let read_flags = reader.u32();
    let lock_owner = reader.u64();
    let flags = reader.u32();
    reader.unused_u32();
    Span {
        handle,
        offset,
        count,
        read_flags,
        lock_owner,
        flags,
    }
}

/// What stands behind the flags of INIT.
fn more_of<'a>(reader: &mut Reader<'a>) -> &'a [u8]
    ensures { TakesTail reader.old.left (record { opcode = 26; fields = []; tail = result.now }) reader.new.left }
{
    let Ok(rest) = reader.left else {
        return &[];
    };
    if rest.is_empty() {
        return &[];
    }
    reader.bytes(MORE)
}

fn lookup(input: &[u8]) -> Result<(Request<'_>, &[u8]), MalformedMessage>
    ensures { Gives (λ r. (body_of r.0, r.1.now)) result (typed_at 1 input.now) }
{
    let mut reader = Reader { left: Ok(input) };
    let name = reader.name();
    ended(reader, Request::Lookup { name })
}

fn forget(input: &[u8]) -> Result<(Request<'_>, &[u8]), MalformedMessage>
    ensures { Gives (λ r. (body_of r.0, r.1.now)) result (typed_at 2 input.now) }
{
    let mut reader = Reader { left: Ok(input) };
    let count = reader.u64();
    ended(reader, Request::Forget { count })
}

fn getattr(input: &[u8]) -> Result<(Request<'_>, &[u8]), MalformedMessage>
    ensures { Gives (λ r. (body_of r.0, r.1.now)) result (typed_at 3 input.now) }
{
    let mut reader = Reader { left: Ok(input) };
    let flags = reader.u32();
    reader.unused_u32();
    let handle = reader.u64();
    ended(reader, Request::Getattr { flags, handle })
}

fn setattr(input: &[u8]) -> Result<(Request<'_>, &[u8]), MalformedMessage>
    ensures { Gives (λ r. (body_of r.0, r.1.now)) result (typed_at 4 input.now) }
{
    let mut reader = Reader { left: Ok(input) };
    let valid = reader.u32();
    reader.unused_u32();
    let handle = reader.u64();
    let size = reader.u64();
    let lock_owner = reader.u64();
    let atime = reader.u64();
    let mtime = reader.u64();
    let ctime = reader.u64();
    let atime_nanoseconds = reader.u32();
    let mtime_nanoseconds = reader.u32();
    let ctime_nanoseconds = reader.u32();
    let mode = reader.u32();
    reader.unused_u32();
    let uid = reader.u32();
    let gid = reader.u32();
    reader.unused_u32();
    ended(
        reader,
        Request::Setattr {
            valid,
            handle,
            size,
            lock_owner,
            atime: (atime, atime_nanoseconds),
            mtime: (mtime, mtime_nanoseconds),
            ctime: (ctime, ctime_nanoseconds),
            mode,
            uid,
            gid,
        },
    )
}

fn readlink(input: &[u8]) -> Result<(Request<'_>, &[u8]), MalformedMessage>
    ensures { Gives (λ r. (body_of r.0, r.1.now)) result (typed_at 5 input.now) }
{
    let reader = Reader { left: Ok(input) };
    ended(reader, Request::Readlink)
}

fn symlink(input: &[u8]) -> Result<(Request<'_>, &[u8]), MalformedMessage>
    ensures { Gives (λ r. (body_of r.0, r.1.now)) result (typed_at 6 input.now) }
{
    let mut reader = Reader { left: Ok(input) };
    let name = reader.name();
    let target = reader.name();
    ended(reader, Request::Symlink { name, target })
}

fn mknod(input: &[u8]) -> Result<(Request<'_>, &[u8]), MalformedMessage>
    ensures { Gives (λ r. (body_of r.0, r.1.now)) result (typed_at 8 input.now) }
{
    let mut reader = Reader { left: Ok(input) };
    let mode = reader.u32();
    let device = reader.u32();
    let umask = reader.u32();
    reader.unused_u32();
    let name = reader.name();
    ended(
        reader,
        Request::Mknod {
            mode,
            device,
            umask,
            name,
        },
    )
}

fn mkdir(input: &[u8]) -> Result<(Request<'_>, &[u8]), MalformedMessage>
    ensures { Gives (λ r. (body_of r.0, r.1.now)) result (typed_at 9 input.now) }
{
    let mut reader = Reader { left: Ok(input) };
    let mode = reader.u32();
    let umask = reader.u32();
    let name = reader.name();
    ended(reader, Request::Mkdir { mode, umask, name })
}

fn unlink(input: &[u8]) -> Result<(Request<'_>, &[u8]), MalformedMessage>
    ensures { Gives (λ r. (body_of r.0, r.1.now)) result (typed_at 10 input.now) }
{
    let mut reader = Reader { left: Ok(input) };
    let name = reader.name();
    ended(reader, Request::Unlink { name })
}

fn rmdir(input: &[u8]) -> Result<(Request<'_>, &[u8]), MalformedMessage>
    ensures { Gives (λ r. (body_of r.0, r.1.now)) result (typed_at 11 input.now) }
{
    let mut reader = Reader { left: Ok(input) };
    let name = reader.name();
    ended(reader, Request::Rmdir { name })
}

fn rename(input: &[u8]) -> Result<(Request<'_>, &[u8]), MalformedMessage>
    ensures { Gives (λ r. (body_of r.0, r.1.now)) result (typed_at 12 input.now) }
{
    let mut reader = Reader { left: Ok(input) };
    let new_directory = reader.u64();
    let old_name = reader.name();
    let new_name = reader.name();
    ended(
        reader,
        Request::Rename {
            new_directory,
            old_name,
            new_name,
        },
    )
}

fn link(input: &[u8]) -> Result<(Request<'_>, &[u8]), MalformedMessage>
    ensures { Gives (λ r. (body_of r.0, r.1.now)) result (typed_at 13 input.now) }
{
    let mut reader = Reader { left: Ok(input) };
    let file = reader.u64();
    let name = reader.name();
    ended(reader, Request::Link { file, name })
}

fn open(input: &[u8]) -> Result<(Request<'_>, &[u8]), MalformedMessage>
    ensures { Gives (λ r. (body_of r.0, r.1.now)) result (typed_at 14 input.now) }
{
    let mut reader = Reader { left: Ok(input) };
    let flags = reader.u32();
    let open_flags = reader.u32();
    ended(reader, Request::Open { flags, open_flags })
}

fn read(input: &[u8]) -> Result<(Request<'_>, &[u8]), MalformedMessage>
    ensures { Gives (λ r. (body_of r.0, r.1.now)) result (typed_at 15 input.now) }
{
    let mut reader = Reader { left: Ok(input) };
    let span = span_of(&mut reader);
    ended(reader, Request::Read { span })
}

fn write(input: &[u8]) -> Result<(Request<'_>, &[u8]), MalformedMessage>
    ensures { Gives (λ r. (body_of r.0, r.1.now)) result (typed_at 16 input.now) }
{
    let mut reader = Reader { left: Ok(input) };
    let handle = reader.u64();
    let offset = reader.u64();
    let size = reader.u32();
    let write_flags = reader.u32();
    let lock_owner = reader.u64();
    let flags = reader.u32();
    reader.unused_u32();
    let bytes = reader.bytes(size as usize);
    ended(
        reader,
        Request::Write {
            handle,
            offset,
            write_flags,
            lock_owner,
            flags,
            bytes,
        },
    )
}

fn statfs(input: &[u8]) -> Result<(Request<'_>, &[u8]), MalformedMessage>
    ensures { Gives (λ r. (body_of r.0, r.1.now)) result (typed_at 17 input.now) }
{
    let reader = Reader { left: Ok(input) };
    ended(reader, Request::Statfs)
}

fn release(input: &[u8]) -> Result<(Request<'_>, &[u8]), MalformedMessage>
    ensures { Gives (λ r. (body_of r.0, r.1.now)) result (typed_at 18 input.now) }
{
    let mut reader = Reader { left: Ok(input) };
    let handle = reader.u64();
    let flags = reader.u32();
    let release_flags = reader.u32();
    let lock_owner = reader.u64();
    ended(
        reader,
        Request::Release {
            handle,
            flags,
            release_flags,
            lock_owner,
        },
    )
}

fn fsync(input: &[u8]) -> Result<(Request<'_>, &[u8]), MalformedMessage>
    ensures { Gives (λ r. (body_of r.0, r.1.now)) result (typed_at 20 input.now) }
{
    let mut reader = Reader { left: Ok(input) };
    let handle = reader.u64();
    let fsync_flags = reader.u32();
    reader.unused_u32();
    ended(
        reader,
        Request::Fsync {
            handle,
            fsync_flags,
        },
    )
}

fn flush(input: &[u8]) -> Result<(Request<'_>, &[u8]), MalformedMessage>
    ensures { Gives (λ r. (body_of r.0, r.1.now)) result (typed_at 25 input.now) }
{
    let mut reader = Reader { left: Ok(input) };
    let handle = reader.u64();
    reader.unused_u32();
    reader.unused_u32();
    let lock_owner = reader.u64();
    ended(reader, Request::Flush { handle, lock_owner })
}

fn init(input: &[u8]) -> Result<(Request<'_>, &[u8]), MalformedMessage>
    ensures { Gives (λ r. (body_of r.0, r.1.now)) result (typed_at 26 input.now) }
{
    let mut reader = Reader { left: Ok(input) };
    let major = reader.u32();
    let minor = reader.u32();
    let readahead = reader.u32();
    let flags = reader.u32();
    let more = more_of(&mut reader);
    ended(
        reader,
        Request::Init {
            major,
            minor,
            readahead,
            flags,
            more,
        },
    )
}

fn opendir(input: &[u8]) -> Result<(Request<'_>, &[u8]), MalformedMessage>
    ensures { Gives (λ r. (body_of r.0, r.1.now)) result (typed_at 27 input.now) }
{
    let mut reader = Reader { left: Ok(input) };
    let flags = reader.u32();
    let open_flags = reader.u32();
    ended(reader, Request::Opendir { flags, open_flags })
}

fn readdir(input: &[u8]) -> Result<(Request<'_>, &[u8]), MalformedMessage>
    ensures { Gives (λ r. (body_of r.0, r.1.now)) result (typed_at 28 input.now) }
{
    let mut reader = Reader { left: Ok(input) };
    let span = span_of(&mut reader);
    ended(reader, Request::Readdir { span })
}

fn releasedir(input: &[u8]) -> Result<(Request<'_>, &[u8]), MalformedMessage>
    ensures { Gives (λ r. (body_of r.0, r.1.now)) result (typed_at 29 input.now) }
{
    let mut reader = Reader { left: Ok(input) };
    let handle = reader.u64();
    let flags = reader.u32();
    let release_flags = reader.u32();
    let lock_owner = reader.u64();
    ended(
        reader,
        Request::Releasedir {
            handle,
            flags,
            release_flags,
            lock_owner,
        },
    )
}

fn fsyncdir(input: &[u8]) -> Result<(Request<'_>, &[u8]), MalformedMessage>
    ensures { Gives (λ r. (body_of r.0, r.1.now)) result (typed_at 30 input.now) }
{
    let mut reader = Reader { left: Ok(input) };
    let handle = reader.u64();
    let fsync_flags = reader.u32();
    reader.unused_u32();
    ended(
        reader,
        Request::Fsyncdir {
            handle,
            fsync_flags,
        },
    )
}

fn access(input: &[u8]) -> Result<(Request<'_>, &[u8]), MalformedMessage>
    ensures { Gives (λ r. (body_of r.0, r.1.now)) result (typed_at 34 input.now) }
{
    let mut reader = Reader { left: Ok(input) };
    let mask = reader.u32();
    reader.unused_u32();
    ended(reader, Request::Access { mask })
}

fn create(input: &[u8]) -> Result<(Request<'_>, &[u8]), MalformedMessage>
    ensures { Gives (λ r. (body_of r.0, r.1.now)) result (typed_at 35 input.now) }
{
    let mut reader = Reader { left: Ok(input) };
    let flags = reader.u32();
    let mode = reader.u32();
    let umask = reader.u32();
    let open_flags = reader.u32();
    let name = reader.name();
    ended(
        reader,
        Request::Create {
            flags,
            mode,
            umask,
            open_flags,
            name,
        },
    )
}

fn interrupt(input: &[u8]) -> Result<(Request<'_>, &[u8]), MalformedMessage>
    ensures { Gives (λ r. (body_of r.0, r.1.now)) result (typed_at 36 input.now) }
{
    let mut reader = Reader { left: Ok(input) };
    let unique = reader.u64();
    ended(reader, Request::Interrupt { unique })
}

fn destroy(input: &[u8]) -> Result<(Request<'_>, &[u8]), MalformedMessage>
    ensures { Gives (λ r. (body_of r.0, r.1.now)) result (typed_at 38 input.now) }
{
    let reader = Reader { left: Ok(input) };
    ended(reader, Request::Destroy)
}

#[tactic(auto, unfolding(crate::specs::Reading::typed_at, fields::specs::Parts::fields_at))]
fn batch_forget(input: &[u8]) -> Result<(Request<'_>, &[u8]), MalformedMessage>
    ensures { Gives (λ r. (body_of r.0, r.1.now)) result (typed_at 42 input.now) }
{
    let (count, rest) = u32_at(input)?;
    let (_, rest) = u32_at(rest)?;
    let (bytes, rest) = bytes_of(16 * count as usize, rest)?;
    let nodes = Forgets { count, bytes };
    Ok((Request::BatchForget { nodes }, rest))
}

fn readdirplus(input: &[u8]) -> Result<(Request<'_>, &[u8]), MalformedMessage>
    ensures { Gives (λ r. (body_of r.0, r.1.now)) result (typed_at 44 input.now) }
{
    let mut reader = Reader { left: Ok(input) };
    let span = span_of(&mut reader);
    ended(reader, Request::Readdirplus { span })
}

fn rename2(input: &[u8]) -> Result<(Request<'_>, &[u8]), MalformedMessage>
    ensures { Gives (λ r. (body_of r.0, r.1.now)) result (typed_at 45 input.now) }
{
    let mut reader = Reader { left: Ok(input) };
    let new_directory = reader.u64();
    let flags = reader.u32();
    reader.unused_u32();
    let old_name = reader.name();
    let new_name = reader.name();
    ended(
        reader,
        Request::Rename2 {
            new_directory,
            flags,
            old_name,
            new_name,
        },
    )
}

/// What stands behind the head of a request with this opcode.
#[tactic(auto, unfolding(crate::specs::Reading::typed_at))]
pub(crate) fn typed(opcode: u32, input: &[u8]) -> Result<(Request<'_>, &[u8]), MalformedMessage>
    ensures { Gives (λ r. (body_of r.0, r.1.now)) result (typed_at opcode input.now) }
{
    match opcode {
        opcode::LOOKUP => lookup(input),
        opcode::FORGET => forget(input),
        opcode::GETATTR => getattr(input),
        opcode::SETATTR => setattr(input),
        opcode::READLINK => readlink(input),
        opcode::SYMLINK => symlink(input),
        opcode::MKNOD => mknod(input),
        opcode::MKDIR => mkdir(input),
        opcode::UNLINK => unlink(input),
        opcode::RMDIR => rmdir(input),
        opcode::RENAME => rename(input),
        opcode::LINK => link(input),
        opcode::OPEN => open(input),
        opcode::READ => read(input),
        opcode::WRITE => write(input),
        opcode::STATFS => statfs(input),
        opcode::RELEASE => release(input),
        opcode::FSYNC => fsync(input),
        opcode::FLUSH => flush(input),
        opcode::INIT => init(input),
        opcode::OPENDIR => opendir(input),
        opcode::READDIR => readdir(input),
        opcode::RELEASEDIR => releasedir(input),
        opcode::FSYNCDIR => fsyncdir(input),
        opcode::ACCESS => access(input),
        opcode::CREATE => create(input),
        opcode::INTERRUPT => interrupt(input),
        opcode::DESTROY => destroy(input),
        opcode::BATCH_FORGET => batch_forget(input),
        opcode::READDIRPLUS => readdirplus(input),
        opcode::RENAME2 => rename2(input),
        _ => Ok((
            Request::Unknown {
                opcode,
                body: input,
            },
            &[],
        )),
    }
}
