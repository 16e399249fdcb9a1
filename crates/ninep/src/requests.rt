//! The fields of each request.

ghost use Rattle.std.specs.Prelude.{◌≡◌};
ghost use Rattle.ninep.specs.Requests.{body_of};
ghost use Rattle.ninep.specs.Parts.{Gives};
ghost use Rattle.ninep.specs.Reading.{typed_at};

use crate::fault::MalformedMessage;
use crate::reader::Reader;
use crate::request::Request;

fn statfs(input: &[u8]) -> Result<(Request<'_>, &[u8]), MalformedMessage>
    ensures { Gives (λ r. (body_of r.0, r.1.now)) result (typed_at 8 input.now) }
{
    let mut reader = Reader { left: Ok(input) };
    let request = Request::Statfs { fid: reader.u32() };
    reader.end(request)
}

fn open(input: &[u8]) -> Result<(Request<'_>, &[u8]), MalformedMessage>
    ensures { Gives (λ r. (body_of r.0, r.1.now)) result (typed_at 12 input.now) }
{
    let mut reader = Reader { left: Ok(input) };
    let request = Request::Open {
        fid: reader.u32(),
        flags: reader.u32(),
    };
    reader.end(request)
}

fn create(input: &[u8]) -> Result<(Request<'_>, &[u8]), MalformedMessage>
    ensures { Gives (λ r. (body_of r.0, r.1.now)) result (typed_at 14 input.now) }
{
    let mut reader = Reader { left: Ok(input) };
    let request = Request::Create {
        fid: reader.u32(),
        name: reader.text(),
        flags: reader.u32(),
        mode: reader.u32(),
        gid: reader.u32(),
    };
    reader.end(request)
}

fn symlink(input: &[u8]) -> Result<(Request<'_>, &[u8]), MalformedMessage>
    ensures { Gives (λ r. (body_of r.0, r.1.now)) result (typed_at 16 input.now) }
{
    let mut reader = Reader { left: Ok(input) };
    let request = Request::Symlink {
        directory: reader.u32(),
        name: reader.text(),
        target: reader.text(),
        gid: reader.u32(),
    };
    reader.end(request)
}

fn mknod(input: &[u8]) -> Result<(Request<'_>, &[u8]), MalformedMessage>
    ensures { Gives (λ r. (body_of r.0, r.1.now)) result (typed_at 18 input.now) }
{
    let mut reader = Reader { left: Ok(input) };
    let request = Request::Mknod {
        directory: reader.u32(),
        name: reader.text(),
        mode: reader.u32(),
        major: reader.u32(),
        minor: reader.u32(),
        gid: reader.u32(),
    };
    reader.end(request)
}

fn rename(input: &[u8]) -> Result<(Request<'_>, &[u8]), MalformedMessage>
    ensures { Gives (λ r. (body_of r.0, r.1.now)) result (typed_at 20 input.now) }
{
    let mut reader = Reader { left: Ok(input) };
    let request = Request::Rename {
        fid: reader.u32(),
        directory: reader.u32(),
        name: reader.text(),
    };
    reader.end(request)
}

fn readlink(input: &[u8]) -> Result<(Request<'_>, &[u8]), MalformedMessage>
    ensures { Gives (λ r. (body_of r.0, r.1.now)) result (typed_at 22 input.now) }
{
    let mut reader = Reader { left: Ok(input) };
    let request = Request::Readlink { fid: reader.u32() };
    reader.end(request)
}

fn getattr(input: &[u8]) -> Result<(Request<'_>, &[u8]), MalformedMessage>
    ensures { Gives (λ r. (body_of r.0, r.1.now)) result (typed_at 24 input.now) }
{
    let mut reader = Reader { left: Ok(input) };
    let request = Request::Getattr {
        fid: reader.u32(),
        mask: reader.u64(),
    };
    reader.end(request)
}

fn xattrwalk(input: &[u8]) -> Result<(Request<'_>, &[u8]), MalformedMessage>
    ensures { Gives (λ r. (body_of r.0, r.1.now)) result (typed_at 30 input.now) }
{
    let mut reader = Reader { left: Ok(input) };
    let request = Request::Xattrwalk {
        fid: reader.u32(),
        new_fid: reader.u32(),
        name: reader.text(),
    };
    reader.end(request)
}

fn xattrcreate(input: &[u8]) -> Result<(Request<'_>, &[u8]), MalformedMessage>
    ensures { Gives (λ r. (body_of r.0, r.1.now)) result (typed_at 32 input.now) }
{
    let mut reader = Reader { left: Ok(input) };
    let request = Request::Xattrcreate {
        fid: reader.u32(),
        name: reader.text(),
        size: reader.u64(),
        flags: reader.u32(),
    };
    reader.end(request)
}

fn readdir(input: &[u8]) -> Result<(Request<'_>, &[u8]), MalformedMessage>
    ensures { Gives (λ r. (body_of r.0, r.1.now)) result (typed_at 40 input.now) }
{
    let mut reader = Reader { left: Ok(input) };
    let request = Request::Readdir {
        fid: reader.u32(),
        offset: reader.u64(),
        count: reader.u32(),
    };
    reader.end(request)
}

fn fsync(input: &[u8]) -> Result<(Request<'_>, &[u8]), MalformedMessage>
    ensures { Gives (λ r. (body_of r.0, r.1.now)) result (typed_at 50 input.now) }
{
    let mut reader = Reader { left: Ok(input) };
    let request = Request::Fsync {
        fid: reader.u32(),
        data_only: reader.u32(),
    };
    reader.end(request)
}

fn lock(input: &[u8]) -> Result<(Request<'_>, &[u8]), MalformedMessage>
    ensures { Gives (λ r. (body_of r.0, r.1.now)) result (typed_at 52 input.now) }
{
    let mut reader = Reader { left: Ok(input) };
    let request = Request::Lock {
        fid: reader.u32(),
        kind: reader.u8(),
        flags: reader.u32(),
        start: reader.u64(),
        length: reader.u64(),
        process: reader.u32(),
        client: reader.text(),
    };
    reader.end(request)
}

fn getlock(input: &[u8]) -> Result<(Request<'_>, &[u8]), MalformedMessage>
    ensures { Gives (λ r. (body_of r.0, r.1.now)) result (typed_at 54 input.now) }
{
    let mut reader = Reader { left: Ok(input) };
    let request = Request::Getlock {
        fid: reader.u32(),
        kind: reader.u8(),
        start: reader.u64(),
        length: reader.u64(),
        process: reader.u32(),
        client: reader.text(),
    };
    reader.end(request)
}

fn link(input: &[u8]) -> Result<(Request<'_>, &[u8]), MalformedMessage>
    ensures { Gives (λ r. (body_of r.0, r.1.now)) result (typed_at 70 input.now) }
{
    let mut reader = Reader { left: Ok(input) };
    let request = Request::Link {
        directory: reader.u32(),
        fid: reader.u32(),
        name: reader.text(),
    };
    reader.end(request)
}

fn mkdir(input: &[u8]) -> Result<(Request<'_>, &[u8]), MalformedMessage>
    ensures { Gives (λ r. (body_of r.0, r.1.now)) result (typed_at 72 input.now) }
{
    let mut reader = Reader { left: Ok(input) };
    let request = Request::Mkdir {
        directory: reader.u32(),
        name: reader.text(),
        mode: reader.u32(),
        gid: reader.u32(),
    };
    reader.end(request)
}

fn renameat(input: &[u8]) -> Result<(Request<'_>, &[u8]), MalformedMessage>
    ensures { Gives (λ r. (body_of r.0, r.1.now)) result (typed_at 74 input.now) }
{
    let mut reader = Reader { left: Ok(input) };
    let request = Request::Renameat {
        old_directory: reader.u32(),
        old_name: reader.text(),
        new_directory: reader.u32(),
        new_name: reader.text(),
    };
    reader.end(request)
}

fn unlinkat(input: &[u8]) -> Result<(Request<'_>, &[u8]), MalformedMessage>
    ensures { Gives (λ r. (body_of r.0, r.1.now)) result (typed_at 76 input.now) }
{
    let mut reader = Reader { left: Ok(input) };
    let request = Request::Unlinkat {
        directory: reader.u32(),
        name: reader.text(),
        flags: reader.u32(),
    };
    reader.end(request)
}

fn version(input: &[u8]) -> Result<(Request<'_>, &[u8]), MalformedMessage>
    ensures { Gives (λ r. (body_of r.0, r.1.now)) result (typed_at 100 input.now) }
{
    let mut reader = Reader { left: Ok(input) };
    let request = Request::Version {
        message_size: reader.u32(),
        version: reader.text(),
    };
    reader.end(request)
}

fn auth(input: &[u8]) -> Result<(Request<'_>, &[u8]), MalformedMessage>
    ensures { Gives (λ r. (body_of r.0, r.1.now)) result (typed_at 102 input.now) }
{
    let mut reader = Reader { left: Ok(input) };
    let request = Request::Auth {
        auth_fid: reader.u32(),
        user_name: reader.text(),
        tree: reader.text(),
        uid: reader.u32(),
    };
    reader.end(request)
}

fn attach(input: &[u8]) -> Result<(Request<'_>, &[u8]), MalformedMessage>
    ensures { Gives (λ r. (body_of r.0, r.1.now)) result (typed_at 104 input.now) }
{
    let mut reader = Reader { left: Ok(input) };
    let request = Request::Attach {
        fid: reader.u32(),
        auth_fid: reader.u32(),
        user_name: reader.text(),
        tree: reader.text(),
        uid: reader.u32(),
    };
    reader.end(request)
}

fn flush(input: &[u8]) -> Result<(Request<'_>, &[u8]), MalformedMessage>
    ensures { Gives (λ r. (body_of r.0, r.1.now)) result (typed_at 108 input.now) }
{
    let mut reader = Reader { left: Ok(input) };
    let request = Request::Flush {
        old_tag: reader.u16(),
    };
    reader.end(request)
}

fn walk(input: &[u8]) -> Result<(Request<'_>, &[u8]), MalformedMessage>
    ensures { Gives (λ r. (body_of r.0, r.1.now)) result (typed_at 110 input.now) }
{
    let mut reader = Reader { left: Ok(input) };
    let request = Request::Walk {
        fid: reader.u32(),
        new_fid: reader.u32(),
        names: reader.names(),
    };
    reader.end(request)
}

fn read(input: &[u8]) -> Result<(Request<'_>, &[u8]), MalformedMessage>
    ensures { Gives (λ r. (body_of r.0, r.1.now)) result (typed_at 116 input.now) }
{
    let mut reader = Reader { left: Ok(input) };
    let request = Request::Read {
        fid: reader.u32(),
        offset: reader.u64(),
        count: reader.u32(),
    };
    reader.end(request)
}

fn write(input: &[u8]) -> Result<(Request<'_>, &[u8]), MalformedMessage>
    ensures { Gives (λ r. (body_of r.0, r.1.now)) result (typed_at 118 input.now) }
{
    let mut reader = Reader { left: Ok(input) };
    let request = Request::Write {
        fid: reader.u32(),
        offset: reader.u64(),
        bytes: reader.data(),
    };
    reader.end(request)
}

fn clunk(input: &[u8]) -> Result<(Request<'_>, &[u8]), MalformedMessage>
    ensures { Gives (λ r. (body_of r.0, r.1.now)) result (typed_at 120 input.now) }
{
    let mut reader = Reader { left: Ok(input) };
    let request = Request::Clunk { fid: reader.u32() };
    reader.end(request)
}

fn remove(input: &[u8]) -> Result<(Request<'_>, &[u8]), MalformedMessage>
    ensures { Gives (λ r. (body_of r.0, r.1.now)) result (typed_at 122 input.now) }
{
    let mut reader = Reader { left: Ok(input) };
    let request = Request::Remove { fid: reader.u32() };
    reader.end(request)
}

fn setattr(input: &[u8]) -> Result<(Request<'_>, &[u8]), MalformedMessage>
    ensures { Gives (λ r. (body_of r.0, r.1.now)) result (typed_at 26 input.now) }
{
    let mut reader = Reader { left: Ok(input) };
    let request = Request::Setattr {
        fid: reader.u32(),
        valid: reader.u32(),
        mode: reader.u32(),
        uid: reader.u32(),
        gid: reader.u32(),
        size: reader.u64(),
        atime: (reader.u64(), reader.u64()),
        mtime: (reader.u64(), reader.u64()),
    };
    reader.end(request)
}

/// The fields of a request of the type with this number.
#[tactic(auto, unfolding(crate::specs::Reading::typed_at))]
pub(crate) fn typed(number: u8, input: &[u8]) -> Result<(Request<'_>, &[u8]), MalformedMessage>
    ensures { Gives (λ r. (body_of r.0, r.1.now)) result (typed_at number input.now) }
{
    match number {
        8 => statfs(input),
        12 => open(input),
        14 => create(input),
        16 => symlink(input),
        18 => mknod(input),
        20 => rename(input),
        22 => readlink(input),
        24 => getattr(input),
        26 => setattr(input),
        30 => xattrwalk(input),
        32 => xattrcreate(input),
        40 => readdir(input),
        50 => fsync(input),
        52 => lock(input),
        54 => getlock(input),
        70 => link(input),
        72 => mkdir(input),
        74 => renameat(input),
        76 => unlinkat(input),
        100 => version(input),
        102 => auth(input),
        104 => attach(input),
        108 => flush(input),
        110 => walk(input),
        116 => read(input),
        118 => write(input),
        120 => clunk(input),
        122 => remove(input),
        _ => Err(MalformedMessage::Unknown),
    }
}
