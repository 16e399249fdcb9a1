//! Paths of fids: each name behind a slash, so that the root's is empty.

ghost use Rattle.std.specs.Prelude.{◌≡◌, ◌++◌, IfOk, IfSome, IfNone};
ghost use Rattle.talks.specs.Plain.{from_root, plain_path};
ghost use Rattle.ninep_fids.specs.Paths.{IsRest, IsElsewhere, is_rest, called, placed, below, parent, checked, leads, stepped, is_here, is_above};

use errno::Errno;
use std::alloc::{AllocError, Global};
use talks::refused::Refused;
use tree::{PathFrom, Start};

/// A path as a call has it: from the root.
pub fn called(path: &[u8]) -> PathFrom<'_>
    ensures { plain_path result ≡ from_root (called path.now) }
{
    PathFrom::root(if path.is_empty() { b"/" } else { path })
}

/// A path as a call has it that starts here: at an inode it has no bytes, and names that itself.
pub fn placed(start: Start, path: &[u8]) -> PathFrom<'_>
    ensures { plain_path result ≡ placed start path.now }
{
    match start {
        Start::Root => called(path),
        Start::Inode(_) => PathFrom { start, bytes: b"" },
    }
}

/// The path of a name in a directory.
pub fn below(alloc: Global, directory: &[u8], name: &[u8]) -> Result<Vec<u8>, AllocError>
    ensures { IfOk result (λ path. path.items ≡ below directory.now name.now) }
{
    let mut path = directory.to_vec(alloc)?;
    path.push(b'/')?;
    path.extend_from_slice(name)?;
    Ok(path)
}

/// Whether bytes may stand behind a path in one that is the same or lies below it.
#[tactic(auto, using(crate::proofs::PathLaws::rest_of_none, crate::proofs::PathLaws::rest_of_some))]
fn is_rest(bytes: &[u8]) -> bool
    ensures { result ≡ is_rest bytes.now }
{
    if bytes.is_empty() {
        return true;
    }
    bytes[0] == b'/'
}

/// What a path has behind another one, where it is that one or lies below it.
pub fn rest<'a>(path: &'a [u8], old: &[u8]) -> Option<&'a [u8]>
    ensures some { IfSome result (λ rest. (path.now ≡ old.now ++ rest.now) × IsRest rest.now) }
    ensures none { IfNone result (IsElsewhere old.now path.now) }
{
    let Some(rest) = path.strip_prefix(old) else {
        return None;
    };
    if is_rest(rest) { Some(rest) } else { None }
}

/// A path, and what is behind it.
pub fn joined(alloc: Global, path: &[u8], rest: &[u8]) -> Result<Vec<u8>, AllocError>
    ensures { IfOk result (λ whole. whole.items ≡ path.now ++ rest.now) }
{
    let mut whole = path.to_vec(alloc)?;
    whole.extend_from_slice(rest)?;
    Ok(whole)
}

/// The path of the directory in which a path's last name stands; the root's is its own.
pub fn parent(path: &[u8]) -> &[u8]
    ensures { result.now ≡ parent path.now }
{
    let mut at = path.len();
    while at > 0 {
        at -= 1;
        if path[at] == b'/' {
            return &path[..at];
        }
    }
    path
}

/// Whether a name is a directory's own.
fn is_here(name: &[u8]) -> bool
    ensures { result ≡ is_here name.now }
{
    name == b".".as_slice()
}

/// Whether it is that of the directory above.
fn is_above(name: &[u8]) -> bool
    ensures { result ≡ is_above name.now }
{
    name == b"..".as_slice()
}

/// Refuses a name that no entry may be given: ENOENT where it is empty, else EINVAL.
pub fn check_name(name: &[u8]) -> Result<(), Refused>
    ensures { result ≡ checked name.now }
{
    if name.is_empty() {
        return Err(Refused::By(Errno::ENOENT));
    }
    if is_here(name) || is_above(name) || name.contains(&b'/') || name.contains(&0) {
        return Err(Refused::By(Errno::EINVAL));
    }
    Ok(())
}

/// Refuses a name that leads nowhere from a directory.
pub fn check_step(name: &[u8]) -> Result<(), Refused>
    ensures { result ≡ leads name.now }
{
    if is_here(name) || is_above(name) {
        return Ok(());
    }
    check_name(name)
}

/// Where a name leads from a directory: `.` is the directory itself, `..` the one in which it stands.
pub fn step(alloc: Global, directory: &[u8], name: &[u8]) -> Result<Vec<u8>, AllocError>
    ensures { IfOk result (λ path. path.items ≡ stepped directory.now name.now) }
{
    if is_here(name) {
        directory.to_vec(alloc)
    } else if is_above(name) {
        parent(directory).to_vec(alloc)
    } else {
        below(alloc, directory, name)
    }
}
