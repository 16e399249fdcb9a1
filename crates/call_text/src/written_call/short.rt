//! Calls of up to two words behind their names.

ghost use Rattle.std.specs.Prelude.{◌≡◌};
ghost use Rattle.std.specs.Option.{option_map};
ghost use Rattle.call_text.specs.WrittenCalls.{call_of_none, call_of_one, call_of_two, count, meant};

use crate::bytes::digits;
use crate::words::{decimal, mode, path, target};
use crate::written_call::call::WrittenCall;
use tree::Call;

/// How many bytes to read or to fill, at most 131072; none where the word is no such number.
pub fn count_of(word: &[u8]) -> Option<u32>
    ensures { result ≡ count word.now }
{
    let count = decimal(word)?;
    if count <= 131_072 { Some(count) } else { None }
}

/// A call of no words but its name; none where no such call has the name.
pub fn call_of_none<'t>(name: &[u8]) -> Option<WrittenCall<'t>>
    ensures { option_map meant result ≡ call_of_none name.now }
{
    if name == b"sync".as_slice() {
        Some(WrittenCall::Whole(Call::Sync))
    } else if name == b"statfs".as_slice() {
        Some(WrittenCall::Whole(Call::Statfs))
    } else {
        None
    }
}

/// A call of a descriptor or of a path; none where no such call has the name, or the word is not of its kind.
pub fn call_of_one<'t>(name: &[u8], word: &'t [u8]) -> Option<WrittenCall<'t>>
    ensures { option_map meant result ≡ call_of_one name.now word.now }
{
    let call = if name == b"close".as_slice() {
        Call::Close { fd: decimal(word)? }
    } else if name == b"dup".as_slice() {
        Call::Dup { fd: decimal(word)? }
    } else if name == b"fstat".as_slice() {
        Call::Fstat { fd: decimal(word)? }
    } else if name == b"readdir".as_slice() {
        Call::Readdir { fd: decimal(word)? }
    } else if name == b"stat".as_slice() {
        Call::Stat { path: path(word)? }
    } else if name == b"unlink".as_slice() {
        Call::Unlink { path: path(word)? }
    } else if name == b"rmdir".as_slice() {
        Call::Rmdir { path: path(word)? }
    } else if name == b"readlink".as_slice() {
        Call::Readlink { path: path(word)? }
    } else if name == b"lstat".as_slice() {
        Call::Lstat { path: path(word)? }
    } else {
        return None;
    };
    Some(WrittenCall::Whole(call))
}

/// A call of two words; none where no such call has the name, or a word is not of its kind.
pub fn call_of_two<'t>(name: &[u8], first: &'t [u8], second: &'t [u8]) -> Option<WrittenCall<'t>>
    ensures { option_map meant result ≡ call_of_two name.now first.now second.now }
{
    if name == b"read".as_slice() {
        let (fd, count) = (decimal(first)?, count_of(second)?);
        Some(WrittenCall::Whole(Call::Read { fd, count }))
    } else if name == b"write".as_slice() {
        let (fd, digits) = (decimal(first)?, digits(second)?);
        Some(WrittenCall::Hex { fd, digits })
    } else if name == b"link".as_slice() {
        let (old, new) = (path(first)?, path(second)?);
        Some(WrittenCall::Whole(Call::Link { old, new }))
    } else if name == b"symlink".as_slice() {
        let (target, path) = (target(first)?, path(second)?);
        Some(WrittenCall::Whole(Call::Symlink { target, path }))
    } else if name == b"rename".as_slice() {
        let (old, new) = (path(first)?, path(second)?);
        Some(WrittenCall::Whole(Call::Rename { old, new }))
    } else if name == b"mkdir".as_slice() {
        let (path, mode) = (path(first)?, mode(second)?);
        Some(WrittenCall::Whole(Call::Mkdir { path, mode }))
    } else if name == b"chmod".as_slice() {
        let (path, mode) = (path(first)?, mode(second)?);
        Some(WrittenCall::Whole(Call::Chmod { path, mode }))
    } else if name == b"truncate".as_slice() {
        let (path, size) = (path(first)?, decimal(second)?);
        Some(WrittenCall::Whole(Call::Truncate { path, size }))
    } else {
        None
    }
}
