//! Calls by their words.

ghost use Rattle.std.specs.Prelude.{◌≡◌};
ghost use Rattle.std.specs.Option.{option_map};
ghost use Rattle.call_text.specs.Words.{words_of};
ghost use Rattle.call_text.specs.WrittenCalls.{meant};
ghost use Rattle.call_text.specs.Calls.{call_of, call_of_three, whence_of};

use crate::bytes::{byte, flags};
use crate::words::{cut, decimal, half, mode, offset, path};
use crate::written_call::call::WrittenCall;
use crate::written_call::short::{call_of_none, call_of_one, call_of_two, count_of};
use tree::{Call, Whence};

/// Where a seek counts from: `set`, `cur` or `end`.
fn whence(word: &[u8]) -> Option<Whence>
    ensures { result ≡ whence_of word.now }
{
    if word == b"set".as_slice() {
        Some(Whence::Set)
    } else if word == b"cur".as_slice() {
        Some(Whence::Cur)
    } else if word == b"end".as_slice() {
        Some(Whence::End)
    } else {
        None
    }
}

/// A call of three words.
fn call_of_three<'t>(
    name: &[u8],
    first: &'t [u8],
    second: &'t [u8],
    third: &'t [u8],
) -> Option<WrittenCall<'t>>
    ensures { option_map meant result ≡ call_of_three name.now first.now second.now third.now }
{
    if name == b"open".as_slice() {
        let (path, flags, mode) = (path(first)?, flags(second)?, mode(third)?);
        Some(WrittenCall::Whole(Call::Open { path, flags, mode }))
    } else if name == b"fill".as_slice() {
        let (fd, count, byte) = (decimal(first)?, count_of(second)?, byte(third)?);
        Some(WrittenCall::Fill { fd, count, byte })
    } else if name == b"seek".as_slice() {
        let (fd, whence, offset) = (decimal(first)?, whence(second)?, offset(third)?);
        Some(WrittenCall::Whole(Call::Seek { fd, whence, offset }))
    } else if name == b"chown".as_slice() {
        let (path, uid, gid) = (path(first)?, half(second)?, half(third)?);
        Some(WrittenCall::Whole(Call::Chown { path, uid, gid }))
    } else if name == b"utime".as_slice() {
        let (path, atime, mtime) = (path(first)?, decimal(second)?, decimal(third)?);
        Some(WrittenCall::Whole(Call::Utime { path, atime, mtime }))
    } else {
        None
    }
}

/// The call that a line's words name, a space between two: each call of the server by its name and what it takes, as `write FD HEX`.
pub fn read_call(words: &[u8]) -> Option<WrittenCall<'_>>
    ensures { option_map meant result ≡ call_of (words_of words.now) }
{
    let Some((name, rest)) = cut(words, b' ') else {
        return call_of_none(words);
    };
    let Some((first, rest)) = cut(rest, b' ') else {
        return call_of_one(name, rest);
    };
    let Some((second, third)) = cut(rest, b' ') else {
        return call_of_two(name, first, rest);
    };
    match cut(third, b' ') {
        Some(_) => None,
        None => call_of_three(name, first, second, third),
    }
}
