//! The lines of a script.

ghost use Rattle.std.specs.Prelude.{◌≡◌, ◌≢◌, ℕ, List, ◌∷◌, [], ◌++◌, MatchOption, OnOk, OnErr, length};
ghost use Rattle.std.specs.Option.{option_map};
ghost use Rattle.call_text.specs.Words.{words_of};
ghost use Rattle.call_text.specs.Scripts.{line_bytes, line_call, plain_timed, timed_of, user_of};

use crate::call::read_call;
use crate::words::{cut, decimal, half};
use crate::written_call::call::WrittenCall;
use std::alloc::AllocError;
use tree::Call;

/// A call, and when it is made.
#[derive(Clone, Copy, Debug, PartialEq, Eq)]
pub struct TimedCall<'t> {
    /// In seconds since 1970.
    pub time: u32,
    /// Its path and bytes stand in the script and in its text.
    pub call: Call<'t>,
}

/// A line `NOW CALL`. The bytes of its call are still to be decoded.
#[derive(Clone, Copy)]
pub struct TimedLine<'t> {
    /// In seconds since 1970.
    pub time: u32,
    /// The call as its words write it.
    pub call: WrittenCall<'t>,
}

/// The words of a line of three words.
fn three_words(line: &[u8]) -> Option<(&[u8], &[u8], &[u8])>
    ensures { MatchOption result ((a b c : List ℕ) → words_of line.now ≢ a ∷ b ∷ c ∷ [])
        (λ words. words_of line.now ≡ words.0.now ∷ words.1.now ∷ words.2.now ∷ []) }
{
    let (first, rest) = cut(line, b' ')?;
    let (second, third) = cut(rest, b' ')?;
    match cut(third, b' ') {
        Some(_) => None,
        None => Some((first, second, third)),
    }
}

/// The user and the group of a line `user UID GID`, 0 to 65535 each.
pub fn read_user(line: &[u8]) -> Option<(u16, u16)>
    ensures { result ≡ user_of line.now }
{
    let (name, uid, gid) = three_words(line)?;
    if name != b"user".as_slice() {
        return None;
    }
    let uid = half(uid)?;
    let gid = half(gid)?;
    Some((uid, gid))
}

/// The call of a line `NOW CALL`, and its time.
pub fn read_timed(line: &[u8]) -> Option<TimedLine<'_>>
    ensures { option_map line_call result ≡ timed_of line.now }
{
    let (now, words) = cut(line, b' ')?;
    let time = decimal(now)?;
    let call = read_call(words)?;
    Some(TimedLine { time, call })
}

impl TimedLine<'_> {
    /// How many bytes are decoded for its call.
    pub fn decoded_len(&self) -> usize
        ensures { result ≡ length (line_bytes self.now) }
    {
        self.call.decoded_len()
    }

    /// Adds the bytes that are decoded for its call, or none where no memory is found for all of them.
    pub fn decode(&self, to: &mut Vec<u8>) -> Result<(), AllocError>
        ensures ok { OnOk result (to.new.items ≡ to.old.items ++ line_bytes self.now) }
        ensures err { OnErr result (to.new.items ≡ to.old.items) }
    {
        self.call.decode(to)
    }
}

impl<'t> TimedLine<'t> {
    /// The call and its time, with the bytes that were decoded for it.
    pub fn timed(&self, bytes: &'t [u8]) -> TimedCall<'t>
        requires { bytes.now ≡ line_bytes self.now }
        ensures { plain_timed result ≡ line_call self.now }
    {
        TimedCall {
            time: self.time,
            call: self.call.call(bytes),
        }
    }
}
