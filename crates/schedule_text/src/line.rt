//! The lines of a schedule.

ghost use Rattle.std.specs.Prelude.{◌≡◌, ◌<◌, ◌^◌, ◌++◌, IfSome, OnOk, OnErr, length};
ghost use Rattle.std.specs.Option.{option_map};
ghost use Rattle.call_text.specs.Words.{words_of};
ghost use Rattle.schedule_text.specs.Events.{arrival_of, caller_of, event_at, event_of, event_of_none, event_of_one, event_of_two};
ghost use Rattle.schedule_text.specs.Events.{line_bytes, line_event, plain_event};

use call_text::bytes::byte;
use call_text::call::read_call;
use call_text::words::{cut, decimal, half, small};
use call_text::written_call::call::WrittenCall;
use schedule::Event;
use std::alloc::AllocError;
use tree::Who;

/// The greatest number of a line, from 1: a schedule has fewer events than 2 to the 32nd.
pub const LAST_LINE: u64 = 4_294_967_295;

/// A line of a schedule. The bytes of its call are still to be decoded.
#[derive(Clone, Copy)]
pub enum Line<'t> {
    /// `call SESSION UID GID NOW CALL`: a client's call arrives.
    Arrive(Who, u32, WrittenCall<'t>),
    /// `flush`: the server takes Flush.
    Flush,
    /// `tick`: the tick rises by one.
    Tick,
    /// `step G`: the driver of this generation steps once.
    Step(u32),
    /// `die G`, or `die G HH`: the driver dies, and the sector that it was writing is torn to 512 bytes HH.
    Die(u32, Option<u8>),
    /// `hang G`: the driver beats no more.
    Hang(u32),
    /// `deliver N`: the server takes reply N.
    Deliver(u32),
    /// `repeat N`: request N goes once more to the line of its driver.
    Repeat(u32),
}

/// An event of no words but its name.
fn event_of_none<'t>(name: &[u8]) -> Option<Line<'t>>
    ensures { option_map line_event result ≡ event_of_none name.now }
{
    if name == b"flush".as_slice() {
        Some(Line::Flush)
    } else if name == b"tick".as_slice() {
        Some(Line::Tick)
    } else {
        None
    }
}

/// An event of a driver, a reply or a request.
fn event_of_one<'t>(name: &[u8], word: &[u8]) -> Option<Line<'t>>
    ensures { option_map line_event result ≡ event_of_one name.now word.now }
{
    if name == b"step".as_slice() {
        Some(Line::Step(decimal(word)?))
    } else if name == b"die".as_slice() {
        Some(Line::Die(decimal(word)?, None))
    } else if name == b"hang".as_slice() {
        Some(Line::Hang(decimal(word)?))
    } else if name == b"deliver".as_slice() {
        Some(Line::Deliver(decimal(word)?))
    } else if name == b"repeat".as_slice() {
        Some(Line::Repeat(decimal(word)?))
    } else {
        None
    }
}

/// A death that tears a sector.
fn event_of_two<'t>(name: &[u8], generation: &[u8], torn: &[u8]) -> Option<Line<'t>>
    ensures { option_map line_event result ≡ event_of_two name.now generation.now torn.now }
{
    if name != b"die".as_slice() {
        return None;
    }
    let generation = decimal(generation)?;
    let torn = byte(torn)?;
    Some(Line::Die(generation, Some(torn)))
}

/// Who calls.
fn caller(session: &[u8], uid: &[u8], gid: &[u8]) -> Option<Who>
    ensures { result ≡ caller_of session.now uid.now gid.now }
{
    let (session, uid, gid) = (small(session)?, half(uid)?, half(gid)?);
    Some(Who { session, uid, gid })
}

/// A call that arrives, of the words `SESSION UID GID NOW CALL`.
fn arrival(words: &[u8]) -> Option<Line<'_>>
    ensures { option_map line_event result ≡ arrival_of (words_of words.now) }
{
    let (session, rest) = cut(words, b' ')?;
    let (uid, rest) = cut(rest, b' ')?;
    let (gid, rest) = cut(rest, b' ')?;
    let (now, call) = cut(rest, b' ')?;
    let who = caller(session, uid, gid)?;
    let now = decimal(now)?;
    let call = read_call(call)?;
    Some(Line::Arrive(who, now, call))
}

/// The event of a line's words.
fn read_line(line: &[u8]) -> Option<Line<'_>>
    ensures { option_map line_event result ≡ event_of (words_of line.now) }
{
    let Some((name, rest)) = cut(line, b' ') else {
        return event_of_none(line);
    };
    if name == b"call".as_slice() {
        return arrival(rest);
    }
    let Some((first, second)) = cut(rest, b' ') else {
        return event_of_one(name, rest);
    };
    match cut(second, b' ') {
        Some(_) => None,
        None => event_of_two(name, first, second),
    }
}

/// The event of the line of this number, counted from 1; none past [`LAST_LINE`].
pub fn read_numbered(number: u64, line: &[u8]) -> Option<Line<'_>>
    ensures event { option_map line_event result ≡ event_at number line.now }
    ensures few { IfSome result (λ _. number < 2 ^ 32) }
{
    if number > LAST_LINE {
        None
    } else {
        read_line(line)
    }
}

impl Line<'_> {
    /// How many bytes are decoded for its call.
    pub fn decoded_len(&self) -> usize
        ensures { result ≡ length (line_bytes self.now) }
    {
        match self {
            Line::Arrive(_, _, call) => call.decoded_len(),
            _ => 0,
        }
    }

    /// Adds the bytes that are decoded for its call, or none where no memory is found for all of them.
    pub fn decode(&self, to: &mut Vec<u8>) -> Result<(), AllocError>
        ensures ok { OnOk result (to.new.items ≡ to.old.items ++ line_bytes self.now) }
        ensures err { OnErr result (to.new.items ≡ to.old.items) }
    {
        match self {
            Line::Arrive(_, _, call) => call.decode(to),
            _ => Ok(()),
        }
    }
}

impl<'t> Line<'t> {
    /// The event, with the bytes that were decoded for its call.
    pub fn event(&self, bytes: &'t [u8]) -> Event<'t>
        requires { bytes.now ≡ line_bytes self.now }
        ensures { plain_event result ≡ line_event self.now }
    {
        match *self {
            Line::Arrive(who, now, call) => Event::Arrive(who, now, call.call(bytes)),
            Line::Flush => Event::Flush,
            Line::Tick => Event::Tick,
            Line::Step(generation) => Event::Step(generation),
            Line::Die(generation, None) => Event::Die(generation, None),
            Line::Die(generation, Some(byte)) => Event::Die(generation, Some([byte; 512])),
            Line::Hang(generation) => Event::Hang(generation),
            Line::Deliver(reply) => Event::Deliver(reply),
            Line::Repeat(request) => Event::Repeat(request),
        }
    }
}
