//! Notes as they are kept, in little memory: the bytes of requests and replies stand apart, each without the zeros at its end, and so do
//! the replies to calls.

ghost use Rattle.std.specs.Prelude.{◌≡◌, ◌+◌, ◌≤◌, ◌++◌, length, vec_len, vec_capacity};
ghost use Rattle.schedule.specs.KeptNotes.{Grows, IsMessageWithin, IsPlaceWithin, IsWithin, entry_of, message_of, part_of, post_at, request_at};
ghost use Rattle.schedule.specs.Entries.{entry_in};
ghost use Rattle.compact_message.specs.Padded.{incoming_of, request_of};

use crate::Event;
use crate::entry_ref::LogEntryRef;
use crate::log::Post;
use compact_message::{IncomingRef, ReplyHead, ReplyRef, RequestHead, RequestRef, trimmed};
use message::endpoint::Endpoint;
use message::{BlockRequest, Incoming};
use records::marks::Cause;
use std::mem::size_of;
use tree::{Call, Reply, Who};

/// Where bytes stand among all bytes that are kept.
#[derive(Clone, Copy)]
pub struct ByteRange {
    pub start: usize,
    pub len: usize,
}

/// A request that was posted.
#[derive(Clone, Copy)]
pub struct KeptRequest {
    pub to: Endpoint,
    pub head: RequestHead,
    pub place: ByteRange,
}

/// A message that the server took.
#[derive(Clone, Copy)]
pub enum KeptMessage {
    Reply(ReplyHead, ByteRange),
    Started(Endpoint),
    GaveUp,
    Flush,
    End,
}

/// One note. Of a call that was answered, the number of its reply.
#[derive(Clone, Copy, Drop)]
pub enum Kept<'a> {
    Begun(&'a Event<'a>),
    Posted(KeptRequest, bool),
    Complained(Endpoint, bool),
    Received(KeptMessage),
    Handed(KeptMessage),
    Faulted(Endpoint, Cause),
    Took(Who, u32, Call<'a>, usize),
}

const _: () = prove!(size_of::<Kept>() <= 80);

/// Puts bytes behind the others, which has room for them: where they stand.
fn put(all: &mut Vec<u8>, bytes: &[u8]) -> ByteRange
    requires { vec_len all.old + length bytes.now ≤ vec_capacity all.old }
    ensures all { all.new.items ≡ all.old.items ++ bytes.now }
    ensures place { part_of all.new.items result ≡ bytes.now }
    ensures within { IsPlaceWithin (length all.new.items) result }
    ensures capacity { vec_capacity all.old ≤ vec_capacity all.new }
{
    let start = all.len();
    let _ = all.extend_from_slice(bytes);
    ByteRange {
        start,
        len: bytes.len(),
    }
}

/// Keeps a request: its bytes behind the others.
pub fn keep_request(all: &mut Vec<u8>, to: Endpoint, request: &BlockRequest) -> KeptRequest
    requires { vec_len all.old + 4096 ≤ vec_capacity all.old }
    ensures request { request_at all.new.items result ≡ request.now }
    ensures to { result.to ≡ to }
    ensures within { IsPlaceWithin (length all.new.items) result.place }
    ensures grown { Grows all.old.items all.new.items }
    ensures count { vec_len all.new ≤ vec_len all.old + 4096 }
    ensures capacity { vec_capacity all.old ≤ vec_capacity all.new }
{
    KeptRequest {
        to,
        head: RequestHead::of(request),
        place: put(all, trimmed(&request.bytes)),
    }
}

/// Keeps a message: a reply's bytes behind the others.
pub fn keep_message(all: &mut Vec<u8>, message: &Incoming) -> KeptMessage
    requires { vec_len all.old + 4096 ≤ vec_capacity all.old }
    ensures message { message_of all.new.items result ≡ message.now }
    ensures within { IsMessageWithin (length all.new.items) result }
    ensures grown { Grows all.old.items all.new.items }
    ensures count { vec_len all.new ≤ vec_len all.old + 4096 }
    ensures capacity { vec_capacity all.old ≤ vec_capacity all.new }
{
    match message {
        Incoming::Reply(reply) => {
            let place = put(all, trimmed(&reply.bytes));
            KeptMessage::Reply(ReplyHead::of(reply), place)
        }
        Incoming::Started(endpoint) => KeptMessage::Started(*endpoint),
        Incoming::GaveUp => KeptMessage::GaveUp,
        Incoming::Flush => KeptMessage::Flush,
        Incoming::End => KeptMessage::End,
    }
}

/// The bytes at a place.
fn part<'l>(all: &'l [u8], place: &ByteRange) -> &'l [u8]
    requires { IsPlaceWithin (length all.now) place.now }
    ensures { result.now ≡ part_of all.now place.now }
{
    &all[place.start..place.start + place.len]
}

/// A request that is kept beside these bytes, borrowed.
fn shown_request<'l>(all: &'l [u8], kept: &KeptRequest) -> RequestRef<'l>
    requires { IsPlaceWithin (length all.now) kept.now.place }
    ensures { request_of result ≡ request_at all.now kept.now }
{
    RequestRef {
        head: kept.head,
        bytes: part(all, &kept.place),
    }
}

/// The post that is kept beside these bytes.
pub fn post_of(all: &[u8], kept: &KeptRequest) -> Post
    requires { IsPlaceWithin (length all.now) kept.now.place }
    ensures { result ≡ post_at all.now kept.now }
{
    Post {
        to: kept.to,
        request: shown_request(all, kept).request(),
    }
}

/// A message that is kept beside these bytes, borrowed.
fn shown_message<'l>(all: &'l [u8], kept: &KeptMessage) -> IncomingRef<'l>
    requires { IsMessageWithin (length all.now) kept.now }
    ensures { incoming_of result ≡ message_of all.now kept.now }
{
    match kept {
        KeptMessage::Reply(head, place) => {
            let bytes = part(all, place);
            IncomingRef::Reply(ReplyRef { head: *head, bytes })
        }
        KeptMessage::Started(endpoint) => IncomingRef::Started(*endpoint),
        KeptMessage::GaveUp => IncomingRef::GaveUp,
        KeptMessage::Flush => IncomingRef::Flush,
        KeptMessage::End => IncomingRef::End,
    }
}

/// A note that is kept beside these bytes and these replies to calls, borrowed.
pub fn shown<'l>(all: &'l [u8], replies: &'l [Reply], kept: &'l Kept<'l>) -> LogEntryRef<'l>
    requires { IsWithin (length all.now) (length replies.now) kept.now }
    ensures { entry_in result ≡ entry_of all.now replies.now kept.now }
{
    match kept {
        Kept::Begun(event) => LogEntryRef::Begun(*event),
        Kept::Posted(kept, accepted) => {
            LogEntryRef::Posted(kept.to, shown_request(all, kept), *accepted)
        }
        Kept::Complained(about, is_fault) => LogEntryRef::Complained(*about, *is_fault),
        Kept::Received(message) => LogEntryRef::Received(shown_message(all, message)),
        Kept::Handed(message) => LogEntryRef::Handed(shown_message(all, message)),
        Kept::Faulted(about, cause) => LogEntryRef::Faulted(*about, *cause),
        Kept::Took(who, now, call, at) => LogEntryRef::Took(*who, *now, call, &replies[*at]),
    }
}
