//! The notes of a run.

ghost use Rattle.std.specs.Prelude.{◌≡◌, All, length};
ghost use Rattle.schedule.specs.KeptNotes.{IsWithin, accepted_in};

use crate::Event;
use crate::entry_ref::LogEntryRef;
use crate::kept::{Kept, KeptRequest, keep_message, keep_request, post_of, shown};
use message::endpoint::Endpoint;
use message::{BlockRequest, Incoming};
use records::marks::Cause;
use std::alloc::{AllocError, Global};
use tree::{Call, Reply, Who};

/// One note, as contracts see it; [`LogEntryRef`] is read, and what is kept takes less memory.
#[derive(Drop)]
pub enum LogEntry<'a> {
    /// An event begins.
    Begun(Event<'a>),
    /// The server posted a request; it was accepted, or refused.
    Posted(Endpoint, BlockRequest, bool),
    /// The server complained; whether that is a fault.
    Complained(Endpoint, bool),
    /// A message that the server took, in a call.
    Received(Incoming),
    /// A message that the server is handed between two calls.
    Handed(Incoming),
    /// A driver is at fault, other than by a complaint.
    Faulted(Endpoint, Cause),
    /// A call was answered.
    Took(Who, u32, Call<'a>, Reply),
}

/// A request that a driver accepted.
#[derive(Clone, Copy)]
pub struct Post {
    pub to: Endpoint,
    pub request: BlockRequest,
}

/// All notes, the oldest first, the accepted posts among them by number, from 0 on, and whether the link has ended. The bytes of requests
/// and replies stand apart, without the zeros at their end, and so do the replies to calls.
#[derive(Drop)]
pub struct Log<'a> {
    notes: Vec<Kept<'a>>,
    posts: Vec<KeptRequest>,
    bytes: Vec<u8>,
    replies: Vec<Reply>,
    pub over: bool,
    ghost listed: { posts.items ≡ accepted_in notes.items },
    ghost within: { All (IsWithin (length bytes.items) (length replies.items)) notes.items },
}

/// How many things are noted between two messages, at most: 33 posts and complaints, an event, its fault and its message.
const ROOM: usize = 36;

/// How many bytes they have together, at most.
const ROOM_FOR_BYTES: usize = 147456;

impl<'a> Log<'a> {
    ghost use Rattle.std.specs.Prelude.{◌<◌, ◌≤◌, ◌+◌, false, true, IfOk, slice_get, slice_index_or};
    ghost use Rattle.std.specs.Bool.{OnTrue};
    ghost use Rattle.schedule.specs.declared.log.LogEntry.TheVariants.{Begun, Posted, Complained, Received, Handed, Faulted, Took};
    ghost use Rattle.schedule.specs.Entries.{entry_in};
    ghost use Rattle.schedule.specs.Noted.{nothing_noted, with_entry, with_end};
    ghost use Rattle.schedule.specs.LogView.{said, entries_of, room_in};

    /// Nothing was noted, and there is room.
    pub fn new(alloc: Global) -> Result<Log<'a>, AllocError>
        ensures said { IfOk result (λ l. said l ≡ nothing_noted) }
        ensures room { IfOk result (λ l. 36 ≤ room_in l) }
        ensures over { IfOk result (λ l. l.over ≡ false) }
    {
        Ok(Log {
            notes: Vec::with_capacity(alloc, ROOM)?,
            posts: Vec::with_capacity(alloc, ROOM)?,
            bytes: Vec::with_capacity(alloc, ROOM_FOR_BYTES)?,
            replies: Vec::with_capacity(alloc, ROOM)?,
            over: false,
        })
    }

    /// Notes that an event begins.
    pub fn note_event(&mut self, event: &'a Event<'a>)
        requires { 0 < room_in self.old }
        ensures said { said self.new ≡ with_entry (Begun event.now) (said self.old) }
        ensures room { room_in self.old ≤ room_in self.new + 1 }
        ensures over { self.new.over ≡ self.old.over }
    {
        self.notes.push_reserved(Kept::Begun(event));
    }

    /// Notes that this request was posted and accepted.
    pub fn note_post(&mut self, to: Endpoint, request: &BlockRequest)
        requires { 0 < room_in self.old }
        ensures said { said self.new ≡ with_entry (Posted to request.now true) (said self.old) }
        ensures room { room_in self.old ≤ room_in self.new + 1 }
        ensures over { self.new.over ≡ self.old.over }
    {
        let kept = keep_request(&mut self.bytes, to, request);
        self.posts.push_reserved(kept);
        self.notes.push_reserved(Kept::Posted(kept, true));
    }

    /// Notes that this request was posted and refused.
    pub fn note_refused(&mut self, to: Endpoint, request: &BlockRequest)
        requires { 0 < room_in self.old }
        ensures said { said self.new ≡ with_entry (Posted to request.now false) (said self.old) }
        ensures room { room_in self.old ≤ room_in self.new + 1 }
        ensures over { self.new.over ≡ self.old.over }
    {
        let kept = keep_request(&mut self.bytes, to, request);
        self.notes.push_reserved(Kept::Posted(kept, false));
    }

    /// Notes that the server complained, and whether that is a fault.
    pub fn note_complaint(&mut self, about: Endpoint, is_fault: bool)
        requires { 0 < room_in self.old }
        ensures said { said self.new ≡ with_entry (Complained about is_fault) (said self.old) }
        ensures room { room_in self.old ≤ room_in self.new + 1 }
        ensures over { self.new.over ≡ self.old.over }
    {
        self.notes.push_reserved(Kept::Complained(about, is_fault));
    }

    /// Notes a message that the server took, in a call.
    pub fn note_received(&mut self, message: &Incoming)
        requires { 0 < room_in self.old }
        ensures said { said self.new ≡ with_entry (Received message.now) (said self.old) }
        ensures room { room_in self.old ≤ room_in self.new + 1 }
        ensures over { self.new.over ≡ self.old.over }
    {
        let kept = keep_message(&mut self.bytes, message);
        self.notes.push_reserved(Kept::Received(kept));
    }

    /// Notes a message that the server is handed between two calls.
    pub fn note_handed(&mut self, message: &Incoming)
        requires { 0 < room_in self.old }
        ensures said { said self.new ≡ with_entry (Handed message.now) (said self.old) }
        ensures room { room_in self.old ≤ room_in self.new + 1 }
        ensures over { self.new.over ≡ self.old.over }
    {
        let kept = keep_message(&mut self.bytes, message);
        self.notes.push_reserved(Kept::Handed(kept));
    }

    /// Notes that a driver is at fault, other than by a complaint.
    pub fn note_fault(&mut self, about: Endpoint, cause: Cause)
        requires { 0 < room_in self.old }
        ensures said { said self.new ≡ with_entry (Faulted about cause) (said self.old) }
        ensures room { room_in self.old ≤ room_in self.new + 1 }
        ensures over { self.new.over ≡ self.old.over }
    {
        self.notes.push_reserved(Kept::Faulted(about, cause));
    }

    /// Notes that a call was answered.
    pub fn note_answer(&mut self, who: Who, now: u32, call: Call<'a>, reply: Reply)
        requires { 0 < room_in self.old }
        ensures said { said self.new ≡ with_entry (Took who now call.entry reply) (said self.old) }
        ensures room { room_in self.old ≤ room_in self.new + 1 }
        ensures over { self.new.over ≡ self.old.over }
    {
        let at = self.replies.len();
        self.replies.push_reserved(reply);
        self.notes.push_reserved(Kept::Took(who, now, call, at));
    }

    /// How many notes there are.
    pub fn len(&self) -> usize
        ensures { result ≡ length (entries_of self.now) }
    {
        self.notes.len()
    }

    /// The note at this place, from 0 on, borrowed.
    pub fn entry(&self, at: usize) -> LogEntryRef<'_>
        requires { at < length (entries_of self.now) }
        ensures { entry_in result ≡ slice_index_or (entries_of self.now) at (entry_in result) }
    {
        shown(
            self.bytes.as_slice(),
            self.replies.as_slice(),
            &self.notes[at],
        )
    }

    /// The accepted post with this number, if there is one.
    pub fn post(&self, n: u32) -> Option<Post>
        ensures { result ≡ slice_get (said self.now).posts n }
    {
        let n = n as usize;
        if n < self.posts.len() {
            Some(post_of(self.bytes.as_slice(), &self.posts[n]))
        } else {
            None
        }
    }

    /// Makes room for what is noted before the next message; false where no memory was found.
    pub fn make_room(&mut self) -> bool
        requires { self.old.over ≡ false }
        ensures said { said self.new ≡ said self.old }
        ensures room { OnTrue result (36 ≤ room_in self.new) }
        ensures over { self.new.over ≡ self.old.over }
    {
        self.notes.reserve(ROOM).is_ok()
            && self.posts.reserve(ROOM).is_ok()
            && self.bytes.reserve(ROOM_FOR_BYTES).is_ok()
            && self.replies.reserve(ROOM).is_ok()
    }

    /// Notes that the link has ended, once.
    #[tactic(auto, using(crate::proofs::NotedLaws::said_end))]
    pub fn end(&mut self)
        ensures said { said self.new ≡ with_end (said self.old) }
        ensures over { self.new.over ≡ true }
    {
        self.over = true;
    }
}
