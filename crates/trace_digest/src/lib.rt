//! What a record says so far, by which it is known which messages leave a mark.
#![tactic(auto)]

ghost use Rattle.std.specs.Prelude.{◌≤◌, vec_capacity};

use message::endpoint::Endpoint;
use message::{BlockReply, BlockRequest, Incoming, moved_bytes};
use std::alloc::{AllocError, Global};

/// How many requests are open at most, where each was issued as it may be.
const MOST_OPEN: usize = 16;

/// What is kept of a request while it is open.
#[derive(Clone, Copy)]
pub struct Asked {
    id: u64,
    /// How many bytes it is for.
    count: u32,
}

/// What a record says: the driver of the last start, whether the device was given up, the greatest id that was issued, and the open
/// requests in the order of their first issue. Memory for 16 of them is taken when it is made.
#[derive(Drop)]
pub struct TraceDigest {
    current: Option<Endpoint>,
    given_up: bool,
    greatest: u64,
    asked: Vec<Asked>,
    ghost places: { 16 ≤ vec_capacity asked },
}

impl TraceDigest {
    ghost use Rattle.std.specs.Prelude.{◌≡◌, ◌∷◌, ◌==◌, [], List, IfOk, IfErr, position, true, false};
    ghost use Rattle.message.specs.declared.endpoint.Endpoint.{Endpoint};
    ghost use Rattle.records.specs.Marks.{Mark, Issued, Answered, is_endpoint};
    ghost use Rattle.records.specs.Open.{MayFollow, counts};
    ghost use Rattle.records.specs.Told.{received};
    ghost use Rattle.trace_digest.specs.Heard.{IsHeard, leaves_mark};

    /// Nothing was heard. An error: no memory was found.
    pub fn new(alloc: Global) -> Result<TraceDigest, AllocError>
        ensures { IfOk result (λ h. IsHeard h []) }
    {
        Ok(TraceDigest {
            current: None,
            given_up: false,
            greatest: 0,
            asked: Vec::with_capacity(alloc, MOST_OPEN)?,
        })
    }

    /// A request was issued, where it may be. This takes no memory.
    pub fn issued(&mut self, request: &BlockRequest)
        ensures { (marks : List Mark) (to : Endpoint) → MayFollow (Issued request.now to) marks → IsHeard self.old marks
            → IsHeard self.new (Issued request.now to ∷ marks) }
    {
        if request.id <= self.greatest {
            return;
        }
        self.greatest = request.id;
        if self.asked.len() < MOST_OPEN {
            self.asked.push_reserved(Asked {
                id: request.id,
                count: request.count,
            });
        }
    }

    /// A request was issued, whether it may be or not. An error: no memory was found, and what is kept is as it was.
    pub fn issued_any(&mut self, request: &BlockRequest) -> Result<(), AllocError>
        ensures issued { IfOk result (λ _. (marks : List Mark) (to : Endpoint) → IsHeard self.old marks
            → IsHeard self.new (Issued request.now to ∷ marks)) }
        ensures no_memory { IfErr result (λ _. (marks : List Mark) → IsHeard self.old marks → IsHeard self.new marks) }
    {
        if request.id > self.greatest {
            self.asked.push(Asked {
                id: request.id,
                count: request.count,
            })?;
            self.greatest = request.id;
        }
        Ok(())
    }

    /// Whether a message leaves a mark: a reply does if it counts, and an End doesn't.
    pub fn leaves_mark(&self, message: &Incoming) -> bool
        ensures mark { (marks : List Mark) → IsHeard self.now marks → result ≡ leaves_mark message.now marks }
        ensures end { message.now ≡ Incoming.End → result ≡ false }
    {
        match message {
            Incoming::Reply(reply) => self.counts(reply),
            Incoming::Started(_) => true,
            Incoming::GaveUp => true,
            Incoming::Flush => true,
            Incoming::End => false,
        }
    }

    /// A message was taken that leaves a mark.
    pub fn takes(&mut self, message: &Incoming)
        ensures { (marks : List Mark) → leaves_mark message.now marks ≡ true → IsHeard self.old marks
            → IsHeard self.new (received message.now marks) }
    {
        match message {
            Incoming::Reply(reply) => self.answered(reply),
            Incoming::Started(endpoint) => self.current = Some(*endpoint),
            Incoming::GaveUp => self.given_up = true,
            Incoming::Flush => {}
            Incoming::End => {}
        }
    }

    /// Whether a reply counts.
    fn counts(&self, reply: &BlockReply) -> bool
        ensures { (marks : List Mark) → IsHeard self.now marks → result ≡ counts marks reply.now }
    {
        !self.given_up && self.is_current(&reply.from) && self.find(reply.id).is_some()
    }

    /// A reply was taken that counts: a good one closes its request.
    fn answered(&mut self, reply: &BlockReply)
        ensures { (marks : List Mark) → IsHeard self.old marks → IsHeard self.new (Answered reply.now ∷ marks) }
    {
        let Some(at) = self.find(reply.id) else {
            return;
        };
        if moved_bytes(self.asked[at].count, &reply.outcome).is_some() {
            let _ = self.asked.remove(at);
        }
    }

    /// Whether this is the driver of the last start.
    fn is_current(&self, endpoint: &Endpoint) -> bool
        ensures { result ≡ is_endpoint endpoint.now self.now.current }
    {
        match &self.current {
            Some(current) => current == endpoint,
            None => false,
        }
    }

    /// Where the first open request with this id stands.
    fn find(&self, id: u64) -> Option<usize>
        ensures { result ≡ position (λ r. r.id == id) self.now.asked.items }
    {
        self.asked.iter().position(|r| r.id == id)
    }
}
