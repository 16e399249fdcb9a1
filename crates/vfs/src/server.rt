//! A file server of one volume, over blocks that have a cache.

ghost use Rattle.std.specs.Prelude.{◌≡◌, ◌≢◌, ◌<◌, ◌+◌, ◌^◌, ℕ, false};
ghost use Rattle.tree.specs.declared.Call.TheVariants.{Dup};

use crate::answer;
use cached_blocks::Caches;
use client_calls::NameCache;
use descriptors::Descriptors;
use file_server::Ending;
use layout::Geometry;
use message::Incoming;
use records::legal::Serve;
use std::alloc::Global;
use tree::{Call, Reply, Who};

/// A file server of one volume, over blocks that have a cache, and the memory that it takes for answers of read and readdir.
///
/// Once a take gave End each call is cut, and once the device was given up each is answered EIO; neither does anything at the link. A
/// Flush that is taken in a call is done when the call's work is finished, before it is answered.
#[derive(Drop)]
pub struct Server<B> {
    pub(crate) alloc: Global,
    pub(crate) blocks: B,
    pub(crate) names: NameCache,
    pub(crate) geometry: Geometry,
    pub(crate) opens: Descriptors,
    // How many messages it was handed between two calls.
    pub(crate) absorbed: u64,
}

impl<B> Server<B> {
    /// A server over these blocks, with these open files, for a volume of these sizes: it was handed no message yet. It takes memory to keep
    /// names, and keeps none where that is refused.
    pub fn new(alloc: Global, blocks: B, geometry: Geometry, opens: Descriptors) -> Server<B>
        ensures blocks { result.blocks ≡ blocks }
        ensures geometry { result.geometry ≡ geometry }
        ensures opens { result.opens ≡ opens }
        ensures none_absorbed { result.absorbed ≡ 0 }
    {
        Server {
            alloc,
            blocks,
            names: NameCache::new(alloc),
            geometry,
            opens,
            absorbed: 0,
        }
    }
}

impl<B: Caches> Server<B> {
    ghost use Rattle.cache.specs.Calls.{IsIdle};
    ghost use Rattle.cached_blocks.specs.Cached.{MayAbsorb};
    ghost use Rattle.file_server.specs.Over.{outcome_in, outcome_of};
    ghost use Rattle.vfs.specs.Outcomes.{OnAnswered};
    ghost use Rattle.vfs.specs.Serving.{Spends};
    ghost use Rattle.vfs.specs.Server.{IsOpen, Answers, Absorbs};

    /// Answers a client call, with the time in seconds since 1970; the reply goes to `reply`. Cut once a take gave End, else EIO once the
    /// device was given up. No Flush is left undone where the call is answered otherwise. A dup needs no block: where no Flush was left
    /// undone it does nothing at the link.
    pub fn call(&mut self, who: Who, now: u32, call: &Call, reply: &mut Reply) -> Ending
        requires may { IsOpen B.caching self.old }
        ensures may { IsOpen B.caching self.new }
        ensures calls { Answers B.caching B.frame_count B.wanted self.old self.new who now call.now (outcome_of (outcome_in result reply.new)) }
        ensures goes { B.goes_on self.old.blocks self.new.blocks }
        ensures flushed { OnAnswered (outcome_of (outcome_in result reply.new)) (B.wanted self.new.blocks ≡ false) }
        ensures spends { Spends 0 (B.caching self.old.blocks) (B.caching self.new.blocks) }
        ensures absorbed { self.new.absorbed ≡ self.old.absorbed }
        ensures still { (fd : ℕ) → call.now ≡ Dup fd → B.wanted self.old.blocks ≡ false → self.new.blocks ≡ self.old.blocks }
    {
        answer(
            self.alloc,
            &mut self.blocks,
            &mut self.names,
            &mut self.opens,
            &self.geometry,
            who,
            now,
            call,
            reply,
        )
    }

    /// Takes a message between two calls, which the link has noted: a Flush is done at once, and so is one that a call which was cut left
    /// undone. End has no effect. Where nothing is pending and no Flush was left undone, nothing but a Flush makes it tell its link
    /// anything.
    pub fn absorb(&mut self, message: Incoming)
        requires open { IsOpen B.caching self.old }
        requires may { MayAbsorb message (B.caching self.old.blocks) }
        requires few { self.old.absorbed < 2 ^ 48 }
        ensures open { IsOpen B.caching self.new }
        ensures absorbs { Absorbs B.caching B.frame_count B.wanted self.old self.new message }
        ensures silent { message ≢ Incoming.Flush → B.wanted self.old.blocks ≡ false → IsIdle (B.caching self.old.blocks)
            → (B.caching self.new.blocks).told ≡ (B.caching self.old.blocks).told }
        ensures goes { B.goes_on self.old.blocks self.new.blocks }
        ensures flushed { message ≡ Incoming.Flush → B.wanted self.new.blocks ≡ false }
        ensures spends { Spends 1 (B.caching self.old.blocks) (B.caching self.new.blocks) }
        ensures absorbed { self.new.absorbed ≡ self.old.absorbed + 1 }
    {
        self.absorbed += 1;
        self.blocks.absorb(message);
    }

    /// How many messages it was handed between two calls.
    pub fn absorbed(&self) -> u64
        ensures { result ≡ self.now.absorbed }
    {
        self.absorbed
    }
}

impl<B: Caches> Serve for Server<B> {
    ghost use Rattle.vfs.specs.Server.{serving as as_seen};

    ghost serving = { as_seen B.caching B.frame_count B.wanted };
}
