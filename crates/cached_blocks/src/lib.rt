//! The frames of a cache, as blocks.
#![tactic(auto)]

pub mod laws;

ghost use Rattle.std.specs.Prelude.{◌≡◌, ◌≢◌, OnOk, IfErr};
ghost use Rattle.std.specs.Bool.{OnTrue, OnFalse};
ghost use Rattle.std.specs.Borrow.{Lends, sem};
ghost use Rattle.reissue.specs.Transfers.{link_of};
ghost use Rattle.cached_blocks.specs.World.{with_stored_link};
ghost use Rattle.cached_blocks.specs.contracts.Stored.{the_row};

use block_store::{Blocks, Cut};
use cache::{Cache, Frame};
use flusher::{flush_some, make_way};
use message::Incoming;
use reissue::{Link, Transfers};
use step_count::Steps;

/// Blocks in the frames of a cache. A block without a frame is read when it is fetched, and a changed one is written when a Flush asks for
/// it, when a sync does, or when its frame, or one that goes before it, is needed for another block.
#[derive(Drop)]
pub struct Stored<L> {
    cache: Cache<L>,
}

/// Whether the message is an End.
fn is_end(message: &Incoming) -> bool
    ensures other { OnFalse result (message.now ≢ Incoming.End) }
    ensures end { OnTrue result (message.now ≡ Incoming.End) }
{
    match message {
        Incoming::End => true,
        Incoming::Reply(_) => false,
        Incoming::Started(_) => false,
        Incoming::GaveUp => false,
        Incoming::Flush => false,
    }
}

impl<L: Link> Stored<L> {
    /// Blocks in the frames of this cache.
    pub fn new(cache: Cache<L>) -> Stored<L>
        ensures { result.cache ≡ cache }
    {
        Stored { cache }
    }

    /// The link.
    pub fn link(&self) -> &L
        ensures { result.now ≡ link_of self.now.cache.transfers }
    {
        self.cache.link()
    }

    /// The link, to be changed: all else stays as it is.
    pub fn link_mut(&mut self) -> &mut L
        ensures* lends { sem 𝓛 (Lends (the_row L.row) L.row self.entry result (with_stored_link self.entry.now)) }
        ensures value { result.now ≡ link_of self.old.cache.transfers }
    {
        self.cache.link_mut()
    }

    /// The range of the media that its requests name.
    pub fn minor(&self) -> u8
        ensures { result ≡ self.now.cache.shape.minor }
    {
        self.cache.minor()
    }

    /// Lets the frames go: the requests that are pending, and their link.
    pub fn into_transfers(self) -> Transfers<L>
        ensures { result ≡ self.cache.transfers }
    {
        self.cache.into_transfers()
    }
}

/// Blocks in the frames of a cache, with what a server asks of it besides.
pub trait Caches: Blocks {
    ghost use Rattle.std.specs.Prelude.{◌≡◌, ◌≢◌, ℕ, List, Bool, true, false};
    ghost use Rattle.cache.specs.Calls.{AbstractCache, IsReady, IsIdle, IsLive, Keeps, PostsAlone, HandsOver};
    ghost use Rattle.flusher.specs.Flushing.{BeginsAll, WritesInRuns};
    ghost use Rattle.records.specs.Marks.{Mark};
    ghost use Rattle.reissue.specs.Agrees.{Agrees};
    ghost use Rattle.cache.specs.Edits.{AllClean};
    ghost use Rattle.cache.specs.Looking.{Looks};
    ghost use Rattle.block_store.specs.World.{Turns};
    ghost use Rattle.cached_blocks.specs.Cached.{IsCached, MayAbsorb, Flushes};

    // what is said of its cache
    ghost caching: { Self → AbstractCache };

    // how many frames it may have
    ghost frame_count: { Self → ℕ };

    // a Flush was taken that isn't done
    ghost wanted: { Self → Bool };

    // what goes on through every call: its link goes on, and it may have as many frames
    ghost goes_on: { Self → Self → Type 0 };

    /// Begins the writes that a Flush asks for, where one was taken that isn't done: of the dirty frames with the lowest blocks, sixteen at
    /// most. It waits for none.
    fn flush_wanted(&mut self)
        requires ready { IsReady (caching self.old) }
        ensures keeps { Keeps (caching self.old) (caching self.new) }
        ensures goes { goes_on self.old self.new }
        ensures turns { Turns Self.world self.old self.new (λ d e. e ≡ d) }
        ensures posts { PostsAlone (caching self.old) (caching self.new) }
        ensures clean { AllClean (caching self.old).held → AllClean (caching self.new).held }
        ensures looks { Looks (caching self.old) (caching self.new) }
        ensures flushed { wanted self.old ≡ true → Flushes (caching self.old) (caching self.new) }
        ensures unasked { wanted self.old ≡ false → self.new ≡ self.old }
        ensures done { wanted self.new ≡ false };

    /// Does what a message asks for that was handed over between two calls; a Flush at once, and one that was left undone with any message
    /// but End. End changes nothing. Where nothing is pending and no Flush was left undone, nothing but a Flush makes it tell its link
    /// anything.
    fn absorb(&mut self, message: Incoming)
        requires ready { IsReady (caching self.old) }
        requires may { MayAbsorb message (caching self.old) }
        ensures hands_over { HandsOver message (caching self.old) (caching self.new) }
        ensures silent { message ≢ Incoming.Flush → wanted self.old ≡ false → IsIdle (caching self.old)
            → (caching self.new).told ≡ (caching self.old).told }
        ensures goes { goes_on self.old self.new }
        ensures flushed { message ≡ Incoming.Flush → IsLive (caching self.new) → BeginsAll 16 (caching self.old).held (caching self.new) }
        ensures runs { message ≡ Incoming.Flush → (marks : List Mark) → Agrees (caching self.old).table marks
            → WritesInRuns 16 (caching self.old) (caching self.new) }
        ensures looks { Looks (caching self.old) (caching self.new) }
        ensures done { (message ≡ Incoming.End → ⊥) → wanted self.new ≡ false }
        ensures end { message ≡ Incoming.End → self.new ≡ self.old };

    // what is said of blocks is said of their cache
    ghost is_cached: { IsCached Self.world caching goes_on };

    // each goes on to itself, and what goes on twice goes on
    ghost stays: { (b : Self) → goes_on b b };

    ghost joins: { (a b c : Self) → goes_on a b → goes_on b c → goes_on a c };

    ghost counts: { (a b : Self) → goes_on a b → frame_count b ≡ frame_count a };
}

impl<L: Link> Caches for Stored<L> {
    ghost use Rattle.cache.specs.Calls.{frame_count};
    ghost use Rattle.cached_blocks.specs.World.{stored_caching, GoesOn, goes_joins};
    ghost use Rattle.cached_blocks.specs.Cached.{stored_is_cached};
    ghost use Rattle.std.specs.Prelude.{refl};

    ghost caching = { stored_caching L.Link };

    ghost frame_count = { λ s. frame_count s.cache };

    ghost wanted = { λ s. s.cache.flush };

    ghost goes_on = { GoesOn L.Link };

    fn flush_wanted(&mut self) {
        if self.cache.take_flush() {
            flush_some(&mut self.cache);
        }
    }

    fn absorb(&mut self, message: Incoming) {
        let last = is_end(&message);
        self.cache.absorb(message);
        if !last {
            self.flush_wanted();
        }
    }

    ghost is_cached = { stored_is_cached (stored_caching L.Link.own) (GoesOn L.Link.own) };

    ghost stays = { λ s. record { link = L.stays _; frames = refl } };

    ghost joins = { λ a b c x y. goes_joins L.Link.own L.joins a b c x y };

    ghost counts = { λ a b x. x.frames };
}

impl<L: Link> Blocks for Stored<L> {
    ghost use Rattle.std.specs.Prelude.{refl};
    ghost use Rattle.cache.specs.Calls.{IsFrame};
    ghost use Rattle.cached_blocks.specs.World.{world_by, stored_caching, GoesOn, goes_joins};
    ghost use Rattle.cached_blocks.specs.Lawful.{is_world};

    type Frame = Frame;

    ghost world = { world_by (stored_caching L.Link) (GoesOn L.Link) };

    ghost names = { λ s f block. (f.block ≡ block) × IsFrame s.cache f };

    fn block_size(&self) -> u32 {
        self.cache.block_size()
    }

    fn is_at_hand(&self, block: u32) -> bool {
        self.cache.find(block, &mut Steps::new()).is_some()
    }

    // Within its caller's code a frame is handed on in registers: by way of the stack it would wait for all bytes that were written before
    // it.
    #[inline(always)]
    fn fetch(&mut self, block: u32) -> Result<Frame, Cut> {
        make_way(&mut self.cache, block);
        self.cache.fetch(block)
    }

    fn bytes(&self, frame: Frame) -> &[u8] {
        self.cache.frame(frame)
    }

    fn change(&mut self, frame: Frame, from: usize, bytes: &[u8]) {
        self.cache.change(frame, from, bytes);
    }

    fn fresh(&mut self, block: u32) -> Result<Frame, Cut> {
        make_way(&mut self.cache, block);
        self.cache.fresh(block)
    }

    fn forget(&mut self, block: u32) {
        self.cache.forget(block);
    }

    fn sync(&mut self) -> Result<(), Cut> {
        flusher::sync(&mut self.cache)
    }

    fn live(&self) -> Result<(), Cut> {
        self.cache.live()
    }

    ghost lawful = { is_world (stored_caching L.Link.own) (GoesOn L.Link.own)
        (λ s. record { link = L.stays _; frames = refl }) (λ a b c x y. goes_joins L.Link.own L.joins a b c x y) };
}
