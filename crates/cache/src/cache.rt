//! Frames of a volume's blocks, over transfers.

ghost use Rattle.std.specs.Prelude.{◌≡◌, ◌<◌, ◌≤◌, ◌+◌, ◌*◌, ◌-◌, ◌^◌, ℕ, List, [], Option, Some, None, Result, Ok, Err, Bool, true, false};
ghost use Rattle.std.specs.Prelude.{IsTrue, IsErrOf, ◌↔◌, length, take, slice_get, slice_index, IfOk, IfErr, OnOk, OnErr, IfSome, not, ◌≢◌};
ghost use Rattle.std.specs.Prelude.{MatchBool, ◌⊎◌};
ghost use Rattle.std.specs.Bool.{OnTrue, OnFalse};
ghost use Rattle.std.specs.Borrow.{Lends, sem};
ghost use Rattle.layout.specs.Places.{is_block_size};
ghost use Rattle.reissue.specs.Transfers.{table_of, link_of, begun_in};
ghost use Rattle.records.specs.Mount.{is_frame_count};
ghost use Rattle.records.specs.Marks.{Mark};
ghost use Rattle.reissue.specs.Agrees.{Agrees};
ghost use Rattle.records.specs.Area.{area_of};
ghost use Rattle.reissue.specs.Room.{room_needed};
ghost use Rattle.reissue.specs.Posts.{is_message, HasRoom};
ghost use Rattle.reissue.specs.Moves.{IsBusy};

use crate::frame::Frame;
use crate::{CacheRefusal, Shape, Slots, State, Took, is_end, settle, zeros};
use block_store::Cut;
use layout::Geometry;
use message::Incoming;
use reissue::{Link, Ticket, Transfers};
use std::alloc::Global;
use step_count::Steps;

/// A read of a block that isn't settled.
#[derive(Clone, Copy)]
struct Reading {
    block: u32,
    ticket: Ticket,
}

/// Frames of a volume's blocks in memory.
///
/// A frame reads as its last change, or as the disk where it wasn't changed. A block without a frame is read when it is
/// fetched. Where no slot is free, the frame used longest ago of those that are the disk's goes; where none is, the one
/// used longest ago is written and awaited, and then goes. Slots are made as they are wanted, up to a limit; where there is no memory for
/// more, those that are there serve. What goes on in the link goes on through each call, and the limit stays.
#[derive(Drop)]
pub struct Cache<L> {
    transfers: Transfers<L>,
    slots: Slots,
    shape: Shape,
    // A take gave End.
    ended: bool,
    // A Flush was taken and isn't done.
    flush: bool,
    // The message that was taken last, or End: room for the next one.
    message: Incoming,
}

impl<L: Link> Cache<L> {
    ghost use Rattle.cache.specs.Slots.{held, is_dirty_slot, is_unclean_slot};
    ghost use Rattle.cache.specs.Edits.{AllClean, SomeUnclean, IsIssued, IsWritten, IsSlotAt, IsFreeAt, IsAt, Leaves};
    ghost use Rattle.cache.specs.Edits.{AllStay, StayBut, IsChangedAt, AreDirty, NoneDirtyFrom, BeginsNext};
    ghost use Rattle.cache.specs.Order.{IsDue};
    ghost use Rattle.cache.specs.Frames.{frames_of, view, with_bytes, IsWritable};
    ghost use Rattle.cache.specs.Calls.{caching, held_by, frame_count, IsReady, IsIdle, IsLive, IsWhyCut, IsFrame, IsFrameOf, IsMade, IsStuck};
    ghost use Rattle.cache.specs.Calls.{IsRefusing, PostsAlone, messages_left, Does, Keeps, HandsOver, Blanks, Rewrites, LinkGoesOn};
    ghost use Rattle.cache.specs.Calls.{WantsFlush, forgotten, with_cache_link, without_flush, area_in};
    ghost use Rattle.cache.specs.Settling.{IsWantedFor, taking_in};
    ghost use Rattle.cache.specs.Runs.{IsRunBegun, BeginsRun, requests_in};
    ghost use Rattle.cache.specs.contracts.cache.Cache.{the_row};
    ghost use Rattle.cache.specs.declared.frame.Frame.{Frame as FrameValue};
    ghost use Rattle.cache.specs.declared.slot.Slot.{Slot};
    ghost use Rattle.cache.specs.Fetches.{Hits, Misses, BlanksFrame, MakesRoom, IsAtOnce};
    ghost use Rattle.cache.specs.Takes.{Takes, ReadsStay, NoReadBegun, IsBlockRead, Reads, read_into};
    ghost use Rattle.cache.specs.Looking.{Looks};

    /// A cache that may have so many frames, none of them in use, over transfers with nothing pending: 1 BadFrames unless they are 16 to
    /// 4096, looked at first; 2 OutOfMemory.
    pub fn new(
        alloc: Global,
        transfers: Transfers<L>,
        minor: u8,
        geometry: &Geometry,
        frames: u32,
    ) -> Result<Cache<L>, CacheRefusal>
    where
        L: Drop,
        requires block_size { IsTrue (is_block_size geometry.now.block_size) }
        requires idle { (table_of transfers).pending ≡ [] }
        requires room { HasRoom (table_of transfers) (L.room (link_of transfers)) }
        requires ids { (table_of transfers).ids + L.budget_left (link_of transfers) + 16 < 2 ^ 60 }
        ensures bad_frames { IsErrOf result CacheRefusal.BadFrames ↔ (is_frame_count frames ≡ false) }
        ensures over { IfOk result (λ c. c.transfers ≡ transfers) }
        ensures ready { IfOk result (λ c. IsReady (caching L.Link c)) }
        ensures made { IfOk result (λ c. IsMade (area_of geometry.now minor) geometry.now.block_size (caching L.Link c)) }
        ensures frames { IfOk result (λ c. frame_count c ≡ frames) }
        ensures flush { IfOk result (λ c. c.flush ≡ false) }
    {
        if frames < 16 || 4096 < frames {
            return Err(CacheRefusal::BadFrames);
        }
        let slots = match Slots::new(alloc, frames as usize) {
            Ok(slots) => slots,
            Err(_) => return Err(CacheRefusal::OutOfMemory),
        };
        Ok(Cache {
            transfers,
            slots,
            shape: Shape::new(minor, geometry.block_size, geometry.zones),
            ended: false,
            flush: false,
            message: Incoming::End,
        })
    }

    /// How many ids were given to requests.
    pub fn ids(&self) -> u64
        ensures { result ≡ (table_of self.now.transfers).ids }
    {
        self.transfers.ids()
    }

    /// The link.
    pub fn link(&self) -> &L
        ensures { result.now ≡ link_of self.now.transfers }
    {
        self.transfers.link()
    }

    /// The link, to be changed: all else stays as it is.
    pub fn link_mut(&mut self) -> &mut L
        ensures* lends { sem 𝓛 (Lends (the_row L.row) L.row self.entry result (with_cache_link self.entry.now)) }
        ensures value { result.now ≡ link_of self.old.transfers }
    {
        self.transfers.link_mut()
    }

    /// The range of the media that its requests name.
    pub fn minor(&self) -> u8
        ensures { result ≡ self.now.shape.minor }
    {
        self.shape.minor
    }

    /// Lets the frames go: the requests that are pending, and their link.
    pub fn into_transfers(self) -> Transfers<L>
        ensures { result ≡ self.transfers }
    {
        let Cache {
            transfers,
            slots: _,
            shape: _,
            ended: _,
            flush: _,
            message: _,
        } = self;
        transfers
    }

    /// Whether a Flush was taken that isn't done; from now on it counts as done.
    pub fn take_flush(&mut self) -> bool
        ensures wanted { result ≡ self.old.flush }
        ensures done { self.new ≡ without_flush self.old }
    {
        let wanted = self.flush;
        self.flush = false;
        wanted
    }

    /// Whether a message may come, or why not: LinkEnded once a take gave End, else Eio once the device was given up.
    pub fn live(&self) -> Result<(), Cut>
        ensures live { OnOk result (IsLive (caching L.Link self.now)) }
        ensures cut { IfErr result (λ cut. IsWhyCut (caching L.Link self.now) cut) }
    {
        if self.ended {
            return Err(Cut::LinkEnded);
        }
        if self.transfers.is_given_up() {
            return Err(Cut::Eio);
        }
        Ok(())
    }

    /// Takes a message and does what it asks for; a settled read is handed out, and its bytes stand in the spare room of the slots then.
    pub fn take(&mut self) -> Result<Took, Cut>
        requires ready { IsReady (caching L.Link self.old) }
        requires busy { IsLive (caching L.Link self.old) → IsBusy (begun_in self.old.transfers) }
        ensures runs { Does L.Link self.old self.new (Takes (taking_in result self.new.slots.spare.value)) }
        ensures goes { LinkGoesOn L.Link self.old self.new }
        ensures left { OnOk result (messages_left (caching L.Link self.new) < messages_left (caching L.Link self.old)) }
        ensures reads { ReadsStay (taking_in result self.new.slots.spare.value)
            (begun_in self.old.transfers) (begun_in self.new.transfers) }
        ensures leaves { Leaves self.old.slots.items.items self.new.slots.items.items }
        ensures stay { AllStay self.old.slots self.new.slots }
        ensures cut { IfErr result (λ cut. IsWhyCut (caching L.Link self.new) cut) }
        ensures refused { OnErr result (self.new ≡ self.old) }
        ensures flush { WantsFlush L.Link self.old self.new }
        ensures looks { Looks (caching L.Link self.old) (caching L.Link self.new) }
    {
        self.live()?;
        let settled = self
            .transfers
            .step(&mut self.message, &mut self.slots.spare);
        self.ended = is_end(&settled);
        Ok(settle(&mut self.slots, &mut self.flush, settled))
    }

    /// Begins the write of a dirty slot; false where it was refused.
    fn issue(&mut self, at: usize) -> bool
        requires ready { IsReady (caching L.Link self.old) }
        requires open { self.old.ended ≡ false }
        requires dirty { IsSlotAt self.old.slots.items.items at is_dirty_slot }
        ensures keeps { Keeps (caching L.Link self.old) (caching L.Link self.new) }
        ensures goes { LinkGoesOn L.Link self.old self.new }
        ensures busy { IsBusy (begun_in self.new.transfers) }
        ensures left { messages_left (caching L.Link self.new) ≤ messages_left (caching L.Link self.old) }
        ensures leaves { Leaves self.old.slots.items.items self.new.slots.items.items }
        ensures others { StayBut at self.old.slots self.new.slots }
        ensures issued { MatchBool result (IsIssued self.old.slots.items.items at (held_by self.new))
            (held_by self.new ≡ held_by self.old) }
        ensures posts { PostsAlone (caching L.Link self.old) (caching L.Link self.new) }
        ensures flush { self.new.flush ≡ self.old.flush }
        ensures refused { OnFalse result (self.new ≡ self.old) }
        ensures adds { OnTrue result (length (table_of self.new.transfers).pending ≡ length (table_of self.old.transfers).pending + 1) }
        ensures refusing { OnFalse result (IsRefusing (caching L.Link self.old)) }
        ensures reads { NoReadBegun (begun_in self.old.transfers) (begun_in self.new.transfers) }
    {
        let slot = self.slots.get(at);
        let block = match slot.block {
            Some(block) => block,
            None => unreachable!(),
        };
        let ask = self.shape.write(block, &slot.bytes);
        match self.transfers.begin(&ask) {
            Ok(ticket) => {
                self.slots.begin_write(at, ticket);
                true
            }
            Err(_) => false,
        }
    }

    /// Begins the write of so many neighbouring blocks from this one on, which have dirty slots, in one request; false where it was refused.
    fn issue_run(&mut self, block: u32, count: u32) -> bool
        requires ready { IsReady (caching L.Link self.old) }
        requires open { self.old.ended ≡ false }
        requires dirty { AreDirty (held_by self.old) block count }
        requires bound { block + count ≤ 2 ^ 32 }
        requires some { 0 < count }
        requires fits { count * self.old.shape.block_size ≤ 4096 }
        ensures keeps { Keeps (caching L.Link self.old) (caching L.Link self.new) }
        ensures goes { LinkGoesOn L.Link self.old self.new }
        ensures busy { IsBusy (begun_in self.new.transfers) }
        ensures left { messages_left (caching L.Link self.new) ≤ messages_left (caching L.Link self.old) }
        ensures leaves { Leaves self.old.slots.items.items self.new.slots.items.items }
        ensures uses { self.new.slots.uses ≡ self.old.slots.uses }
        ensures begun { OnTrue result (IsRunBegun self.old.shape.block_size block count (held_by self.old) (held_by self.new)
            (requests_in (table_of self.old.transfers)) (requests_in (table_of self.new.transfers))) }
        ensures posts { PostsAlone (caching L.Link self.old) (caching L.Link self.new) }
        ensures flush { self.new.flush ≡ self.old.flush }
        ensures refused { OnFalse result (self.new ≡ self.old) }
        ensures adds { OnTrue result (length (table_of self.new.transfers).pending ≡ length (table_of self.old.transfers).pending + 1) }
        ensures refusing { OnFalse result (IsRefusing (caching L.Link self.old)) }
        ensures reads { NoReadBegun (begun_in self.old.transfers) (begun_in self.new.transfers) }
    {
        let mut bytes = zeros();
        self.slots
            .gather(block, count, self.shape.block_size, &mut bytes);
        let ask = self.shape.write_run(block, count, &bytes);
        match self.transfers.begin_run(&ask) {
            Ok(ticket) => {
                self.slots.set_writing(block, count, ticket);
                true
            }
            Err(_) => false,
        }
    }

    /// Sees to it that a write of a slot is under way, whose bytes may not be the disk's, or that another request is pending.
    fn write_out(&mut self, at: usize)
        requires ready { IsReady (caching L.Link self.old) }
        requires open { self.old.ended ≡ false }
        requires unclean { IsSlotAt self.old.slots.items.items at is_unclean_slot }
        ensures keeps { Keeps (caching L.Link self.old) (caching L.Link self.new) }
        ensures goes { LinkGoesOn L.Link self.old self.new }
        ensures busy { IsBusy (begun_in self.new.transfers) }
        ensures left { messages_left (caching L.Link self.new) ≤ messages_left (caching L.Link self.old) }
        ensures leaves { Leaves self.old.slots.items.items self.new.slots.items.items }
        ensures others { StayBut at self.old.slots self.new.slots }
        ensures flush { WantsFlush L.Link self.old self.new }
    {
        if self.slots.get(at).is_dirty() {
            self.issue(at);
        }
    }

    /// Waits until the bytes of a slot are the disk's.
    fn wait_for(&mut self, at: usize) -> Result<(), Cut>
        requires ready { IsReady (caching L.Link self.old) }
        requires at { at < length self.old.slots.items.items }
        ensures keeps { Keeps (caching L.Link self.old) (caching L.Link self.new) }
        ensures goes { LinkGoesOn L.Link self.old self.new }
        ensures leaves { Leaves self.old.slots.items.items self.new.slots.items.items }
        ensures others { StayBut at self.old.slots self.new.slots }
        ensures clean { OnOk result (IsSlotAt self.new.slots.items.items at (λ s. not (is_unclean_slot s))) }
        ensures cut { IfErr result (λ cut. IsWhyCut (caching L.Link self.new) cut) }
        ensures flush { WantsFlush L.Link self.old self.new }
    {
        'tries: loop {
            if !self.slots.get(at).is_unclean() {
                return Ok(());
            }
            self.live()?;
            self.write_out(at);
            self.take()?;
        }
    }

    /// Waits until the bytes of a slot are the disk's, and has them written if need be.
    fn clean(&mut self, at: usize) -> Result<(), Cut>
        requires ready { IsReady (caching L.Link self.old) }
        requires at { at < length self.old.slots.items.items }
        ensures keeps { Keeps (caching L.Link self.old) (caching L.Link self.new) }
        ensures goes { LinkGoesOn L.Link self.old self.new }
        ensures leaves { Leaves self.old.slots.items.items self.new.slots.items.items }
        ensures others { StayBut at self.old.slots self.new.slots }
        ensures clean { OnOk result (IsSlotAt self.new.slots.items.items at (λ s. not (is_unclean_slot s))) }
        ensures cut { IfErr result (λ cut. IsWhyCut (caching L.Link self.new) cut) }
        ensures flush { WantsFlush L.Link self.old self.new }
        ensures at_once { IsSlotAt self.old.slots.items.items at (λ s. not (is_unclean_slot s)) → (self.new ≡ self.old) × (result ≡ Ok tt) }
    {
        if !self.slots.get(at).is_unclean() {
            return Ok(());
        }
        self.wait_for(at)
    }

    /// Makes a slot free.
    fn make_room(&mut self) -> Result<usize, Cut>
        requires ready { IsReady (caching L.Link self.old) }
        ensures keeps { Keeps (caching L.Link self.old) (caching L.Link self.new) }
        ensures goes { LinkGoesOn L.Link self.old self.new }
        ensures count { frame_count self.new ≡ frame_count self.old }
        ensures free { IfOk result (λ at. IsFreeAt self.new.slots.items.items at) }
        ensures made { MakesRoom result self.old.slots self.new.slots }
        ensures none { (b : ℕ) → held self.old.slots.items.items b ≡ None → held self.new.slots.items.items b ≡ None }
        ensures cut { IfErr result (λ cut. IsWhyCut (caching L.Link self.new) cut) }
        ensures flush { WantsFlush L.Link self.old self.new }
        ensures at_once { IsAtOnce result self.old self.new }
        ensures looks { Looks (caching L.Link self.old) (caching L.Link self.new) }
    {
        let at = self.slots.victim();
        self.clean(at)?;
        self.slots.vacate(at);
        Ok(at)
    }

    /// Begins the read of a block; none where it was refused.
    fn try_read(&mut self, block: u32) -> Option<Reading>
        requires ready { IsReady (caching L.Link self.old) }
        requires open { self.old.ended ≡ false }
        ensures keeps { Keeps (caching L.Link self.old) (caching L.Link self.new) }
        ensures goes { LinkGoesOn L.Link self.old self.new }
        ensures busy { IsBusy (begun_in self.new.transfers) }
        ensures left { messages_left (caching L.Link self.new) ≤ messages_left (caching L.Link self.old) }
        ensures slots { self.new.slots ≡ self.old.slots }
        ensures reading { IfSome result (λ r.
            (r.block ≡ block) × IsBlockRead (begun_in self.new.transfers) r.ticket block self.old.shape.block_size) }
        ensures flush { WantsFlush L.Link self.old self.new }
        ensures looks { Looks (caching L.Link self.old) (caching L.Link self.new) }
    {
        let ask = self.shape.read(block);
        match self.transfers.begin(&ask) {
            Ok(ticket) => Some(Reading { block, ticket }),
            Err(_) => None,
        }
    }

    /// Begins the read of a block, as soon as there is a place for it. Until then it takes messages.
    fn begin_read(&mut self, block: u32) -> Result<Reading, Cut>
        requires ready { IsReady (caching L.Link self.old) }
        ensures keeps { Keeps (caching L.Link self.old) (caching L.Link self.new) }
        ensures goes { LinkGoesOn L.Link self.old self.new }
        ensures leaves { Leaves self.old.slots.items.items self.new.slots.items.items }
        ensures stay { AllStay self.old.slots self.new.slots }
        ensures reading { IfOk result (λ r.
            (r.block ≡ block) × IsBlockRead (begun_in self.new.transfers) r.ticket block self.new.shape.block_size) }
        ensures cut { IfErr result (λ cut. IsWhyCut (caching L.Link self.new) cut) }
        ensures flush { WantsFlush L.Link self.old self.new }
        ensures looks { Looks (caching L.Link self.old) (caching L.Link self.new) }
    {
        'tries: loop {
            self.live()?;
            if let Some(reading) = self.try_read(block) {
                return Ok(reading);
            }
            self.take()?;
        }
    }

    /// Takes messages until a read is settled: its bytes stand in the spare room of the slots then.
    fn wait(&mut self, reading: Reading) -> Result<(), Cut>
        requires ready { IsReady (caching L.Link self.old) }
        requires reading { IsBlockRead (begun_in self.old.transfers) reading.ticket reading.block self.old.shape.block_size }
        ensures runs { Does L.Link self.old self.new
            (Reads (read_into result self.new.slots.spare.value) (reading.block * self.old.shape.block_size) self.old.shape.block_size) }
        ensures goes { LinkGoesOn L.Link self.old self.new }
        ensures leaves { Leaves self.old.slots.items.items self.new.slots.items.items }
        ensures stay { AllStay self.old.slots self.new.slots }
        ensures cut { IfErr result (λ cut. IsWhyCut (caching L.Link self.new) cut) }
        ensures flush { WantsFlush L.Link self.old self.new }
        ensures looks { Looks (caching L.Link self.old) (caching L.Link self.new) }
    {
        'messages: loop {
            let Took::Read(settled) = self.take()? else {
                continue;
            };
            if settled == reading.ticket {
                return Ok(());
            }
        }
    }

    /// Reads a block without a frame: its bytes stand in the spare room of the slots then.
    fn read(&mut self, block: u32) -> Result<(), Cut>
        requires ready { IsReady (caching L.Link self.old) }
        ensures runs { Does L.Link self.old self.new
            (Reads (read_into result self.new.slots.spare.value) (block * self.old.shape.block_size) self.old.shape.block_size) }
        ensures goes { LinkGoesOn L.Link self.old self.new }
        ensures leaves { Leaves self.old.slots.items.items self.new.slots.items.items }
        ensures stay { AllStay self.old.slots self.new.slots }
        ensures cut { IfErr result (λ cut. IsWhyCut (caching L.Link self.new) cut) }
        ensures flush { WantsFlush L.Link self.old self.new }
        ensures looks { Looks (caching L.Link self.old) (caching L.Link self.new) }
    {
        let reading = self.begin_read(block)?;
        self.wait(reading)
    }

    /// The frame of a block, if it has one. No frame is used by it. A step is an entry of the index that is compared: 13 at most.
    #[inline]
    pub fn find(&self, block: u32, steps: &mut Steps) -> Option<Frame>
        ensures frame { IsFrameOf self.now result block }
        ensures cost { steps.new ≤ steps.old + 13 }
    {
        match self.slots.find(block, steps) {
            Some(at) => Some(Frame { block, at }),
            None => None,
        }
    }

    /// The frame of a block, which is read if it has none: what would be read back stays as it is. Where the call is
    /// cut the block gets none; the frame that was to go may be gone.
    pub fn fetch(&mut self, block: u32) -> Result<Frame, Cut>
        requires ready { IsReady (caching L.Link self.old) }
        ensures keeps { Keeps (caching L.Link self.old) (caching L.Link self.new) }
        ensures goes { LinkGoesOn L.Link self.old self.new }
        ensures count { frame_count self.new ≡ frame_count self.old }
        ensures frame { IfOk result (λ f. (f.block ≡ block) × IsFrame self.new f) }
        ensures hit { (s : Slot) → held self.old.slots.items.items block ≡ Some s → Hits result self.old self.new }
        ensures miss { held self.old.slots.items.items block ≡ None → Misses State.Clean result self.old self.new }
        ensures cut { IfErr result (λ cut. IsWhyCut (caching L.Link self.new) cut) }
        ensures flush { WantsFlush L.Link self.old self.new }
        ensures looks { Looks (caching L.Link self.old) (caching L.Link self.new) }
    {
        match self.find(block, &mut Steps::new()) {
            Some(frame) => {
                self.slots.touch(frame.at);
                Ok(frame)
            }
            None => self.fetch_missing(block),
        }
    }

    /// The frame of a block that has none, which is read.
    #[inline(never)]
    fn fetch_missing(&mut self, block: u32) -> Result<Frame, Cut>
        requires ready { IsReady (caching L.Link self.old) }
        requires missing { held self.old.slots.items.items block ≡ None }
        ensures keeps { Keeps (caching L.Link self.old) (caching L.Link self.new) }
        ensures goes { LinkGoesOn L.Link self.old self.new }
        ensures count { frame_count self.new ≡ frame_count self.old }
        ensures frame { IfOk result (λ f. (f.block ≡ block) × IsFrame self.new f) }
        ensures miss { Misses State.Clean result self.old self.new }
        ensures cut { IfErr result (λ cut. IsWhyCut (caching L.Link self.new) cut) }
        ensures flush { WantsFlush L.Link self.old self.new }
        ensures looks { Looks (caching L.Link self.old) (caching L.Link self.new) }
    {
        let at = self.make_room()?;
        self.read(block)?;
        self.slots.fill(at, block, State::Clean);
        self.slots.grow();
        Ok(Frame { block, at })
    }

    /// The frame of a block with zero bytes in place of its own, which aren't read. The block is one that the volume has, but not its
    /// first two.
    pub fn fresh(&mut self, block: u32) -> Result<Frame, Cut>
        requires ready { IsReady (caching L.Link self.old) }
        requires writable { IsWritable (area_in self.old.shape) self.old.shape.block_size block }
        ensures runs { Does L.Link self.old self.new (Blanks result block) }
        ensures goes { LinkGoesOn L.Link self.old self.new }
        ensures count { frame_count self.new ≡ frame_count self.old }
        ensures frame { IfOk result (λ f. (f.block ≡ block) × IsFrame self.new f) }
        ensures hit { (s : Slot) → held self.old.slots.items.items block ≡ Some s → BlanksFrame result self.old self.new }
        ensures miss { held self.old.slots.items.items block ≡ None → Misses State.Dirty result self.old self.new }
        ensures cut { IfErr result (λ cut. IsWhyCut (caching L.Link self.new) cut) }
        ensures flush { WantsFlush L.Link self.old self.new }
        ensures at_once { held self.old.slots.items.items block ≡ None → IsAtOnce result self.old self.new }
    {
        match self.find(block, &mut Steps::new()) {
            Some(frame) => {
                self.slots.blank(frame.at);
                Ok(frame)
            }
            None => self.fresh_missing(block),
        }
    }

    /// The frame of a block that has none, with zero bytes.
    #[inline(never)]
    fn fresh_missing(&mut self, block: u32) -> Result<Frame, Cut>
        requires ready { IsReady (caching L.Link self.old) }
        requires writable { IsWritable (area_in self.old.shape) self.old.shape.block_size block }
        requires missing { held self.old.slots.items.items block ≡ None }
        ensures runs { Does L.Link self.old self.new (Blanks result block) }
        ensures goes { LinkGoesOn L.Link self.old self.new }
        ensures count { frame_count self.new ≡ frame_count self.old }
        ensures frame { IfOk result (λ f. (f.block ≡ block) × IsFrame self.new f) }
        ensures miss { Misses State.Dirty result self.old self.new }
        ensures cut { IfErr result (λ cut. IsWhyCut (caching L.Link self.new) cut) }
        ensures flush { WantsFlush L.Link self.old self.new }
        ensures at_once { IsAtOnce result self.old self.new }
    {
        let at = self.make_room()?;
        self.slots.clear_spare();
        self.slots.fill(at, block, State::Dirty);
        self.slots.grow();
        Ok(Frame { block, at })
    }

    /// How many bytes a block has: 1024, 2048 or 4096.
    pub fn block_size(&self) -> u32
        ensures size { result ≡ self.now.shape.block_size }
        ensures most { result ≤ 4096 }
    {
        self.shape.block_size
    }

    /// The bytes of a frame, a block's length of them.
    pub fn frame(&self, frame: Frame) -> &[u8]
        requires { IsFrame self.now frame }
        ensures whole { length result.now ≡ self.now.shape.block_size }
        ensures bytes { frames_of self.now.shape.block_size (held_by self.now) frame.block ≡ Some result.now }
    {
        &self.slots.get(frame.at).bytes[..self.shape.block_size as usize]
    }

    /// Changes these bytes of a frame, from this place on, and no others. Its block is one that the volume has, but not its first two.
    pub fn change(&mut self, frame: Frame, from: usize, bytes: &[u8])
        requires ready { IsReady (caching L.Link self.old) }
        requires frame { IsFrame self.old frame }
        requires writable { IsWritable (area_in self.old.shape) self.old.shape.block_size frame.block }
        requires within { from + length bytes.now ≤ self.old.shape.block_size }
        ensures runs { Does L.Link self.old self.new (Rewrites frame.block (with_bytes from bytes.now)) }
        ensures goes { LinkGoesOn L.Link self.old self.new }
        ensures count { frame_count self.new ≡ frame_count self.old }
        ensures frames { (f : FrameValue) → IsFrame self.old f → IsFrame self.new f }
        ensures changed { IsChangedAt self.old.slots.items.items self.new.slots.items.items frame.at from bytes.now }
        ensures rest { self.new ≡ record self.old { slots = self.new.slots } }
        ensures uses { self.new.slots.uses ≡ self.old.slots.uses }
    {
        self.slots.change(frame.at, from, bytes);
    }

    /// Gives up the frame of a block, if its bytes are the disk's.
    pub fn forget(&mut self, block: u32)
        requires ready { IsReady (caching L.Link self.old) }
        ensures keeps { Keeps (caching L.Link self.old) (caching L.Link self.new) }
        ensures goes { LinkGoesOn L.Link self.old self.new }
        ensures count { frame_count self.new ≡ frame_count self.old }
        ensures held { held_by self.new ≡ forgotten block (held_by self.old) }
        ensures rest { self.new ≡ record self.old { slots = self.new.slots } }
        ensures uses { self.new.slots.uses ≡ self.old.slots.uses }
        ensures frames { (f : FrameValue) → f.block ≢ block → IsFrame self.old f → IsFrame self.new f }
        ensures looks { Looks (caching L.Link self.old) (caching L.Link self.new) }
    {
        match self.find(block, &mut Steps::new()) {
            Some(frame) => {
                if self.slots.get(frame.at).state.is_clean() {
                    self.slots.vacate(frame.at);
                }
            }
            None => {}
        }
    }

    /// The block that has to be written before one without a frame is given a frame, where its write isn't under way yet: that of the frame
    /// that goes next.
    #[inline]
    pub fn due(&self) -> Option<u32>
        ensures { IsDue result self.now.slots.items.items self.now.slots.uses.numbers.items }
    {
        self.slots.due()
    }

    /// Begins the write of the dirty frame with the lowest block from this one on, and says which it is. None where no such frame is dirty,
    /// or the write was refused since sixteen requests are pending or a byte of it is, or where no message comes any more; then nothing is
    /// changed. No message is taken.
    pub fn write_next(&mut self, from: u32) -> Option<u32>
        requires ready { IsReady (caching L.Link self.old) }
        ensures keeps { Keeps (caching L.Link self.old) (caching L.Link self.new) }
        ensures goes { LinkGoesOn L.Link self.old self.new }
        ensures count { frame_count self.new ≡ frame_count self.old }
        ensures posts { PostsAlone (caching L.Link self.old) (caching L.Link self.new) }
        ensures left { messages_left (caching L.Link self.new) ≤ messages_left (caching L.Link self.old) }
        ensures issued { BeginsNext from result (held_by self.old) (held_by self.new) }
        ensures stopped { result ≡ None → IsLive (caching L.Link self.new)
            → NoneDirtyFrom from (held_by self.new) ⊎ IsRefusing (caching L.Link self.new) }
        ensures frames { (f : FrameValue) → IsFrame self.old f → IsFrame self.new f }
        ensures flush { self.new.flush ≡ self.old.flush }
        ensures refused { result ≡ None → self.new ≡ self.old }
        ensures uses { self.new.slots.uses ≡ self.old.slots.uses }
        ensures reads { NoReadBegun (begun_in self.old.transfers) (begun_in self.new.transfers) }
    {
        if self.live().is_err() {
            return None;
        }
        let Some(at) = self.slots.next_dirty(from) else {
            return None;
        };
        let block = self.slots.get(at).block;
        if !self.issue(at) {
            return None;
        }
        block
    }

    /// Begins the writes of a run in one request: of the dirty frame with the lowest block, and of as many as are dirty side by side from it
    /// on, `most` of them at most and no more than one request takes. How many: none where no frame is dirty, or the write was refused since
    /// sixteen requests are pending or a byte of it is, or where no message comes any more; then nothing is changed. No message is taken.
    pub fn write_run(&mut self, most: u32) -> u32
        requires ready { IsReady (caching L.Link self.old) }
        requires most { 0 < most }
        ensures keeps { Keeps (caching L.Link self.old) (caching L.Link self.new) }
        ensures goes { LinkGoesOn L.Link self.old self.new }
        ensures count { frame_count self.new ≡ frame_count self.old }
        ensures posts { PostsAlone (caching L.Link self.old) (caching L.Link self.new) }
        ensures left { messages_left (caching L.Link self.new) ≤ messages_left (caching L.Link self.old) }
        ensures issued { BeginsRun most self.old.shape.block_size result (held_by self.old) (held_by self.new)
            (requests_in (table_of self.old.transfers)) (requests_in (table_of self.new.transfers)) }
        ensures few { result ≤ most }
        ensures busy { 0 < result → IsBusy (begun_in self.new.transfers) }
        ensures stuck { result ≡ 0 → IsLive (caching L.Link self.new) → IsStuck (caching L.Link self.new) }
        ensures frames { (f : FrameValue) → IsFrame self.old f → IsFrame self.new f }
        ensures flush { self.new.flush ≡ self.old.flush }
        ensures refused { result ≡ 0 → self.new ≡ self.old }
        ensures live { 0 < result → IsLive (caching L.Link self.old) }
        ensures uses { self.new.slots.uses ≡ self.old.slots.uses }
        ensures adds { 0 < result → length (table_of self.new.transfers).pending ≡ length (table_of self.old.transfers).pending + 1 }
        ensures reads { NoReadBegun (begun_in self.old.transfers) (begun_in self.new.transfers) }
    {
        if self.live().is_err() {
            return 0;
        }
        let Some(block) = self.slots.lowest_block() else {
            return 0;
        };
        let most = most.min(self.shape.most_blocks());
        let count = self.slots.dirty_from(block, most);
        if !self.issue_run(block, count) {
            return 0;
        }
        count
    }

    /// Whether the bytes of each frame are the disk's.
    pub fn is_clean(&self) -> bool
        ensures clean { OnTrue result (AllClean (held_by self.now)) }
        ensures unclean { OnFalse result (SomeUnclean (held_by self.now)) }
    {
        self.slots.is_clean()
    }

    /// Does what a message asks for that was handed over between two calls. End changes nothing. Where nothing is pending the link is told
    /// nothing.
    pub fn absorb(&mut self, message: Incoming)
        requires ready { IsReady (caching L.Link self.old) }
        requires ids { (table_of self.old.transfers).ids < 2 ^ 60 }
        requires spare { self.old.ended ≡ false → (table_of self.old.transfers).ids + L.budget_left (link_of self.old.transfers) + 17
            < 2 ^ 60 + length (table_of self.old.transfers).pending }
        requires room { room_needed message ≤ L.room (link_of self.old.transfers) }
        ensures hands_over { HandsOver message (caching L.Link self.old) (caching L.Link self.new) }
        ensures silent { IsIdle (caching L.Link self.old) → (caching L.Link self.new).told ≡ (caching L.Link self.old).told }
        ensures goes { LinkGoesOn L.Link self.old self.new }
        ensures wanted { IsWantedFor (message ≡ Incoming.Flush) self.old.flush self.new.flush }
        ensures asked { message ≡ Incoming.Flush → held_by self.new ≡ held_by self.old }
        ensures pending { message ≡ Incoming.Flush → (marks : List Mark) → Agrees (table_of self.old.transfers) marks
            → requests_in (table_of self.new.transfers) ≡ requests_in (table_of self.old.transfers) }
        ensures stay { AllStay self.old.slots self.new.slots }
        ensures leaves { Leaves self.old.slots.items.items self.new.slots.items.items }
        ensures end { message ≡ Incoming.End → self.new ≡ self.old }
        ensures reads { NoReadBegun (begun_in self.old.transfers) (begun_in self.new.transfers) }
        ensures looks { Looks (caching L.Link self.old) (caching L.Link self.new) }
    {
        let settled = self.transfers.absorb(&message, &mut zeros());
        settle(&mut self.slots, &mut self.flush, settled);
    }
}
