ghost use Rattle.std.specs.Prelude.{◌≡◌, ◌+◌, ◌*◌, ◌<◌, ◌≤◌, ◌^◌, get_or, slice_get, IfSome, if◌then◌else◌};
ghost use Rattle.media.specs.Table.{ranges_of};
ghost use Rattle.bdev.specs.DriverState.{fresh, plan, range_while_fresh};
ghost use Rattle.bdev.specs.Promises.{AcceptKeeps, IsDriver, StepKeeps};
ghost use Rattle.bdev.specs.Stepping.{step_with};
ghost use Rattle.modeldisk.specs.Order.{arm_after, order_in, order_of, StepsInOrder};
ghost use Rattle.modeldisk.specs.Transfer.{TransfersIf};
ghost use Rattle.modeldisk.specs.Mover.{IsFew, MovesNext, ended, handed, left_of, order, outcome_of, state_of};

use crate::sector_mover::chunks::{chunk_at, put_chunk};
use bdev::{Accept, Completion, Run, Step, Stepped};
use errno::Errno;
use media::Media;
use media::partition::Table;
use message::{BlockRequest, Kind, moved_bytes};

/// Moves the sectors of one request at a time, in the order of a sweep.
#[derive(Clone, Copy)]
pub struct Mover {
    pub table: Table,
    /// The sector after the last one moved.
    pub arm: u32,
    /// The id of the last request taken, 0 at first.
    pub last: u64,
    /// How many answers weren't good.
    pub bad: u64,
    pub failed: bool,
    /// Whether the request is in work; else the fields below have no meaning.
    pub busy: bool,
    pub request: BlockRequest,
    /// Where the sweep over its sectors begins.
    pub from: u32,
    /// How many of its sectors were moved.
    pub done: u32,
    /// A read's bytes so far.
    pub got: [u8; 4096],
}

/// The sectors that a request is for, cut at the end of its range.
pub fn plan(table: &Table, request: &BlockRequest) -> Option<Run>
    ensures value { result ≡ plan (ranges_of table.now) request.now }
    ensures within { IfSome result (λ run. run.first + run.count < 2 ^ 32) }
    ensures few { IfSome result (λ run. run.count ≤ 8) }
{
    let (first, count) = table.range(request.minor)?;
    let on_sectors = request.position % 512 == 0
        && request.count % 512 == 0
        && 0 < request.count
        && request.count <= 4096;
    if !on_sectors {
        return None;
    }
    let before = (request.position / 512).min(u64::from(count)) as u32;
    Some(Run {
        first: first + before,
        count: (request.count / 512).min(count - before),
    })
}

/// The place in the run of the sector that is moved after `done` others, in a sweep from `from`.
pub fn number_at(run: Run, from: u32, done: u32) -> u32
    requires next { done < run.count }
    requires few { run.count ≤ 8 }
    ensures at { get_or (order_of from run) done 0 ≡ run.first + result }
    ensures within { result < run.count }
{
    let below = from.saturating_sub(run.first).min(run.count);
    let number = below + done;
    if number < run.count {
        number
    } else {
        number - run.count
    }
}

impl Mover {
    /// A mover that took nothing yet.
    pub fn new(table: Table, arm: u32) -> Mover
        ensures state { state_of result ≡ fresh (ranges_of table) }
        ensures arm { result.arm ≡ arm }
        ensures few { IsFew result }
    {
        Mover {
            table,
            arm,
            last: 0,
            bad: 0,
            failed: false,
            busy: false,
            request: BlockRequest {
                id: 0,
                kind: Kind::Read,
                minor: 0,
                position: 0,
                count: 0,
                bytes: [0; 4096],
            },
            from: 0,
            done: 0,
            got: [0; 4096],
        }
    }

    /// Takes a request, whose sectors are then swept from `from`.
    pub fn accept(&mut self, request: BlockRequest, from: u32) -> Accept
        requires { IsFew self.old }
        ensures keeps { AcceptKeeps (state_of self.old) request result (state_of self.new) }
        ensures order { result ≡ Accept.Taken → left_of self.new ≡ order_in from (plan (ranges_of self.old.table) request) }
        ensures done { result ≡ Accept.Taken → self.new.done ≡ 0 }
        ensures arm { self.new.arm ≡ self.old.arm }
        ensures few { IsFew self.new }
    {
        if self.busy {
            return Accept::Busy;
        }
        if request.id <= self.last {
            return Accept::Old;
        }
        self.last = request.id;
        self.busy = true;
        self.request = request;
        self.from = from;
        self.done = 0;
        Accept::Taken
    }

    /// The sector that the next step may write.
    pub fn in_work(&self) -> Option<u32>
        ensures { result ≡ (state_of self.now).in_work }
    {
        if !self.busy {
            return None;
        }
        match self.request.kind {
            Kind::Read => None,
            Kind::Write => self.next_sector(),
        }
    }

    /// The next sector of the request in work, if one is left.
    fn next_sector(&self) -> Option<u32>
        ensures { result ≡ slice_get (order self.now) self.now.done }
    {
        let run = plan(&self.table, &self.request)?;
        if self.done >= run.count {
            return None;
        }
        Some(run.first + number_at(run, self.from, self.done))
    }

    /// A minor's range while nothing was taken and nothing failed.
    pub fn ready(&self, minor: u8) -> Option<(u32, u32)>
        ensures { result ≡ range_while_fresh (state_of self.now) minor }
    {
        if self.last == 0 && !self.failed {
            self.table.range(minor)
        } else {
            None
        }
    }

    /// How many of its answers weren't good.
    pub fn bad(&self) -> u64
        ensures { result ≡ (state_of self.now).bad }
    {
        self.bad
    }

    /// Moves the next sector, or answers. The bytes of an answer stay in `got`.
    pub fn advance(&mut self, media: &mut Media, generation: u32) -> Stepped
        requires { IsFew self.old }
        ensures keeps { StepKeeps (state_of self.old) media.old generation (step_with result self.new.got) (state_of self.new) media.new }
        ensures order { StepsInOrder self.old.busy (left_of self.old) (outcome_of self.old) media.old generation
            (step_with result self.new.got) (left_of self.new) }
        ensures arm { self.new.arm ≡ arm_after (left_of self.old) media.old generation self.old.arm }
        ensures last { self.new.last ≡ self.old.last }
        ensures request { self.new.request ≡ self.old.request }
        ensures few { IsFew self.new }
    {
        if !self.busy {
            return Stepped::Idle;
        }
        let Some(run) = plan(&self.table, &self.request) else {
            return self.end(Err(Errno::EINVAL));
        };
        if self.done >= run.count {
            return self.end(Ok(512 * run.count));
        }
        if !self.move_next(run, media, generation) {
            self.failed = true;
            return Stepped::Failed;
        }
        if self.done < run.count {
            return Stepped::Working;
        }
        self.end(Ok(512 * run.count))
    }

    /// Moves the next sector, or answers.
    pub fn step(&mut self, media: &mut Media, generation: u32) -> Step
        requires { IsFew self.old }
        ensures keeps { StepKeeps (state_of self.old) media.old generation result (state_of self.new) media.new }
        ensures order { StepsInOrder self.old.busy (left_of self.old) (outcome_of self.old) media.old generation result (left_of self.new) }
        ensures arm { self.new.arm ≡ arm_after (left_of self.old) media.old generation self.old.arm }
        ensures last { self.new.last ≡ self.old.last }
        ensures few { IsFew self.new }
    {
        let stepped = self.advance(media, generation);
        stepped.with_bytes(&self.got)
    }

    /// Moves the next sector, or answers. The bytes of an answer to a read are put where the caller has room.
    #[tactic(auto, using(crate::proofs::HandedLaws::order_bearing))]
    pub fn step_into(
        &mut self,
        media: &mut Media,
        generation: u32,
        bytes: &mut [u8; 4096],
    ) -> Stepped
        requires { IsFew self.old }
        ensures keeps { StepKeeps (state_of self.old) media.old generation (step_with result bytes.new) (state_of self.new) media.new }
        ensures order { StepsInOrder self.old.busy (left_of self.old) (outcome_of self.old) media.old generation
            (step_with result bytes.new) (left_of self.new) }
        ensures arm { self.new.arm ≡ arm_after (left_of self.old) media.old generation self.old.arm }
        ensures last { self.new.last ≡ self.old.last }
        ensures few { IsFew self.new }
    {
        let stepped = self.advance(media, generation);
        self.hand_over(stepped, bytes);
        stepped
    }

    /// Puts the bytes of an answer to a read where the caller has room; after any other step it puts none.
    pub fn hand_over(&self, stepped: Stepped, bytes: &mut [u8; 4096])
        ensures { bytes.new ≡ handed self.now.request.kind stepped self.now.got bytes.old }
    {
        match (self.request.kind, stepped) {
            (Kind::Read, Stepped::Done(_)) => bytes.copy_from_slice(&self.got),
            _ => {}
        }
    }

    /// Moves the next sector of the run; false where the media refused it.
    fn move_next(&mut self, run: Run, media: &mut Media, generation: u32) -> bool
        requires next { self.old.done < run.count }
        requires few { run.count ≤ 8 }
        requires within { run.first + run.count < 2 ^ 32 }
        ensures { MovesNext run self.old media.old generation result self.new media.new }
    {
        let number = number_at(run, self.from, self.done);
        let at = run.first + number;
        if !self.transfer(number as usize, at, media, generation) {
            return false;
        }
        self.done += 1;
        self.arm = at + 1;
        true
    }

    /// Moves sector `at` of the media, which is the k-th of the request; false where the media refused it.
    fn transfer(&mut self, k: usize, at: u32, media: &mut Media, generation: u32) -> bool
        requires { k < 8 }
        ensures rest { self.new ≡ record self.old { got = self.new.got } }
        ensures moved { TransfersIf result self.old.request.kind self.old.request.bytes self.old.got media.old generation at k self.new.got
            media.new }
    {
        match self.request.kind {
            Kind::Read => match media.read_sector(generation, at) {
                Ok(bytes) => {
                    put_chunk(&mut self.got, k, &bytes);
                    true
                }
                Err(_) => false,
            },
            Kind::Write => {
                let bytes = chunk_at(&self.request.bytes, k);
                media.write_sector(generation, at, &bytes).is_ok()
            }
        }
    }

    /// Answers the request in work. The bytes of the answer are those in `got`.
    pub fn end(&mut self, outcome: Result<u32, Errno>) -> Stepped
        requires { self.old.bad < self.old.last }
        ensures rest { self.new ≡ ended outcome self.old }
        ensures step { result ≡ Stepped.Done (record { id = self.old.request.id; outcome = outcome }) }
    {
        if moved_bytes(self.request.count, &outcome).is_none() {
            self.bad += 1;
        }
        self.busy = false;
        Stepped::Done(Completion {
            id: self.request.id,
            outcome,
        })
    }
}
