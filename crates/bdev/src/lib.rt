//! The interface of block drivers.
//!
//! A driver takes one request at a time and moves its sectors between the media and the request, at
//! most one a step. Its success is true: an answer of `n` bytes means that the first `n` bytes were
//! moved, each sector by a step that the media accepted.
#![tactic(auto)]

pub mod failing;

ghost use Rattle.std.specs.Prelude.{◌≡◌};
ghost use Rattle.bdev.specs.DriverState.{DriverState, range_while_fresh};
ghost use Rattle.bdev.specs.Promises.{IsDriver, AcceptKeeps, StepKeeps};
ghost use Rattle.bdev.specs.Stepping.{step_with};

use errno::Errno;
use media::Media;
use message::BlockRequest;

/// What a driver says to a request that is handed to it.
#[derive(Clone, Copy, Debug, PartialEq, Eq)]
pub enum Accept {
    /// It is in work now.
    Taken,
    /// An earlier request is in work; this one is dropped.
    Busy,
    /// Its id isn't above that of the last request taken; it is dropped.
    Old,
}

/// A driver's answer to the request in work. Whoever runs the driver stamps its endpoint on it.
#[derive(Clone, Copy)]
pub struct Answer {
    /// The id of the request.
    pub id: u64,
    /// How many bytes were moved, from the position on, or why none.
    pub outcome: Result<u32, Errno>,
    /// A read's bytes; those past the number that the outcome gives have no meaning.
    pub bytes: [u8; 4096],
}

/// What a step of a driver did.
#[derive(Clone, Copy)]
pub enum Step {
    /// The request stays in work.
    Working,
    /// There is no request in work.
    Idle,
    /// The request in work has ended.
    Done(Answer),
    /// The driver failed; a request in work stays in work.
    Failed,
}

/// The end of a request: its answer without the bytes.
#[derive(Clone, Copy, Debug, PartialEq, Eq)]
pub struct Completion {
    /// The id of the request.
    pub id: u64,
    /// How many bytes were moved, from the position on, or why none.
    pub outcome: Result<u32, Errno>,
}

/// What a step of a driver did, where an answer's bytes stand elsewhere.
#[derive(Clone, Copy, Debug, PartialEq, Eq)]
pub enum Stepped {
    /// The request stays in work.
    Working,
    /// There is no request in work.
    Idle,
    /// The request in work has ended.
    Done(Completion),
    /// The driver failed; a request in work stays in work.
    Failed,
}

impl Stepped {
    /// The step, an answer with these bytes.
    pub fn with_bytes(self, bytes: &[u8; 4096]) -> Step
        ensures { result ≡ step_with self bytes.now }
    {
        match self {
            Stepped::Working => Step::Working,
            Stepped::Idle => Step::Idle,
            Stepped::Done(completion) => Step::Done(Answer {
                id: completion.id,
                outcome: completion.outcome,
                bytes: *bytes,
            }),
            Stepped::Failed => Step::Failed,
        }
    }
}

/// Sectors of the media that follow one another.
#[derive(Clone, Copy, Debug, PartialEq, Eq)]
pub struct Run {
    /// The number of the first one.
    pub first: u32,
    /// How many there are.
    pub count: u32,
}

/// A driver of a disk.
///
/// What it promises (own, after MINIX's block drivers) is said of its state:
/// 1. A request is refused as `Busy` while one is in work, else as `Old` where its id isn't above the
///    last one taken, and else taken.
/// 2. A step reads or writes at most one sector, of the request in work, under the generation handed
///    in, and changes nothing else of the media. A sector that is written is the one that `in_work`
///    named before the step, and it gets the request's bytes.
/// 3. `Done` bears the id of the request in work and ends it. `Ok(n)` is a multiple of 512, not over
///    the count, and the first `n` bytes were moved, each sector by a step that the media accepted.
/// 4. A position or count that is no multiple of 512, a count of 0 or over 4096, and a minor without a
///    range are answered `Err(EINVAL)`. A count that passes the end of the range is cut there.
/// 5. A step that fails keeps its request in work, and a failed driver stays failed. A driver whose step the media refused is to
///    answer `Failed`; no contract here says so, since from outside such a step looks like one that moved nothing.
///
/// A driver may also fail while no request is in work.
pub trait BlockDriver: Send + Drop {
    ghost state: { Self → DriverState };

    /// Hands over a request.
    fn accept(&mut self, request: BlockRequest) -> Accept
        ensures keeps { AcceptKeeps (state self.old) request result (state self.new) }
        ensures driver { IsDriver (state self.new) };

    /// The sector of the media that the next step may write: some only while a write is in work.
    fn in_work(&self) -> Option<u32>
        ensures value { result ≡ (state self.now).in_work }
        ensures driver { IsDriver (state self.now) };

    /// The first sector and the count of a minor's range, while nothing was taken and nothing failed.
    fn ready(&self, minor: u8) -> Option<(u32, u32)>
        ensures value { result ≡ range_while_fresh (state self.now) minor }
        ensures driver { IsDriver (state self.now) };

    /// How many of its answers weren't good.
    fn bad(&self) -> u64
        ensures value { result ≡ (state self.now).bad }
        ensures driver { IsDriver (state self.now) };

    /// Works on the request in work, under the generation that the driver was started with.
    fn step(&mut self, media: &mut Media, generation: u32) -> Step
        ensures keeps { StepKeeps (state self.old) media.old generation result (state self.new) media.new }
        ensures driver { IsDriver (state self.new) };

    /// As `step`, but the bytes of an answer to a read are put where the caller has room. After any other step they have no meaning.
    fn step_into(&mut self, media: &mut Media, generation: u32, bytes: &mut [u8; 4096]) -> Stepped
        ensures keeps { StepKeeps (state self.old) media.old generation (step_with result bytes.new) (state self.new) media.new }
        ensures driver { IsDriver (state self.new) }
    {
        match self.step(media, generation) {
            Step::Working => Stepped::Working,
            Step::Idle => Stepped::Idle,
            Step::Done(answer) => {
                let given = answer.bytes;
                *bytes = given;
                Stepped::Done(Completion {
                    id: answer.id,
                    outcome: answer.outcome,
                })
            }
            Step::Failed => Stepped::Failed,
        }
    }
}

/// A boxed driver.
pub type Driver = Box<dyn BlockDriver + Send>;

/// A boxed driver is a driver, so what is generic over drivers takes boxes too.
impl BlockDriver for Driver {
    ghost state = { λ b. (BlockDriver-box b).state b.value };

    fn accept(&mut self, request: BlockRequest) -> Accept {
        (**self).accept(request)
    }

    fn in_work(&self) -> Option<u32> {
        (**self).in_work()
    }

    fn ready(&self, minor: u8) -> Option<(u32, u32)> {
        (**self).ready(minor)
    }

    fn bad(&self) -> u64 {
        (**self).bad()
    }

    fn step(&mut self, media: &mut Media, generation: u32) -> Step {
        (**self).step(media, generation)
    }

    fn step_into(&mut self, media: &mut Media, generation: u32, bytes: &mut [u8; 4096]) -> Stepped {
        (**self).step_into(media, generation, bytes)
    }
}
