ghost use Rattle.std.specs.Prelude.{◌≡◌, ◌≤◌, Some};
ghost use Rattle.bdev.specs.Promises.{StepKeeps};
ghost use Rattle.bdev.specs.Stepping.{step_with};
ghost use Rattle.modeldisk.specs.Mover.{IsFew, state_of};
ghost use Rattle.modeldisk.specs.Faults.{IsLeading, StepsBy};

use crate::sector_mover::mover::{Mover, plan};
use bdev::{Run, Stepped};
use errno::Errno;
use media::Media;

/// What goes wrong.
#[derive(Clone, Copy, Debug, PartialEq, Eq)]
pub enum FaultKind {
    /// The step answers `Failed`.
    Die,
    /// The step, and each later one, answers `Working` and does nothing.
    Hang,
    /// The step answers with the leading bytes that were moved so far.
    Short,
    /// The step answers with this error.
    Error(Errno),
}

/// A fault in a driver's script.
#[derive(Clone, Copy, Debug, PartialEq, Eq)]
pub struct Fault {
    /// In which of the requests taken it comes, counted from 1.
    pub request: u32,
    /// Once how many of that request's sectors were moved.
    pub after: u32,
    /// What the next step then does.
    pub kind: FaultKind,
}

/// Plays a fault on the request in work; a step without one is idle. The bytes of an answer stay in the mover's `got`.
pub(crate) fn play(
    mover: &mut Mover,
    kind: FaultKind,
    media: &mut Media,
    generation: u32,
) -> Stepped
    requires { IsFew mover.old }
    ensures keeps { StepKeeps (state_of mover.old) media.old generation (step_with result mover.new.got) (state_of mover.new) media.new }
    ensures fault { StepsBy mover.old.busy (Some kind) mover.old media.old generation (step_with result mover.new.got) mover.new }
    ensures arm { mover.new.arm ≡ mover.old.arm }
    ensures last { mover.new.last ≡ mover.old.last }
    ensures request { mover.new.request ≡ mover.old.request }
    ensures few { IsFew mover.new }
{
    if !mover.busy {
        return Stepped::Idle;
    }
    match kind {
        FaultKind::Die => {
            mover.failed = true;
            Stepped::Failed
        }
        FaultKind::Hang => Stepped::Working,
        FaultKind::Short => match plan(&mover.table, &mover.request) {
            None => mover.advance(media, generation),
            Some(run) => mover.end(Ok(512 * leading(mover, run))),
        },
        FaultKind::Error(errno) => match plan(&mover.table, &mover.request) {
            None => mover.advance(media, generation),
            Some(_) => mover.end(Err(errno)),
        },
    }
}

/// How many leading sectors of the run were moved.
fn leading(mover: &Mover, run: Run) -> u32
    requires { run.count ≤ 8 }
    ensures leading { IsLeading mover.now run result }
    ensures within { result ≤ run.count }
{
    if mover.done >= run.count {
        return run.count;
    }
    let below = mover.from.saturating_sub(run.first).min(run.count);
    if below == 0 {
        return mover.done;
    }
    (below + mover.done).saturating_sub(run.count)
}
