ghost use Rattle.std.specs.Prelude.{◌≡◌, ◌+◌, ◌≤◌, if◌then◌else◌};
ghost use Rattle.media.specs.Table.{ranges_of};
ghost use Rattle.bdev.specs.DriverState.{fresh, plan};
ghost use Rattle.bdev.specs.Promises.{AcceptKeeps, IsDriver, StepKeeps};
ghost use Rattle.bdev.specs.Stepping.{step_with};
ghost use Rattle.modeldisk.specs.Order.{arm_after, order_in, StepsInOrder};

use crate::sector_mover::mover::Mover;
use bdev::{Accept, BlockDriver, Step, Stepped};
use media::Media;
use media::partition::Table;
use message::BlockRequest;

/// A driver with an arm over the sectors. It moves a request's sectors not below the arm first, rising,
/// then those below it, rising. The arm stands after the last sector that was moved.
#[derive(Drop)]
pub struct ModelDriver {
    pub(crate) mover: Mover,
    ghost few: { mover.bad + (if mover.busy then 1 else 0) ≤ mover.last },
}

impl ModelDriver {
    ghost use Rattle.modeldisk.specs.Drivers.{arm_of, model_state};

    /// A driver of the media with this table, which took nothing yet, its arm at sector `arm`.
    pub fn new(table: Table, arm: u32) -> ModelDriver
        ensures state { model_state result ≡ fresh (ranges_of table) }
        ensures arm { arm_of result ≡ arm }
    {
        ModelDriver {
            mover: Mover::new(table, arm),
        }
    }

    /// The sector at which the arm stands.
    pub fn arm(&self) -> u32
        ensures { result ≡ arm_of self.now }
    {
        self.mover.arm
    }
}

impl BlockDriver for ModelDriver {
    ghost use Rattle.modeldisk.specs.Drivers.{arm_of, model_busy, model_left, model_outcome, model_ranges, model_state};

    ghost state = { model_state };

    /// A request that is taken has its sectors moved in a sweep from where the arm stands.
    fn accept(&mut self, request: BlockRequest) -> Accept
        ensures keeps { AcceptKeeps (model_state self.old) request result (model_state self.new) }
        ensures driver { IsDriver (model_state self.new) }
        ensures order { result ≡ Accept.Taken → model_left self.new ≡ order_in (arm_of self.old) (plan (model_ranges self.old) request) }
        ensures arm { arm_of self.new ≡ arm_of self.old }
    {
        let from = self.mover.arm;
        self.mover.accept(request, from)
    }

    fn in_work(&self) -> Option<u32> {
        self.mover.in_work()
    }

    fn ready(&self, minor: u8) -> Option<(u32, u32)> {
        self.mover.ready(minor)
    }

    fn bad(&self) -> u64 {
        self.mover.bad()
    }

    /// Moves the first of the sectors that are left; the step that moves the last one answers.
    fn step(&mut self, media: &mut Media, generation: u32) -> Step
        ensures keeps { StepKeeps (model_state self.old) media.old generation result (model_state self.new) media.new }
        ensures driver { IsDriver (model_state self.new) }
        ensures order { StepsInOrder (model_busy self.old) (model_left self.old) (model_outcome self.old) media.old generation result
            (model_left self.new) }
        ensures arm { arm_of self.new ≡ arm_after (model_left self.old) media.old generation (arm_of self.old) }
    {
        self.mover.step(media, generation)
    }

    /// As `step`, but the bytes of an answer to a read are put where the caller has room.
    fn step_into(&mut self, media: &mut Media, generation: u32, bytes: &mut [u8; 4096]) -> Stepped
        ensures keeps { StepKeeps (model_state self.old) media.old generation (step_with result bytes.new) (model_state self.new)
            media.new }
        ensures driver { IsDriver (model_state self.new) }
        ensures order { StepsInOrder (model_busy self.old) (model_left self.old) (model_outcome self.old) media.old generation
            (step_with result bytes.new) (model_left self.new) }
        ensures arm { arm_of self.new ≡ arm_after (model_left self.old) media.old generation (arm_of self.old) }
    {
        self.mover.step_into(media, generation, bytes)
    }
}
