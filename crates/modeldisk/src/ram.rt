ghost use Rattle.std.specs.Prelude.{◌≡◌, ◌+◌, ◌≤◌, if◌then◌else◌};
ghost use Rattle.media.specs.Table.{ranges_of};
ghost use Rattle.bdev.specs.DriverState.{fresh, plan};
ghost use Rattle.bdev.specs.Promises.{AcceptKeeps, IsDriver, StepKeeps};
ghost use Rattle.bdev.specs.Stepping.{step_with};
ghost use Rattle.modeldisk.specs.Order.{order_in, StepsInOrder};

use crate::sector_mover::mover::Mover;
use bdev::{Accept, BlockDriver, Step, Stepped};
use media::Media;
use media::partition::Table;
use message::BlockRequest;

/// A driver that moves the sectors of a request in rising order.
#[derive(Drop)]
pub struct RamDriver {
    pub(crate) mover: Mover,
    ghost few: { mover.bad + (if mover.busy then 1 else 0) ≤ mover.last },
}

impl RamDriver {
    ghost use Rattle.modeldisk.specs.Drivers.{ram_state};

    /// A driver of the media with this table, which took nothing yet.
    pub fn new(table: Table) -> RamDriver
        ensures { ram_state result ≡ fresh (ranges_of table) }
    {
        RamDriver {
            mover: Mover::new(table, 0),
        }
    }
}

impl BlockDriver for RamDriver {
    ghost use Rattle.modeldisk.specs.Drivers.{ram_busy, ram_left, ram_outcome, ram_ranges, ram_state};

    ghost state = { ram_state };

    /// A request that is taken has its sectors moved in rising order.
    fn accept(&mut self, request: BlockRequest) -> Accept
        ensures keeps { AcceptKeeps (ram_state self.old) request result (ram_state self.new) }
        ensures driver { IsDriver (ram_state self.new) }
        ensures order { result ≡ Accept.Taken → ram_left self.new ≡ order_in 0 (plan (ram_ranges self.old) request) }
    {
        self.mover.accept(request, 0)
    }

    fn in_work(&self) -> Option<u32> {
        self.mover.in_work()
    }

    fn ready(&self, minor: u8) -> Option<(u32, u32)> {
        self.mover.ready(minor)
    }

    fn bad(&self) -> u64 {
        self.mover.bad()
    }

    /// Moves the first of the sectors that are left; the step that moves the last one answers.
    fn step(&mut self, media: &mut Media, generation: u32) -> Step
        ensures keeps { StepKeeps (ram_state self.old) media.old generation result (ram_state self.new) media.new }
        ensures driver { IsDriver (ram_state self.new) }
        ensures order { StepsInOrder (ram_busy self.old) (ram_left self.old) (ram_outcome self.old) media.old generation result
            (ram_left self.new) }
    {
        self.mover.step(media, generation)
    }

    /// As `step`, but the bytes of an answer to a read are put where the caller has room.
    fn step_into(&mut self, media: &mut Media, generation: u32, bytes: &mut [u8; 4096]) -> Stepped
        ensures keeps { StepKeeps (ram_state self.old) media.old generation (step_with result bytes.new) (ram_state self.new) media.new }
        ensures driver { IsDriver (ram_state self.new) }
        ensures order { StepsInOrder (ram_busy self.old) (ram_left self.old) (ram_outcome self.old) media.old generation
            (step_with result bytes.new) (ram_left self.new) }
    {
        self.mover.step_into(media, generation, bytes)
    }
}
