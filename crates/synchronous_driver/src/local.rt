//! A driver as the one thread sees it that runs it.

ghost use Rattle.std.specs.Prelude.{◌≡◌};
ghost use Rattle.bdev.specs.DriverState.{DriverState, range_while_fresh};
ghost use Rattle.bdev.specs.Promises.{IsDriver, AcceptKeeps, StepKeeps};

use bdev::{Accept, BlockDriver, Step};
use media::Media;
use message::BlockRequest;

/// What a link that runs its drivers itself asks of them: the interface of drivers, but for the leave to move to another thread.
pub trait LocalDriver: Drop {
    ghost state: { Self → DriverState };

    /// Hands over a request. It is `Taken` where none is in work and its id is above that of the last one taken; else it
    /// is dropped and nothing changes: `Busy` while one is in work, `Old` where its id isn't above.
    fn accept_here(&mut self, request: BlockRequest) -> Accept
        ensures keeps { AcceptKeeps (state self.old) request result (state self.new) }
        ensures driver { IsDriver (state self.new) };

    /// The sector of the media that the next step may write: some only while a write is in work.
    fn in_work_here(&self) -> Option<u32>
        ensures value { result ≡ (state self.now).in_work }
        ensures driver { IsDriver (state self.now) };

    /// The first sector and the count of a minor's range, while nothing was taken and nothing failed.
    fn ready_here(&self, minor: u8) -> Option<(u32, u32)>
        ensures value { result ≡ range_while_fresh (state self.now) minor }
        ensures driver { IsDriver (state self.now) };

    /// Works on the request in work, under the generation that the driver was started with: moves at most one sector of
    /// 512 bytes. `Done` bears its answer and ends it. `Failed`, as where the media refuse the sector, leaves it in work.
    /// With none in work it is `Idle` or `Failed`, and the media stay.
    fn step_here(&mut self, media: &mut Media, generation: u32) -> Step
        ensures keeps { StepKeeps (state self.old) media.old generation result (state self.new) media.new }
        ensures driver { IsDriver (state self.new) };
}

impl<D: BlockDriver> LocalDriver for D {
    ghost state = { D.BlockDriver.state };

    fn accept_here(&mut self, request: BlockRequest) -> Accept {
        self.accept(request)
    }

    fn in_work_here(&self) -> Option<u32> {
        self.in_work()
    }

    fn ready_here(&self, minor: u8) -> Option<(u32, u32)> {
        self.ready(minor)
    }

    fn step_here(&mut self, media: &mut Media, generation: u32) -> Step {
        self.step(media, generation)
    }
}
