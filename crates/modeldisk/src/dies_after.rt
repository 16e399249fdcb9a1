ghost use Rattle.std.specs.Prelude.{◌≡◌, false, true};
ghost use Rattle.bdev.specs.Promises.{IsDriver, StepKeeps};
ghost use Rattle.modeldisk.specs.Dying.{failed_if, left_after, moves};

use bdev::{Accept, BlockDriver, Step};
use media::Media;
use message::BlockRequest;

/// A driver that works as the one in it until so many of its steps have moved a sector. The next step answers `Failed`, and so does each
/// later one.
///
/// A step counts that answers `Working`, or a number of bytes above 0. Each such step of a [`RamDriver`](crate::RamDriver) or a
/// [`ModelDriver`](crate::ModelDriver) has moved one sector, of 512 bytes, and no other step of theirs has.
#[derive(Drop)]
pub struct DiesAfter<D: BlockDriver> {
    pub(crate) driver: D,
    // How many more steps may move a sector.
    pub(crate) left: u64,
    // A step found none left.
    pub(crate) dead: bool,
}

/// Whether a step moved a sector, by its answer.
fn has_moved(step: &Step) -> bool
    ensures { result ≡ moves step.now }
{
    match step {
        Step::Working => true,
        Step::Done(answer) => matches!(answer.outcome, Ok(bytes) if bytes > 0),
        Step::Idle | Step::Failed => false,
    }
}

impl<D: BlockDriver> DiesAfter<D> {
    /// A driver that works as this one for so many sectors.
    pub fn new(driver: D, sectors: u64) -> DiesAfter<D>
        ensures { result ≡ record { driver = driver; left = sectors; dead = false } }
    {
        DiesAfter {
            driver,
            left: sectors,
            dead: false,
        }
    }

    /// How many more sectors it moves.
    pub fn left(&self) -> u64
        ensures { result ≡ self.now.left }
    {
        self.left
    }
}

impl<D: BlockDriver> BlockDriver for DiesAfter<D> {
    ghost state = { λ d. failed_if d.dead (D.state d.driver) };

    fn accept(&mut self, request: BlockRequest) -> Accept {
        self.driver.accept(request)
    }

    fn in_work(&self) -> Option<u32> {
        self.driver.in_work()
    }

    #[tactic(auto, using(crate::proofs::FailLaws::driver_if))]
    fn ready(&self, minor: u8) -> Option<(u32, u32)> {
        let range = self.driver.ready(minor);
        if self.dead { None } else { range }
    }

    fn bad(&self) -> u64 {
        self.driver.bad()
    }

    /// Works as the driver in it, and counts; it fails where no sector is left to move.
    #[tactic(auto, using(bdev::proofs::FailLaws::is_driver))]
    fn step(&mut self, media: &mut Media, generation: u32) -> Step
        ensures keeps { StepKeeps (failed_if self.old.dead (D.state self.old.driver)) media.old generation result
            (failed_if self.new.dead (D.state self.new.driver)) media.new }
        ensures driver { IsDriver (failed_if self.new.dead (D.state self.new.driver)) }
        ensures counts { self.new.left ≡ left_after result self.old.left }
        ensures dies { self.old.left ≡ 0 → result ≡ Step.Failed }
        ensures stays { self.old.dead ≡ true → result ≡ Step.Failed }
    {
        if self.dead || self.left == 0 {
            // what is known of a driver comes with a call
            let _sector = self.driver.in_work();
            self.dead = true;
            return Step::Failed;
        }
        let step = self.driver.step(media, generation);
        if has_moved(&step) {
            self.left -= 1;
        }
        step
    }
}
