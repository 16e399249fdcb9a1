ghost use Rattle.std.specs.Prelude.{◌≡◌, ◌+◌, ◌≤◌, if◌then◌else◌};
ghost use Rattle.media.specs.Table.{ranges_of};
ghost use Rattle.bdev.specs.DriverState.{plan};
ghost use Rattle.bdev.specs.Promises.{AcceptKeeps, IsDriver, StepKeeps};
ghost use Rattle.bdev.specs.Stepping.{step_with};
ghost use Rattle.modeldisk.specs.Order.{order_in};
ghost use Rattle.modeldisk.specs.Mover.{IsFew, left_of};

use crate::fault::{Fault, FaultKind, play};
use crate::model::ModelDriver;
use crate::ram::RamDriver;
use crate::sector_mover::mover::Mover;
use bdev::{Accept, BlockDriver, Step, Stepped};
use media::Media;
use message::BlockRequest;

/// The driver that a script is played on.
#[derive(Drop)]
pub enum Inner {
    Ram(RamDriver),
    Model(ModelDriver),
}

/// A driver that works as its inner one until a fault of its script is due; of several that are due
/// at once the first in the script comes. Short and Error have no effect on a request that is answered
/// `Err(EINVAL)`.
#[derive(Drop)]
pub struct ScriptedDriver {
    mover: Mover,
    sweeps: bool,
    faults: Vec<Fault>,
    taken: u64,
    ghost few: { mover.bad + (if mover.busy then 1 else 0) ≤ mover.last },
    ghost counted: { taken ≤ mover.last },
}

impl ScriptedDriver {
    ghost use Rattle.modeldisk.specs.Script.{arm_with, due_of, has_arm, inner_arm, inner_state, mover_of, script_of, scripted_arm};
    ghost use Rattle.modeldisk.specs.Script.{scripted_state, FollowsScript};

    /// The inner driver with a script of faults.
    pub fn new(inner: Inner, faults: Vec<Fault>) -> ScriptedDriver
        ensures state { scripted_state result ≡ inner_state inner }
        ensures script { script_of result ≡ record { faults = faults.items; taken = 0; sweeps = has_arm inner } }
        ensures arm { scripted_arm result ≡ inner_arm inner }
    {
        let (mover, sweeps) = match inner {
            Inner::Ram(driver) => (driver.mover, false),
            Inner::Model(driver) => (driver.mover, true),
        };
        ScriptedDriver {
            mover,
            sweeps,
            faults,
            taken: 0,
        }
    }

    /// The fault that is due at the next step of the request in work.
    fn due(&self) -> Option<FaultKind>
        ensures { result ≡ due_of self.now }
    {
        let fault = self.faults.iter().find(|fault| u64::from(fault.request) == self.taken
            && fault.after == self.mover.done)?;
        Some(fault.kind)
    }

    /// Plays the fault that is due, or moves the next sector. The bytes of an answer stay in the mover's `got`.
    fn advance(&mut self, media: &mut Media, generation: u32) -> Stepped
        ensures keeps { StepKeeps (scripted_state self.old) media.old generation (step_with result (mover_of self.new).got)
            (scripted_state self.new) media.new }
        ensures fault { FollowsScript (due_of self.old) (mover_of self.old) media.old generation (step_with result (mover_of self.new).got)
            (mover_of self.new) }
        ensures script { script_of self.new ≡ script_of self.old }
        ensures arm { scripted_arm self.new ≡ arm_with (due_of self.old) (mover_of self.old) media.old generation }
        ensures request { (mover_of self.new).request ≡ (mover_of self.old).request }
        ensures few { IsFew (mover_of self.new) }
    {
        match self.due() {
            None => self.mover.advance(media, generation),
            Some(kind) => play(&mut self.mover, kind, media, generation),
        }
    }
}

impl BlockDriver for ScriptedDriver {
    ghost use Rattle.modeldisk.specs.Script.{arm_with, counted, due_at, due_of, mover_of, script_of, scripted_arm, scripted_state};
    ghost use Rattle.modeldisk.specs.Script.{sweep_start, FollowsScript};

    ghost state = { scripted_state };

    /// A request that is taken has its sectors moved as the inner driver would, none of them yet.
    fn accept(&mut self, request: BlockRequest) -> Accept
        ensures keeps { AcceptKeeps (scripted_state self.old) request result (scripted_state self.new) }
        ensures driver { IsDriver (scripted_state self.new) }
        ensures order { result ≡ Accept.Taken → left_of (mover_of self.new) ≡ order_in (sweep_start self.old)
            (plan (ranges_of (mover_of self.old).table) request) }
        ensures script { script_of self.new ≡ counted result (script_of self.old) }
        ensures due { result ≡ Accept.Taken → due_of self.new ≡ due_at (script_of self.new) 0 }
        ensures arm { scripted_arm self.new ≡ scripted_arm self.old }
    {
        let from = if self.sweeps { self.mover.arm } else { 0 };
        let accept = self.mover.accept(request, from);
        if accept == Accept::Taken {
            self.taken += 1;
        }
        accept
    }

    fn in_work(&self) -> Option<u32> {
        self.mover.in_work()
    }

    fn ready(&self, minor: u8) -> Option<(u32, u32)> {
        self.mover.ready(minor)
    }

    fn bad(&self) -> u64 {
        self.mover.bad()
    }

    /// Plays the fault that is due, or moves the next sector; the arm stands after a sector that was moved.
    fn step(&mut self, media: &mut Media, generation: u32) -> Step
        ensures keeps { StepKeeps (scripted_state self.old) media.old generation result (scripted_state self.new) media.new }
        ensures driver { IsDriver (scripted_state self.new) }
        ensures fault { FollowsScript (due_of self.old) (mover_of self.old) media.old generation result (mover_of self.new) }
        ensures script { script_of self.new ≡ script_of self.old }
        ensures arm { scripted_arm self.new ≡ arm_with (due_of self.old) (mover_of self.old) media.old generation }
    {
        let stepped = self.advance(media, generation);
        stepped.with_bytes(&self.mover.got)
    }

    /// As `step`, but the bytes of an answer to a read are put where the caller has room.
    #[tactic(auto, using(crate::proofs::HandedLaws::script_bearing))]
    fn step_into(&mut self, media: &mut Media, generation: u32, bytes: &mut [u8; 4096]) -> Stepped
        ensures keeps { StepKeeps (scripted_state self.old) media.old generation (step_with result bytes.new) (scripted_state self.new)
            media.new }
        ensures driver { IsDriver (scripted_state self.new) }
        ensures fault { FollowsScript (due_of self.old) (mover_of self.old) media.old generation (step_with result bytes.new)
            (mover_of self.new) }
        ensures script { script_of self.new ≡ script_of self.old }
        ensures arm { scripted_arm self.new ≡ arm_with (due_of self.old) (mover_of self.old) media.old generation }
    {
        let stepped = self.advance(media, generation);
        self.mover.hand_over(stepped, bytes);
        stepped
    }
}
