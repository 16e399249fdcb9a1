//! A run of a schedule, from an image to its transcript.

ghost use Rattle.std.specs.Prelude.{◌≡◌, ◌<◌, ◌^◌, IfErr, IfOk, length, map};
ghost use Rattle.media.specs.Contents.{IsWhole};
ghost use Rattle.world.specs.Beginning.{IsNotBegun};
ghost use Rattle.transcript.specs.ShownTranscript.{frame_count_of, transcript_of};
ghost use Rattle.world.specs.Occurs.{RunShows};

use crate::link::link_of;
use crate::server::run_over;
use crate::{RunRefusal, prepare_run};
use file_server::FileServer;
use media::Media;
use reincarnate::policy::Setup;
use schedule::Event;
use std::alloc::Global;
use synchronous_driver::local::LocalDriver;
use transcript::Transcript;

/// Media are whole sectors.
fn are_whole(media: &Media)
    ensures { IsWhole media.now.sectors }
{
    let _ = media.sectors();
}

/// A world: drivers, the media under them, and a file server over them, all moved by a schedule.
#[derive(Clone, Copy)]
pub struct World;

impl World {
    /// Runs a schedule of fewer than 2^32 events on an image: checks the volume of the setup's minor, starts the first driver as generation
    /// 1 at tick 0, opens a server on the volume, with as many frames as the setup asks for, and runs the events.
    ///
    /// It is refused where the image makes no media; where there is no such partition; where the volume breaks a rule of the format; where
    /// a number of the setup isn't in its range, or a driver isn't ready for the volume's sectors; and where there is no driver. The first
    /// of these that holds is answered, and nothing was run. Where the image makes media, it may also be refused for want of memory.
    pub fn run<'a, D: LocalDriver>(
        alloc: Global,
        image: &[u8],
        setup: &Setup,
        supply: Vec<D>,
        events: &'a [Event<'a>],
    ) -> Result<Transcript<'a, D>, RunRefusal>
        requires few { length events.now < 2 ^ 32 }
        ensures refused { IfErr result (IsNotBegun image.now setup.now (map D.state supply.items)) }
        ensures shows { IfOk result (λ t. RunShows image.now setup.now (map D.state supply.items) events.now (transcript_of D.state t)) }
        ensures frames { IfOk result (λ t. frame_count_of t ≡ setup.now.frames) }
    {
        let prepared = prepare_run(alloc, image, setup, supply.as_slice())?;
        let clean = prepared.clean;
        let frames = setup.frames as u32;
        let Ok(link) = link_of(alloc, prepared.media, setup, supply, events) else {
            return Err(RunRefusal::OutOfMemory);
        };
        let Ok((server, unanswered)) = run_over(alloc, link, setup.minor, clean, frames) else {
            return Err(RunRefusal::OutOfMemory);
        };
        are_whole(&server.link().stage.drivers.media);
        Ok(Transcript { server, unanswered })
    }
}
