//! The drivers that a schedule moves, and what is done at them between two calls.

ghost use Rattle.std.specs.Prelude.{◌≡◌, ◌<◌, ◌≤◌, ◌^◌, ◌∷◌, [], All, IfOk, length, map, true, false};
ghost use Rattle.records.specs.Marks.{Started};
ghost use Rattle.records.specs.Opening.{Opening};
ghost use Rattle.reincarnate.specs.Watch.{driver, new_watch};
ghost use Rattle.true_replies.specs.Events.{IsOnMedia, opening_media};
ghost use Rattle.synchronous_driver.specs.Inline.{IsReady};

use crate::events::stage::Stage;
use media::Media;
use message::Incoming;
use message::endpoint::{DISK_DRIVER, Endpoint};
use reincarnate::Reincarnation;
use schedule::{Arrived, Event, Log};
use std::alloc::{AllocError, Global};
use std::collections::VecDeque;
use synchronous_driver::local::LocalDriver;

/// The link: it runs the events of a schedule until one brings a message.
#[derive(Drop)]
pub struct RunLink<'a, D> {
    pub stage: Stage<D>,
    pub log: Log<'a>,
    pub events: &'a [Event<'a>],
    /// The number of the next event.
    pub next: usize,
    /// The calls that arrived and weren't begun, the first one first.
    pub queue: VecDeque<Arrived<'a>>,
    pub alloc: Global,
    /// A complaint gave the device up, and that wasn't told yet.
    pub owed: bool,
    /// That the device was given up was told.
    pub told: bool,
    /// Memory was wanted: the link ended, or refused what it was asked, before all may have been done.
    pub starved: bool,
    pub ghost within: { next ≤ length events.now },
    pub ghost few: { length events.now < 2 ^ 32 },
    pub ghost once: { told ≡ true → owed ≡ false },
    pub ghost ticks: { stage.tick ≤ next },
}

impl<'a, D: LocalDriver> RunLink<'a, D> {
    ghost use Rattle.schedule.specs.LogView.{said, room_in};
    ghost use Rattle.simulated_link.specs.StageView.{scene_of};
    ghost use Rattle.simulated_link.specs.StateView.{run_of, RunTruth, IsOpened};

    /// A run of this schedule before its first event: on these media the first driver of the reincarnation server, which was told nothing
    /// yet, is started as generation 1, at tick 0, and the server is to be handed its start. An error: no memory was found.
    ///
    /// What it guarantees holds where the media are those that were handed in, and each driver is ready for the volume's range.
    pub fn new(
        alloc: Global,
        media: Media,
        reincarnation: Reincarnation<D>,
        events: &'a [Event<'a>],
    ) -> Result<RunLink<'a, D>, AllocError>
        requires media { media.generation ≡ 0 }
        requires untold { reincarnation.watch ≡ new_watch (length reincarnation.supply) }
        requires few { length events.now < 2 ^ 32 }
        ensures opens { IfOk result (λ p. IsOpened media reincarnation.policy reincarnation.watch (map D.state reincarnation.supply)
            events.now (run_of D.state p)) }
        ensures truth { IfOk result (λ p. (v : Opening) → IsOnMedia v → media ≡ opening_media v
            → All (IsReady v) (map D.state reincarnation.supply)
            → RunTruth v (scene_of D.state p.stage (said p.log)) (Started (driver 1) ∷ [])) }
        ensures room { IfOk result (λ p. 33 ≤ room_in p.log) }
    {
        let mut log = Log::new(alloc)?;
        let first = Endpoint {
            slot: DISK_DRIVER,
            generation: 1,
        };
        log.note_handed(&Incoming::Started(first));
        Ok(RunLink {
            stage: Stage::new(alloc, media, reincarnation)?,
            log,
            events,
            next: 0,
            queue: VecDeque::new(alloc),
            alloc,
            owed: false,
            told: false,
            starved: false,
        })
    }
}
