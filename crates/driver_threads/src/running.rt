//! The threads behind a link, from their start to their end.

ghost use Rattle.std.specs.Prelude.{◌≡◌, ◌+◌, ◌/◌, [], IfOk, IfSome, length};
ghost use Rattle.std.specs.Arc.{arc_value};
ghost use Rattle.records.specs.Opening.{Opening};
ghost use Rattle.true_replies.specs.Events.{opening_media};
ghost use Rattle.changes.specs.Units.{puts_of};
ghost use Rattle.shared_media.specs.Confined.{IsImageOutside, KeepsBut, KeepsOutside};
ghost use Rattle.shared_media.specs.Marking.{AreChangesOutside};
ghost use Rattle.driver_threads.specs.Watched.{IsNumbered, IsThere, known_sectors};

use crate::alone::once_alone;
use crate::shared::Shared;
use crate::supervisor::{Lines, Supervisor, Worker, start_supervisor};
use crate::watch::Likeness;
use crate::witness::Witness;
use bdev::BlockDriver;
use board::counting::parameters::ServiceParameters;
use board::{Board, Seat};
use changes::{Changes, Marks};
use channel_link::channel::bounded;
use channel_link::link::ChannelLink;
use channel_link::messages::Report;
use channel_link::server_line::open_line;
use gate::Gate;
use gate::bell::Bell;
use media::Media;
use message::endpoint::{DISK_DRIVER, Endpoint};
use reincarnate::Reincarnation;
use reissue::link::Link;
use shared_media::confined::Confined;
use std::alloc::{AllocError, Global};
use std::sync::{Arc, Mutex, MutexGuard, Wait};
use std::thread::{JoinHandle, Threads};

/// How many messages the lines of the server and of the reincarnation server hold (own).
const LINE: usize = 64;

/// The endpoint of the driver that is started first.
const FIRST: Endpoint = Endpoint {
    slot: DISK_DRIVER,
    generation: 1,
};

/// The media that drivers share, as a thread has them that takes their changes while the drivers run. The media are given back, when the
/// threads are stopped, once each of these was let go.
#[derive(Drop)]
pub struct MediaHandle<N: ServiceParameters> {
    media: Arc<Mutex<Confined<N>>>,
    // Each handle of these media has this, and no driver.
    handles: Arc<()>,
}

impl<N: ServiceParameters> MediaHandle<N> {
    /// Takes the changes of the media since they were last taken, since the start at first: the units of 4096 bytes that drivers may have
    /// written since, in ascending order, with their bytes as they stand while the threads run. They are units of an image as `image` gives
    /// one. It waits for the step of a driver, and drivers wait for it, while these units alone are copied. Refused where no memory was
    /// found for them: the next call takes them.
    pub fn changes<R: Wait>(&self, rt: &R, alloc: Global) -> Result<Changes, AllocError>
        ensures { IfOk result (λ changes. AreChangesOutside N.opening (puts_of changes)) }
    {
        let mut media = self.media.lock(rt);
        (&mut *media).take_changes(alloc)
    }

    /// The media, once no other thread has them: drivers wait until the guard is let go.
    pub fn lock<R: Wait>(&self, rt: &R) -> MutexGuard<'_, Confined<N>> {
        self.media.lock(rt)
    }

    /// Says that changes which were taken were not kept: the next call of `changes` takes their units again.
    pub fn mark_again<R: Wait>(&self, rt: &R, changes: &Changes) {
        let mut media = self.media.lock(rt);
        (&mut *media).mark_again(changes);
    }

    /// A further handle of the same media. Refused where no memory was found.
    pub fn another(&self) -> Result<MediaHandle<N>, AllocError> {
        Ok(MediaHandle {
            media: Arc::try_clone(&self.media)?,
            handles: Arc::try_clone(&self.handles)?,
        })
    }
}

/// The thread of the first driver, that of the reincarnation server, which has those of the other drivers, and the media that they share.
/// Where it is let go and not stopped, all its threads are told to end, and end by themselves.
pub struct Running<N: ServiceParameters> {
    supervisor: JoinHandle<()>,
    first: Worker,
    media: MediaHandle<N>,
    ending: Arc<Bell>,
    // What knows the media as they stood at a moment, once they were looked at.
    pub(crate) witness: Witness<N>,
}

impl<N: ServiceParameters> Drop for Running<N> {
    fn drop(self) {
        let Self {
            supervisor: _,
            first: _,
            media: _,
            ending,
            witness: _,
        } = self;
        ending.ring();
    }
}

/// The link of a file server, and the ends of its channels that the reincarnation server has.
fn open_lines<R: Threads + Wait + Copy>(
    alloc: Global,
    rt: R,
) -> Result<(ChannelLink<R>, Lines), AllocError>
    ensures history { IfOk result (λ r. ⟦<ChannelLink<R> as Link>⟧.history r.0 ≡ []) }
    ensures budget { IfOk result (λ r. ⟦<ChannelLink<R> as Link>⟧.budget_left r.0 ≡ 1099511627776) }
    ensures truth { IfOk result (λ r. (v : Opening) → ⟦<ChannelLink<R> as Link>⟧.truth r.0 v []) }
{
    let nobody = Endpoint {
        slot: DISK_DRIVER,
        generation: 0,
    };
    let (news, line) = open_line(alloc, LINE, nobody)?;
    let (mut reports, heard) = bounded::<Report>(alloc, LINE)?;
    let report_end = reports.another()?;
    let link = ChannelLink::new(alloc, rt, line, reports)?;
    Ok((
        link,
        Lines {
            heard,
            report_end,
            news,
        },
    ))
}

/// Starts the reincarnation server on these media, and makes the link to the drivers that it will start, which write in this range of the
/// media alone: a first sector, and how many there are. The first driver's thread is made too, and waits for its driver. Where no memory or
/// no thread was found, all is let go. (Where none is found for a later driver, that is a fault of it, by the policy.)
///
/// The seat is one of the board's without a number. No driver is started before the gate lets the first tick pass.
pub fn start_drivers<
    N: ServiceParameters + Send + Sync + 'static,
    D: BlockDriver + 'static,
    G: Gate + 'static,
    R: Threads + Wait + Copy + Send + 'static,
>(
    alloc: Global,
    rt: R,
    media: Media,
    range: (u32, u32),
    reincarnation: Reincarnation<D>,
    board: &Arc<Board>,
    seat: Seat,
    gate: Arc<G>,
) -> Result<(ChannelLink<R>, Running<N>), AllocError>
    requires range { (range.0 ≡ N.opening.first) × (range.1 ≡ N.opening.count) }
    requires media { media ≡ opening_media N.opening }
    requires board { arc_value board.now ≡ N.table }
    requires seat { seat.table ≡ arc_value board.now }
    ensures history { IfOk result (λ r. ⟦<ChannelLink<R> as Link>⟧.history r.0 ≡ []) }
    ensures budget { IfOk result (λ r. ⟦<ChannelLink<R> as Link>⟧.budget_left r.0 ≡ 1099511627776) }
    ensures truth { IfOk result (λ r. (v : Opening) → ⟦<ChannelLink<R> as Link>⟧.truth r.0 v []) }
{
    let mut seat = seat;
    let witness = Witness::new(Arc::try_clone(board)?, board.split(&mut seat, None)?);
    let shared = Shared::new(alloc, media, range, board, gate)?;
    let media = MediaHandle {
        media: Arc::try_clone(&shared.media)?,
        handles: Arc::new(alloc, ())?,
    };
    let ending = Arc::try_clone(&shared.ending)?;
    let (link, lines) = open_lines(alloc, rt)?;
    let mut supervisor = Supervisor::new(alloc, reincarnation, lines, shared, seat);
    let first = supervisor.make_ready(&rt, FIRST)?;
    let supervisor = start_supervisor(&rt, supervisor).ok_or(AllocError)?;
    Ok((
        link,
        Running {
            supervisor,
            first,
            media,
            ending,
            witness,
        },
    ))
}

impl<N: ServiceParameters> Running<N> {
    /// The image of the media as they stand while the threads run: the bytes of as many sectors as were handed in, each of 512 bytes, and
    /// outside of the volume's range each as it was handed in. It waits for the step of a driver, and drivers wait for it: no step is taken
    /// while the bytes are copied. Refused where no memory was found for it.
    pub fn image<R: Wait>(&self, rt: &R, alloc: Global) -> Result<Vec<u8>, AllocError>
        ensures { IfOk result (λ image. IsImageOutside N.opening image.items) }
    {
        let media = self.media.media.lock(rt);
        (&*media).image(alloc)
    }

    /// The volume's range of the media: its first sector, and how many it has. It waits for the step of a driver.
    pub fn range<R: Wait>(&self, rt: &R) -> (u32, u32)
        ensures { (result.0 ≡ N.opening.first) × (result.1 ≡ N.opening.count) }
    {
        let media = self.media.media.lock(rt);
        (&*media).range()
    }

    /// The media, of which other threads may have handles.
    pub fn media(&self) -> &MediaHandle<N> {
        &self.media
    }

    /// Whether a `MediaHandle` is left beside this one's own.
    pub fn is_shared(&self) -> bool {
        Arc::strong_count(&self.media.handles) > 1
    }

    /// Gives the media, as they stand, a number, by which they are known from now on. None where they get none. It waits for the step of a
    /// driver.
    pub(crate) fn publish<R: Wait>(&mut self, rt: &R) -> Option<u64>
        ensures { IfSome result (λ n. IsNumbered self.new.witness.seat.view.edition n) }
    {
        let mut media = self.media.media.lock(rt);
        self.witness.publish(&mut *media)
    }

    /// How bytes are beside those that the volume's range of what is known by this number has from this byte on: Unsure where the media
    /// aren't that any more, or the bytes don't lie within the range or the media. It waits for the step of a driver.
    pub(crate) fn beside<R: Wait>(
        &mut self,
        rt: &R,
        number: u64,
        start: u64,
        bytes: &[u8],
    ) -> Likeness
        requires { IsNumbered self.old.witness.seat.view.edition number }
        ensures stays { self.new.witness.seat.view.edition ≡ self.old.witness.seat.view.edition }
        ensures same { result ≡ Likeness.Same → IsThere N.opening (known_sectors self.old.witness.seat.view.edition) start bytes.now }
        ensures differs { result ≡ Likeness.Differs
            → IsThere N.opening (known_sectors self.old.witness.seat.view.edition) start bytes.now → ⊥ }
    {
        let mut media = self.media.media.lock(rt);
        self.witness.beside(&mut *media, number, start, bytes)
    }

    /// Ends all drivers, joins all threads, and gives the media, and which units of eight sectors of the volume's range, from its first
    /// sector on, drivers may have written: each other sector is as it was handed in, and there are as many. The link has to be let go of
    /// before, since else a driver may wait for room in it.
    ///
    /// It waits until each `MediaHandle` was let go (`is_shared`).
    pub fn stop<R: Threads + Wait>(self, rt: &R) -> (Media, Marks)
        ensures kept { KeepsBut N.opening result.1 result.0 }
        ensures outside { KeepsOutside N.opening result.0 }
        ensures units { length result.1 ≡ (N.opening.count + 7) / 8 }
    {
        let (confined, _) = self.end(rt);
        confined.into_media()
    }

    /// Ends all drivers, and joins all threads, as `stop`: the media, and what knows them as they stood.
    pub(crate) fn end<R: Threads + Wait>(self, rt: &R) -> (Confined<N>, Witness<N>)
        ensures { result.1 ≡ self.witness }
    {
        let Running {
            supervisor,
            first,
            media,
            ending,
            witness,
        } = self;
        ending.ring();
        supervisor.join(rt);
        first.end(rt);
        let MediaHandle { media, handles: _ } = media;
        (once_alone(rt, media).into_inner(), witness)
    }
}
