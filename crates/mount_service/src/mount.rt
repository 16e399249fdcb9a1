//! Mounting the volume of an image: messages are answered until their stream ends, and the image is left.

ghost use Rattle.std.specs.Prelude.{◌≡◌, IfErr, IfNone, IfOk, IfSome, map};
ghost use Rattle.mount_service.specs.Mounted.{IsMounted, IsRefused, IsStatus, IsUnmounted, status_number};

use crate::program::{Came, LastSync, Streams};
use crate::starting::answer_messages;
use archive::Archive;
use bdev::BlockDriver;
use gate::Gate;
use message_stream::answering::StreamRefusal;
use output::{Told, tell};
use reincarnate::policy::Setup;
use serve::stopping::NoImage;
use service_start::volume_mount::StartRefusal;
use std::alloc::Global;
use std::fmt;
use std::io::{BufRead, Write};
use std::sync::{Arc, Wait};
use std::thread::Threads;
use std::time::Clock;
use talks::answers::Answers;

/// How a mount ended.
#[derive(Clone, Copy, Debug, PartialEq, Eq)]
pub enum MountStatus {
    /// All messages were answered.
    Done,
    /// No message was answered, or not all were, or no image is left. A line was to say why.
    Refused(Told),
    /// As `Done`, and the device was given up. A line was to say so.
    GivenUp,
    /// As `Done`, and the last sync was cut, since the link to the drivers had ended. A line was to say so.
    Cut,
    /// As `Done`, and what was read back through the drivers isn't what the image has, or it wasn't read back. No line says so yet.
    NotAsRead,
}

impl MountStatus {
    /// The status of the process: 0, 1 or 3.
    pub fn number(self) -> u8
        ensures { result ≡ status_number self }
    {
        match self {
            MountStatus::Done => 0,
            MountStatus::Refused(_) => 1,
            MountStatus::GivenUp | MountStatus::Cut => 3,
            MountStatus::NotAsRead => 1,
        }
    }
}

/// What came of a mount.
#[derive(Drop)]
pub struct Ended<I, O, C, A, W> {
    /// How it ended.
    pub status: MountStatus,
    /// What the service left, also where not all messages were answered; none where no service started, or it left no image.
    pub came: Option<Came<I, O, C, A, W>>,
}

/// Why a volume isn't mounted, or what ended it.
#[derive(Clone, Copy)]
pub enum MountRefusal<'n> {
    /// The file of this name can't be read.
    CannotRead(&'n str),
    /// No service starts on the image.
    Start(StartRefusal),
    /// The service left no image.
    NoImage(NoImage),
    /// Messages were answered no further.
    Stream(StreamRefusal),
    /// The device was given up.
    GivenUp,
    /// The last sync was cut, since the link to the drivers had ended.
    Cut,
}

impl fmt::Display for MountRefusal<'_> {
    fn fmt<W: fmt::Write>(&self, f: &mut fmt::Formatter<W>) -> fmt::Result {
        match self {
            MountRefusal::CannotRead(name) => write!(f, "cannot read {name}"),
            MountRefusal::Start(refusal) => write!(f, "{refusal}"),
            MountRefusal::NoImage(why) => write!(f, "{why}"),
            MountRefusal::Stream(refusal) => write!(f, "{refusal}"),
            MountRefusal::GivenUp => f.write_str("given up"),
            MountRefusal::Cut => f.write_str("cut"),
        }
    }
}

/// Starts a service on the volume of an image, whose threads ask this gate, answers messages by its sessions until their stream ends, and
/// stops it. The image's bytes are none where its file of this name couldn't be read; they become the media.
///
/// Where no service starts, where messages are answered no further, where the device was given up, where the last sync was cut, or where no
/// image is left, a line on `err` says so. But in the first case and the last the image is left all the same. Of an image that isn't as it
/// was read back no line speaks yet.
pub fn mount<
    R: Threads + Wait + Copy + Send + Sync + 'static,
    D: BlockDriver + 'static,
    G: Gate + 'static,
    I: BufRead + Drop,
    O: Write + Drop,
    C: Clock + Drop,
    A: Archive + Drop + Send + 'static,
    W: Answers + Drop,
    E: Write,
>(
    alloc: Global,
    rt: R,
    name: &str,
    image: Option<Vec<u8>>,
    setup: &Setup,
    supply: Vec<D>,
    gate: Arc<G>,
    streams: Streams<I, O, C, A, W>,
    err: &mut E,
) -> Ended<I, O, C, A, W>
    ensures mounted { IfSome result.came (λ came. IsMounted A.puts W.fewest W.answers streams.answerer image setup.now
        (map D.state supply.items) (I.Read.remaining streams.input) (O.contents streams.output) (O.contents came.streams.output)
        streams.archive came.streams.archive came.answered came.last_sync came.image.items) }
    ensures status { IfSome result.came (λ came. IsStatus came.answered came.last_sync result.status) }
    ensures unmounted { IfNone result.came ((refusal : MountRefusal)
        × IsUnmounted image name.entry setup.now (map D.state supply.items) refusal) }
    ensures refused { IfNone result.came (IsRefused result.status) }
{
    match run(alloc, rt, name, image, setup, supply, gate, streams) {
        Ok(came) => Ended {
            status: shown(alloc, came.answered, came.last_sync, err),
            came: Some(came),
        },
        Err(refusal) => Ended {
            status: MountStatus::Refused(tell(alloc, err, &refusal)),
            came: None,
        },
    }
}

/// Starts, answers and stops.
fn run<
    'n,
    R: Threads + Wait + Copy + Send + Sync + 'static,
    D: BlockDriver + 'static,
    G: Gate + 'static,
    I: BufRead + Drop,
    O: Write + Drop,
    C: Clock + Drop,
    A: Archive + Drop + Send + 'static,
    W: Answers + Drop,
>(
    alloc: Global,
    rt: R,
    name: &'n str,
    image: Option<Vec<u8>>,
    setup: &Setup,
    supply: Vec<D>,
    gate: Arc<G>,
    streams: Streams<I, O, C, A, W>,
) -> Result<Came<I, O, C, A, W>, MountRefusal<'n>>
    ensures mounted { IfOk result (λ came. IsMounted A.puts W.fewest W.answers streams.answerer image setup.now
        (map D.state supply.items) (I.Read.remaining streams.input) (O.contents streams.output) (O.contents came.streams.output)
        streams.archive came.streams.archive came.answered came.last_sync came.image.items) }
    ensures unmounted { IfErr result (IsUnmounted image name.entry setup.now (map D.state supply.items)) }
{
    let Some(bytes) = image else {
        return Err(MountRefusal::CannotRead(name));
    };
    match answer_messages(alloc, rt, bytes, setup, supply, gate, streams) {
        Ok(Ok(came)) => Ok(came),
        Ok(Err(refusal)) => Err(MountRefusal::NoImage(refusal)),
        Err(refusal) => Err(MountRefusal::Start(refusal)),
    }
}

/// How a mount ended whose service left an image; where not all went well, a line says so, but not of an image that isn't as it was read.
fn shown<E: Write>(
    alloc: Global,
    answered: Result<(), StreamRefusal>,
    last_sync: LastSync,
    err: &mut E,
) -> MountStatus
    ensures { IsStatus answered last_sync result }
{
    if let Err(refusal) = answered {
        return MountStatus::Refused(tell(alloc, err, &MountRefusal::Stream(refusal)));
    }
    match last_sync {
        LastSync::Done => MountStatus::Done,
        LastSync::GivenUp => {
            tell(alloc, err, &MountRefusal::GivenUp);
            MountStatus::GivenUp
        }
        LastSync::Cut => {
            tell(alloc, err, &MountRefusal::Cut);
            MountStatus::Cut
        }
        LastSync::NotAsRead | LastSync::NotRead => MountStatus::NotAsRead,
    }
}
