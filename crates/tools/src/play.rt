//! Playing scripts against a server of their own, from the bytes of their files to the lines of their answers and the image that is left.

ghost use Rattle.std.specs.Prelude.{◌≡◌, true, IfOk, IfErr, IfSome, OnOk, OnErr, map, Some, None};
ghost use Rattle.std.specs.Io.KnownBytes.{Appends};
ghost use Rattle.reply_text.specs.Answers.{sessions_text};
ghost use Rattle.output.specs.Output.{AppendsPart, Tells};
ghost use Rattle.tools.specs.Played.{AreUnread, IsPlayed, IsUnplayed, IsShown, IsCutShort, gave_up, is_of_output, refusal_text, status_by};
ghost use Rattle.tools.specs.Refusals.{refusal_of};
ghost use Rattle.tools.specs.Status.{status_number, is_given_up, status_when, IsWhole};
ghost use Rattle.call_text.specs.Said.{said};
ghost use Rattle.call_text.specs.Files.{AreScripts};

use crate::scripts::turns::has_eio;
use crate::scripts::{Came, ServiceRefusal, play_scripts};
use bdev::BlockDriver;
use call_text::scripts::script::Script;
use call_text::scripts::script_files::{File, FileRefusal, read_scripts};
use gate::Gate;
use output::{OutputRefusal, Told, tell, write_text};
use reincarnate::policy::Setup;
use reply_text::answers::{Played, write_sessions};
use serve::stopping::is_as_read;
use service_start::volume_mount::StartRefusal;
use std::alloc::Global;
use std::fmt;
use std::io::Write;
use std::sync::{Arc, Wait};
use std::thread::Threads;

// passed on, for who hands an image on
pub use shared_server::locked::LastSync;

/// The file of an image, and its bytes if it could be read.
#[derive(Drop)]
pub struct ImageFile<'n> {
    /// The name as it was given.
    pub name: &'n str,
    /// All its bytes; none where it couldn't be read.
    pub bytes: Option<Vec<u8>>,
}

/// How a play ended.
#[derive(Clone, Copy, Debug, PartialEq, Eq)]
pub enum PlayStatus {
    /// Each call was made, and all of the text was written.
    Done,
    /// Nothing was written of what came of the scripts, or not all. A line was to say why.
    Refused(Told),
    /// As `Done`, and the device was given up.
    GivenUp,
    /// As `Done`, and what was read back through the drivers isn't what the image has, or it wasn't read back. No line says so yet.
    NotAsRead,
}

impl PlayStatus {
    /// The status of the process: 0, 1 or 3.
    pub fn number(self) -> u8
        ensures { result ≡ status_number self }
    {
        match self {
            PlayStatus::Done => 0,
            PlayStatus::Refused(_) => 1,
            PlayStatus::GivenUp => 3,
            PlayStatus::NotAsRead => 1,
        }
    }
}

/// The image that a play left.
#[derive(Debug, PartialEq, Eq, Drop)]
pub struct ImageLeft {
    /// How the last sync went.
    pub last_sync: LastSync,
    /// Its bytes, as the media stand after the last sync.
    pub bytes: Vec<u8>,
}

/// What came of a play.
#[derive(Debug, PartialEq, Eq, Drop)]
pub struct Ended {
    /// How it ended.
    pub status: PlayStatus,
    /// The image, also where not all of the text was written; none where nothing is told of what came of the scripts.
    pub image: Option<ImageLeft>,
}

/// Why nothing is told of what came of scripts, or not all of their answers were written.
#[derive(Clone, Copy)]
pub enum PlayRefusal<'n> {
    /// The image can't be read, or the files of the scripts give no scripts.
    Files(FileRefusal<'n>),
    /// No service starts on this image.
    Start(StartRefusal),
    /// The service started, and gives no answers or no image. Calls may have been made.
    Service(ServiceRefusal),
    /// No memory was found for the text of an answer.
    OutOfMemory,
    /// Standard output refused bytes; those before them went out.
    NotWritten,
}

impl fmt::Display for PlayRefusal<'_> {
    ghost output = { λ r. Some (refusal_text r) };

    fn fmt<W: fmt::Write>(&self, f: &mut fmt::Formatter<W>) -> fmt::Result {
        match self {
            PlayRefusal::Files(refusal) => write!(f, "{refusal}"),
            PlayRefusal::Start(refusal) => write!(f, "{refusal}"),
            PlayRefusal::Service(refusal) => write!(f, "{refusal}"),
            PlayRefusal::OutOfMemory => f.write_str("OutOfMemory"),
            PlayRefusal::NotWritten => f.write_str("cannot write standard output"),
        }
    }
}

/// Plays scripts at one time, each in a session and a thread of its own, on a service on the volume in an image, whose threads ask this
/// gate; stops the service, and writes the answers on `out`, in the order of the scripts: for each script a line with its session's number,
/// as `session 0`, and then a line for each call. The image's bytes become the media, and these the image that is left.
///
/// Faults are looked for in this order: reading the image, reading the scripts in their order, their lines file by file, more than 64
/// scripts, the start of the service, its sessions, the image. For the first of them a line goes to `err`, nothing goes out, and no image
/// is left. Where the answers can't be written, a line goes to `err` too, and the image is there all the same. The status says how that
/// line went out.
pub fn play<
    R: Threads + Wait + Copy + Send + Sync + 'static,
    D: BlockDriver + 'static,
    G: Gate + 'static,
    W: Write,
    E: Write,
>(
    alloc: Global,
    rt: R,
    image: ImageFile<'_>,
    scripts: &[File<'_, '_>],
    setup: &Setup,
    supply: Vec<D>,
    gate: Arc<G>,
    out: &mut W,
    err: &mut E,
) -> Ended
    ensures whole { IsWhole result.status → IsShown image.entry scripts.now setup.now (map D.state supply.items) result.status
        (Appends (W.contents out.old) (W.contents out.new)) result.image × (err.new ≡ err.old) }
    ensures refused { (told : Told) → result.status ≡ PlayStatus.Refused told → (refusal : PlayRefusal)
        × Tells (Some (refusal_text refusal)) told (E.contents err.old) (E.contents err.new)
        × IsCutShort image.entry scripts.now setup.now (map D.state supply.items) refusal (out.new ≡ out.old)
        (AppendsPart (W.contents out.old) (W.contents out.new)) result.image }
{
    let came = match run(alloc, rt, image, scripts, setup, supply, gate) {
        Ok(came) => came,
        Err(refusal) => {
            return Ended {
                status: PlayStatus::Refused(tell(alloc, err, &refusal)),
                image: None,
            };
        }
    };
    let status = show(alloc, &came, out, err);
    Ended {
        status,
        image: Some(ImageLeft {
            last_sync: came.last_sync,
            bytes: came.image,
        }),
    }
}

/// Reads, starts, plays and stops, in this order.
fn run<
    'n,
    R: Threads + Wait + Copy + Send + Sync + 'static,
    D: BlockDriver + 'static,
    G: Gate + 'static,
>(
    alloc: Global,
    rt: R,
    image: ImageFile<'n>,
    scripts: &[File<'n, '_>],
    setup: &Setup,
    supply: Vec<D>,
    gate: Arc<G>,
) -> Result<Came, PlayRefusal<'n>>
    ensures played { IfOk result (λ came. IsPlayed image.entry scripts.now setup.now (map D.state supply.items) came.sessions.items
        came.last_sync came.image.items) }
    ensures unplayed { IfErr result (IsUnplayed image.entry scripts.now setup.now (map D.state supply.items)) }
{
    let (image, scripts) = match read(alloc, image, scripts) {
        Ok(read) => read,
        Err(refusal) => return Err(PlayRefusal::Files(refusal)),
    };
    match play_scripts(alloc, rt, image, scripts, setup, supply, gate) {
        Ok(Ok(came)) => Ok(came),
        Ok(Err(refusal)) => Err(PlayRefusal::Service(refusal)),
        Err(refusal) => Err(PlayRefusal::Start(refusal)),
    }
}

/// The bytes of the image, and the scripts that the files hold.
fn read<'n, 'b>(
    alloc: Global,
    image: ImageFile<'n>,
    scripts: &[File<'n, 'b>],
) -> Result<(Vec<u8>, Vec<Script<'b>>), FileRefusal<'n>>
    ensures ok { IfOk result (λ read. (image.entry.bytes ≡ Some read.0) × AreScripts scripts.now (map said read.1.items)) }
    ensures err { IfErr result (AreUnread image.entry.bytes image.entry.name scripts.now) }
{
    let ImageFile { name, bytes } = image;
    let Some(bytes) = bytes else {
        return Err(FileRefusal::CannotRead(name));
    };
    match read_scripts(alloc, scripts) {
        Ok(scripts) => Ok((bytes, scripts)),
        Err(refusal) => Err(refusal),
    }
}

/// Writes the answers. How the play ended.
fn show<W: Write, E: Write>(alloc: Global, came: &Came, out: &mut W, err: &mut E) -> PlayStatus
    ensures whole { IsWhole result → (result ≡ status_by came.now.sessions.items came.now.last_sync)
        × Appends (W.contents out.old) (W.contents out.new) (sessions_text came.now.sessions.items) × (err.new ≡ err.old) }
    ensures refused { (told : Told) → result ≡ PlayStatus.Refused told → (refusal : PlayRefusal)
        × Tells (Some (refusal_text refusal)) told (E.contents err.old) (E.contents err.new) × (is_of_output refusal ≡ true)
        × AppendsPart (W.contents out.old) (W.contents out.new) (sessions_text came.now.sessions.items) }
{
    match write_answers(alloc, out, came.sessions.as_slice()) {
        Ok(()) => status_of(is_as_read(came.last_sync), was_given_up(came)),
        Err(refusal) => PlayStatus::Refused(tell(alloc, err, &told_as(refusal))),
    }
}

/// Writes the answers at once where there is memory for their text, else line by line.
fn write_answers<W: Write>(
    alloc: Global,
    out: &mut W,
    sessions: &[Played],
) -> Result<(), OutputRefusal>
    ensures ok { OnOk result (Appends (W.contents out.old) (W.contents out.new) (sessions_text sessions.now)) }
    ensures err { OnErr result (AppendsPart (W.contents out.old) (W.contents out.new) (sessions_text sessions.now)) }
{
    match text_of(alloc, sessions) {
        Some(text) => write_text(out, text.as_slice()),
        None => write_sessions(alloc, out, sessions),
    }
}

/// The text of the answers; none where there is no memory for it.
fn text_of(alloc: Global, sessions: &[Played]) -> Option<Vec<u8>>
    ensures { IfSome result (λ text. text.items ≡ sessions_text sessions.now) }
{
    let mut text = Vec::new(alloc);
    match write_sessions(alloc, &mut text, sessions) {
        Ok(()) => Some(text),
        Err(_) => None,
    }
}

/// Whether the device was given up: a call was answered EIO, or the last sync was.
fn was_given_up(came: &Came) -> bool
    ensures { result ≡ gave_up came.now.sessions.items came.now.last_sync }
{
    has_eio(came.sessions.as_slice()) || is_giving_up(came.last_sync)
}

/// Whether a last sync says that the device was given up.
fn is_giving_up(last: LastSync) -> bool
    ensures { result ≡ is_given_up last }
{
    matches!(last, LastSync::GivenUp)
}

/// Why a text wasn't written, as a refusal of a play.
fn told_as<'n>(refusal: OutputRefusal) -> PlayRefusal<'n>
    ensures refusal { result ≡ refusal_of refusal }
    ensures of_output { is_of_output result ≡ true }
{
    match refusal {
        OutputRefusal::OutOfMemory => PlayRefusal::OutOfMemory,
        OutputRefusal::NotWritten => PlayRefusal::NotWritten,
    }
}

/// The status of a play that was written whole.
fn status_of(as_read: bool, given_up: bool) -> PlayStatus
    ensures { result ≡ status_when as_read given_up }
{
    match (as_read, given_up) {
        (false, _) => PlayStatus::NotAsRead,
        (true, true) => PlayStatus::GivenUp,
        (true, false) => PlayStatus::Done,
    }
}
