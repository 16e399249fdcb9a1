//! Plays over images.

ghost use Rattle.std.specs.Prelude.{◌≡◌, ◌↔◌, IsOk, is_some, not, ◌==◌};

use bdev::BlockDriver;
use call_text::scripts::script_files::File;
use fixtures::gates::Ticking;
use fixtures::{patient, supply_at};
use fsck::{Verdict, check};
use gate::Gate;
use modeldisk::FaultKind;
use reincarnate::policy::Setup;
use std::alloc::{AllocError, Global};
use std::io::{self, Write};
use std::sync::{Arc, Wait};
use std::test::Fail;
use std::thread::Threads;
use std::time::Clock;
use tools::play::{ImageFile, PlayStatus, play};

/// Drivers, each with its fault once so many of a request's sectors were moved, or with none.
pub type Faults<'f> = &'f [Option<(u32, FaultKind)>];

/// How long a short tick is, in milliseconds.
const PACE: u64 = 100;

/// One driver without a fault.
pub const HONEST: Faults<'static> = &[None];

/// What a play gave.
#[derive(Drop)]
pub struct Played {
    /// The status of the process.
    pub status: u8,
    /// What stands on standard output.
    pub out: Vec<u8>,
    /// What stands on standard error.
    pub err: Vec<u8>,
    /// The image that is left, if one is.
    pub image: Option<Vec<u8>>,
}

impl Played {
    /// Looks at what a play gave, which is an error where it is something else: the image is there exactly where nothing was refused.
    pub fn gave(&self, status: u8, out: &str, err: &str) -> Result<(), Fail>
        ensures { IsOk result ↔ ((self.now.status ≡ status) × (self.now.out.items ≡ out.now) × (self.now.err.items ≡ err.now)
            × (is_some self.now.image ≡ not (status == 1))) }
    {
        let is_told = self.out.as_slice() == out.as_bytes()
            && self.err.as_slice() == err.as_bytes();
        if is_told && self.status == status && self.image.is_some() == (status != 1) {
            return Ok(());
        }
        let out = str::from_utf8(self.out.as_slice()).unwrap_or("no text");
        let err = str::from_utf8(self.err.as_slice()).unwrap_or("no text");
        Err(Fail::new(format_args!("status {}, {err}, {out}", self.status)))
    }

    /// Nothing was played yet, on this image.
    fn before(alloc: Global, image: Option<&[u8]>) -> Result<Played, AllocError> {
        let mut bytes = Vec::new(alloc);
        bytes.extend_from_slice(image.unwrap_or(&[]))?;
        Ok(Played {
            status: 0,
            out: Vec::new(alloc),
            err: Vec::new(alloc),
            image: Some(bytes),
        })
    }

    /// A play of one script was made after these, whose session gets this number.
    fn go_on(&mut self, number: usize, played: Played) -> Result<(), AllocError> {
        let Played {
            status,
            out,
            err,
            image,
        } = played;
        let replies = out.as_slice().strip_prefix(b"session 0\n".as_slice());
        let _ = write!(self.out, "session {number}\n");
        self.out
            .extend_from_slice(replies.unwrap_or(out.as_slice()))?;
        self.err.extend_from_slice(err.as_slice())?;
        self.status = self.status.max(status);
        self.image = image;
        Ok(())
    }

    /// The image, or no bytes.
    pub fn left(&self) -> &[u8] {
        self.image.as_deref().unwrap_or(&[])
    }

    /// Whether the image is that of a sound volume.
    pub fn is_clean(&self, alloc: Global) -> bool {
        matches!(check(alloc, self.left()), Ok(Verdict::Clean(_)))
    }
}

/// The names of the scripts' files, in their order; further ones have the last.
const NAMES: [&str; 4] = ["s.txt", "t.txt", "u.txt", "w.txt"];

/// Files of scripts.
fn files<'b>(
    alloc: Global,
    scripts: &[Option<&'b [u8]>],
) -> Result<Vec<File<'static, 'b>>, AllocError> {
    let mut files = Vec::with_capacity(alloc, scripts.len())?;
    for (at, bytes) in scripts.iter().enumerate() {
        files.push(File {
            name: NAMES.get(at).unwrap_or(&"w.txt"),
            bytes: *bytes,
        })?;
    }
    Ok(files)
}

/// The file of an image, which a play takes over, from its bytes if it can be read.
fn image_file(alloc: Global, bytes: Option<&[u8]>) -> Result<ImageFile<'static>, AllocError> {
    let bytes = match bytes {
        Some(bytes) => Some(Vec::from_slice(alloc, bytes)?),
        None => None,
    };
    Ok(ImageFile {
        name: "v.img",
        bytes,
    })
}

/// How many bytes writers take.
#[derive(Clone, Copy)]
pub struct WriterLimits {
    /// At a call.
    pub most: usize,
    /// In all on standard output.
    pub out: usize,
    /// In all on standard error.
    pub err: usize,
}

/// WriterLimits for all.
const FREE: WriterLimits = WriterLimits {
    most: usize::MAX,
    out: usize::MAX,
    err: usize::MAX,
};

/// What was written, how many bytes are taken at a call, and how many in all.
#[derive(Drop)]
struct Sink(Vec<u8>, usize, usize);

impl Write for Sink {
    fn write(&mut self, bytes: &[u8]) -> io::Result<usize> {
        let left = self.2.saturating_sub(self.0.len());
        let count = bytes.len().min(self.1).min(left);
        self.0.extend_from_slice(&bytes[..count])?;
        Ok(count)
    }

    fn flush(&mut self) -> io::Result<()> {
        Ok(())
    }
}

/// Plays the scripts of files on an image, of each the bytes if it can be read, under this gate, into writers with this room; and how it
/// ended.
fn play_into<
    R: Threads + Wait + Copy + Send + Sync + 'static,
    D: BlockDriver + 'static,
    G: Gate + 'static,
>(
    alloc: Global,
    rt: R,
    image: Option<&[u8]>,
    scripts: &[Option<&[u8]>],
    setup: &Setup,
    supply: Vec<D>,
    gate: Arc<G>,
    room: WriterLimits,
) -> Result<(Played, PlayStatus), AllocError> {
    let files = files(alloc, scripts)?;
    let image = image_file(alloc, image)?;
    let mut out = Sink(Vec::new(alloc), room.most, room.out);
    let mut err = Sink(Vec::new(alloc), room.most, room.err);
    let came = play(
        alloc,
        rt,
        image,
        files.as_slice(),
        setup,
        supply,
        gate,
        &mut out,
        &mut err,
    );
    let (Sink(out, _, _), Sink(err, _, _)) = (out, err);
    let played = Played {
        status: came.status.number(),
        out,
        err,
        image: came.image.map(|left| left.bytes),
    };
    Ok((played, came.status))
}

/// Scripts to be played on an image, over drivers that may have faults.
#[derive(Clone, Copy)]
pub struct Play<'p> {
    /// The bytes of the image, if it can be read.
    pub image: Option<&'p [u8]>,
    /// The bytes of each script's file, if it can be read.
    pub scripts: &'p [Option<&'p [u8]>],
    /// Where the volume lies, and how it is served.
    pub setup: Setup,
    /// How many sectors each driver serves.
    pub sectors: usize,
    /// The request of each driver in which its fault comes, counted from 1.
    pub request: u32,
    /// The drivers.
    pub faults: Faults<'p>,
    /// How long a tick is, in milliseconds.
    pub pace: u64,
}

impl<'p> Play<'p> {
    /// Scripts on an image that is a volume, over one driver of it without a fault, under a patient policy and short ticks.
    pub fn new(image: &'p [u8], scripts: &'p [Option<&'p [u8]>]) -> Play<'p> {
        Play {
            image: Some(image),
            scripts,
            setup: patient(),
            sectors: image.len() / 512,
            request: 1,
            faults: HONEST,
            pace: PACE,
        }
    }

    /// What it gives over other drivers.
    pub fn played_over<
        R: Threads + Wait + Clock + Copy + Send + Sync + 'static,
        D: BlockDriver + 'static,
    >(&self, alloc: Global, rt: R, supply: Vec<D>) -> Result<Played, AllocError> {
        let (image, scripts, setup) = (self.image, self.scripts, &self.setup);
        let gate = Arc::new(alloc, Ticking::new(rt, self.pace))?;
        let (played, _) = play_into(alloc, rt, image, scripts, setup, supply, gate, FREE)?;
        Ok(played)
    }

    /// What it gives under this gate to writers with this room, and how it ended.
    fn played_under<R: Threads + Wait + Copy + Send + Sync + 'static, G: Gate + 'static>(
        &self,
        alloc: Global,
        rt: R,
        gate: Arc<G>,
        room: WriterLimits,
    ) -> Result<(Played, PlayStatus), AllocError> {
        let supply = supply_at(alloc, self.sectors, self.request, self.faults)?;
        let (image, scripts, setup) = (self.image, self.scripts, &self.setup);
        play_into(alloc, rt, image, scripts, setup, supply, gate, room)
    }

    /// What it gives to writers with this room, and how it ended.
    pub fn played_into<R: Threads + Wait + Clock + Copy + Send + Sync + 'static>(
        &self,
        alloc: Global,
        rt: R,
        room: WriterLimits,
    ) -> Result<(Played, PlayStatus), AllocError> {
        let gate = Arc::new(alloc, Ticking::new(rt, self.pace))?;
        self.played_under(alloc, rt, gate, room)
    }

    /// What it gives under this gate.
    pub fn played_at<R: Threads + Wait + Copy + Send + Sync + 'static, G: Gate + 'static>(
        &self,
        alloc: Global,
        rt: R,
        gate: Arc<G>,
    ) -> Result<Played, AllocError> {
        let (played, _) = self.played_under(alloc, rt, gate, FREE)?;
        Ok(played)
    }

    /// What it gives.
    pub fn played<R: Threads + Wait + Clock + Copy + Send + Sync + 'static>(
        &self,
        alloc: Global,
        rt: R,
    ) -> Result<Played, AllocError> {
        let (played, _) = self.played_into(alloc, rt, FREE)?;
        Ok(played)
    }

    /// What its scripts give one after the other: each is played by a service of its own, on the image that the one before it leaves. The
    /// sessions are numbered as those of one play.
    pub fn played_in_turn<R: Threads + Wait + Clock + Copy + Send + Sync + 'static>(
        &self,
        alloc: Global,
        rt: R,
    ) -> Result<Played, AllocError> {
        let mut all = Played::before(alloc, self.image)?;
        for (number, script) in self.scripts.iter().enumerate() {
            let scripts = [*script];
            let one = Play {
                image: all.image.as_deref(),
                scripts: &scripts,
                ..*self
            };
            let played = one.played(alloc, rt)?;
            all.go_on(number, played)?;
        }
        Ok(all)
    }

    /// Looks at what it gives, which is an error where it is something else.
    pub fn gives<R: Threads + Wait + Clock + Copy + Send + Sync + 'static>(
        &self,
        alloc: Global,
        rt: R,
        status: u8,
        out: &str,
        err: &str,
    ) -> Result<(), Fail> {
        self.played(alloc, rt)?.gave(status, out, err)
    }
}
