//! A volume in memory, on which client calls are made.

ghost use Rattle.std.specs.Prelude.{◌≡◌, IfOk};
ghost use Rattle.layout.specs.Places.{IsGeometry};
ghost use Rattle.block_store.specs.Volume.{IsOn};

use bitflags::Flags;
use block_store::memory::Memory;
use block_store::{Blocks, Cut};
use client_calls::{NameCache, body};
use descriptors::Descriptors;
use fsck::{Verdict, check};
use layout::{Geometry, LayoutRefusal};
use new_volume::mkfs;
use std::alloc::Global;
use std::test::Fail;
use tests_texts::is_told;
use tree::{Call, OpenFlags, PathFrom, Reply, Who};

/// User 0, in session 3.
const ROOT: Who = Who {
    session: 3,
    uid: 0,
    gid: 0,
};

/// The bytes of a write.
const PIECE: [u8; 4096] = [0x77; 4096];

/// Does a call at 60.
fn done<B: Blocks>(
    alloc: Global,
    blocks: &mut B,
    names: &mut NameCache,
    opens: &mut Descriptors,
    geometry: &Geometry,
    call: &Call,
) -> Result<Reply, Cut>
    requires on { IsOn B.world geometry.now blocks.old }
    ensures { IsOn B.world geometry.now blocks.new }
{
    let mut reply = Reply::Done;
    body(
        alloc, blocks, names, opens, geometry, ROOT, 60, call, &mut reply,
    )?;
    Ok(reply)
}

/// The sizes that an image's superblock has.
fn sizes(image: &[u8]) -> Result<Geometry, LayoutRefusal>
    ensures { IfOk result (λ geometry. IsGeometry geometry) }
{
    match Geometry::parse(image) {
        Ok(geometry) => Ok(geometry),
        Err(refusal) => Err(refusal),
    }
}

/// What the check says of a volume, as `clean` or `finding 16 at 3`.
fn verdict(alloc: Global, volume: &[u8]) -> Result<String, Fail> {
    match check(alloc, volume) {
        Ok(Verdict::Clean(_)) => Ok(String::from_str(alloc, "clean")?),
        Ok(Verdict::Found(finding)) => Ok(format!(in alloc; "{finding}")?),
        Err(_) => Err(Fail::from("no memory for a check")),
    }
}

/// It is an error where the check says something else.
pub(crate) fn is_said(alloc: Global, volume: &[u8], wanted: &str) -> Result<(), Fail> {
    let said = verdict(alloc, volume)?;
    is_told(said.as_str(), wanted)
}

/// A step at a volume.
pub(crate) enum Step {
    /// A file of so many pieces of 4096 bytes is made, and stays open.
    Fills(&'static [u8], u32),
    /// A directory is made.
    Mkdir(&'static [u8]),
    /// A file gets one more name.
    Link(&'static [u8], &'static [u8]),
    /// A link with this target is made.
    Symlink(&'static [u8], &'static [u8]),
    /// A name is taken from a file.
    Unlink(&'static [u8]),
}

/// A volume in memory, and what is open.
#[derive(Drop)]
pub(crate) struct Volume {
    alloc: Global,
    blocks: Memory,
    names: NameCache,
    opens: Descriptors,
    geometry: Geometry,
    ghost sizes: { IsGeometry geometry },
    ghost same: { blocks.block_size ≡ geometry.block_size },
}

impl Volume {
    /// The volume of this image; nothing is open.
    pub(crate) fn over(alloc: Global, image: Vec<u8>) -> Result<Volume, Fail> {
        let Ok(geometry) = sizes(&image) else {
            return Err(Fail::from("no volume"));
        };
        Ok(Volume {
            alloc,
            blocks: Memory::new(geometry.block_size, image),
            opens: Descriptors::new(alloc)?,
            names: NameCache::new(alloc),
            geometry,
        })
    }

    /// A new one of 900 blocks of so many bytes, with 40 inodes.
    pub(crate) fn new(alloc: Global, block_size: u32) -> Result<Volume, Fail> {
        match mkfs(alloc, 900, block_size, 40, 50) {
            Ok(image) => Volume::over(alloc, image),
            Err(refusal) => Err(Fail::new(format_args!("{refusal}"))),
        }
    }

    /// Does a call at 60. One that is cut, of which there is none here, is an error.
    pub(crate) fn call(&mut self, call: &Call) -> Result<Reply, Fail> {
        let (blocks, names, opens) = (&mut self.blocks, &mut self.names, &mut self.opens);
        match done(self.alloc, blocks, names, opens, &self.geometry, call) {
            Ok(Reply::Refused(errno)) => Err(Fail::new(format_args!("{errno}"))),
            Ok(reply) => Ok(reply),
            Err(cut) => Err(Fail::new(format_args!("{cut}"))),
        }
    }

    /// Makes a file, or opens one that is there, for reading and writing: its descriptor.
    pub(crate) fn open(&mut self, path: &[u8]) -> Result<u32, Fail> {
        let flags = OpenFlags::from_bits_retain(11);
        match self.call(&Call::Open {
            path: PathFrom::root(path),
            flags,
            mode: 0o640,
        })? {
            Reply::Descriptor(fd) => Ok(fd),
            _ => Err(Fail::from("no descriptor")),
        }
    }

    /// Makes a file of so many pieces of 4096 bytes: its descriptor.
    pub(crate) fn fill(&mut self, path: &[u8], pieces: u32) -> Result<u32, Fail> {
        let fd = self.open(path)?;
        for _ in 0..pieces {
            self.call(&Call::Write { fd, bytes: &PIECE })?;
        }
        Ok(fd)
    }

    /// Does a step.
    fn step(&mut self, step: &Step) -> Result<Reply, Fail> {
        let call = match *step {
            Step::Fills(path, pieces) => return Ok(Reply::Descriptor(self.fill(path, pieces)?)),
            Step::Mkdir(path) => Call::Mkdir {
                path: PathFrom::root(path),
                mode: 0o755,
            },
            Step::Link(old, new) => Call::Link {
                old: PathFrom::root(old),
                new: PathFrom::root(new),
            },
            Step::Symlink(target, path) => Call::Symlink {
                target,
                path: PathFrom::root(path),
            },
            Step::Unlink(path) => Call::Unlink {
                path: PathFrom::root(path),
            },
        };
        self.call(&call)
    }

    /// Does these steps.
    pub(crate) fn does(&mut self, steps: &[Step]) -> Result<(), Fail> {
        for step in steps {
            self.step(step)?;
        }
        Ok(())
    }

    /// Makes such a file and takes its name from it, while it is open.
    pub(crate) fn orphan(&mut self, path: &[u8], pieces: u32) -> Result<u32, Fail> {
        let fd = self.fill(path, pieces)?;
        self.call(&Call::Unlink {
            path: PathFrom::root(path),
        })?;
        Ok(fd)
    }

    /// Closes the descriptors.
    pub(crate) fn close(&mut self, descriptors: &[u32]) -> Result<(), Fail> {
        for fd in descriptors {
            self.call(&Call::Close { fd: *fd })?;
        }
        Ok(())
    }

    /// All its bytes.
    pub(crate) fn image(&self) -> Result<Vec<u8>, Fail> {
        Ok(Vec::from_slice(self.alloc, self.blocks.image())?)
    }
}
