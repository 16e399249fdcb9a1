//! A small volume with a file and a directory.

ghost use Rattle.std.specs.Prelude.{◌≡◌};
ghost use Rattle.layout.specs.Places.{IsGeometry};
ghost use Rattle.block_store.specs.Volume.{IsOn};

use bitflags::Flags;
use block_store::memory::Memory;
use block_store::{Blocks, Cut};
use client_calls::{NameCache, body};
use descriptors::Descriptors;
use errno::Errno;
use layout::Geometry;
use std::alloc::{AllocError, Global};
use tree::{Call, OpenFlags, PathFrom, Reply, Who};

/// Does a call at 60.
fn done<B: Blocks>(
    alloc: Global,
    blocks: &mut B,
    names: &mut NameCache,
    opens: &mut Descriptors,
    geometry: &Geometry,
    who: Who,
    call: &Call,
) -> Result<Reply, Cut>
    requires on { IsOn B.world geometry.now blocks.old }
    ensures { IsOn B.world geometry.now blocks.new }
{
    let mut reply = Reply::Done;
    body(
        alloc, blocks, names, opens, geometry, who, 60, call, &mut reply,
    )?;
    Ok(reply)
}

/// 64 blocks of 1024 bytes, with 32 inodes.
fn sizes() -> Geometry
    ensures { IsGeometry result }
{
    Geometry {
        block_size: 1024,
        inodes: 32,
        zones: 64,
        inode_map_blocks: 1,
        zone_map_blocks: 1,
        first_zone: 6,
    }
}

/// Sets bytes from a place on.
fn put_bytes(image: &mut Vec<u8>, from: usize, bytes: &[u8]) {
    for (place, byte) in image.iter_mut().skip(from).zip(bytes.iter()) {
        *place = *byte;
    }
}

/// An image whose root, inode 1 of user 0 with permissions 755, has `.`, `..`, `f` and `d` in zone 6. Inode 2 is `f`, of 5 bytes without a
/// zone, with permissions 640; inode 3 is `d`, a directory without names in zone 7, with permissions 755: both of user 5 and group 7. The
/// maps begin at bytes 2048 and 3072, the inode table at 4096. All times are 50, those of the root 0.
fn image(alloc: Global) -> Result<Vec<u8>, AllocError> {
    let mut image = vec![in alloc; 0u8; 65536]?;
    let parts: [(usize, &[u8]); 12] = [
        (2048, &[15]),
        (3072, &[7]),
        (4096, &[0xed, 0x41, 3, 0, 0, 0, 0, 0, 0, 1]),
        (4120, &[6]),
        (
            4160,
            &[
                0xa0, 0x81, 1, 0, 5, 0, 7, 0, 5, 0, 0, 0, 50, 0, 0, 0, 50, 0, 0, 0, 50,
            ],
        ),
        (
            4224,
            &[
                0xed, 0x41, 2, 0, 5, 0, 7, 0, 128, 0, 0, 0, 50, 0, 0, 0, 50, 0, 0, 0, 50, 0, 0, 0,
                7,
            ],
        ),
        (6144, &[1, 0, 0, 0, b'.']),
        (6208, &[1, 0, 0, 0, b'.', b'.']),
        (6272, &[2, 0, 0, 0, b'f']),
        (6336, &[3, 0, 0, 0, b'd']),
        (7168, &[3, 0, 0, 0, b'.']),
        (7232, &[1, 0, 0, 0, b'.', b'.']),
    ];
    for (from, bytes) in parts {
        put_bytes(&mut image, from, bytes);
    }
    Ok(image)
}

/// That image with one more name in the root, `l`. Inode 4 is a symbolic link of user 0 to `d`, whose bits grant nothing; its target lies
/// in zone 8. Its times are 0.
fn linked(alloc: Global) -> Result<Vec<u8>, AllocError> {
    let mut image = image(alloc)?;
    let parts: [(usize, &[u8]); 7] = [
        (2048, &[31]),
        (3072, &[15]),
        (4104, &[64, 1]),
        (4288, &[0, 0xa0, 1, 0, 0, 0, 0, 0, 1]),
        (4312, &[8]),
        (6400, &[4, 0, 0, 0, b'l']),
        (8192, b"d"),
    ];
    for (from, bytes) in parts {
        put_bytes(&mut image, from, bytes);
    }
    Ok(image)
}

/// An open: its session, its user and group, the path, the bits of the flags, and the mode.
pub(crate) type Open<'a> = (u8, (u16, u16), &'a [u8], u8, u16);

/// What is told of a call that is done and has nothing more to tell: no descriptor.
pub(crate) const DONE: u32 = 32;

/// A volume in memory, and what is open.
#[derive(Drop)]
pub(crate) struct Volume {
    alloc: Global,
    blocks: Memory,
    names: NameCache,
    opens: Descriptors,
    geometry: Geometry,
    ghost sizes: { IsGeometry geometry },
    ghost same: { blocks.block_size ≡ geometry.block_size },
}

impl Volume {
    /// The volume, in which nothing is open.
    pub(crate) fn new(alloc: Global) -> Result<Volume, AllocError> {
        Volume::over(alloc, image(alloc)?)
    }

    /// The volume that has a link besides.
    pub(crate) fn with_link(alloc: Global) -> Result<Volume, AllocError> {
        Volume::over(alloc, linked(alloc)?)
    }

    /// The volume of this image.
    fn over(alloc: Global, image: Vec<u8>) -> Result<Volume, AllocError> {
        let geometry = sizes();
        Ok(Volume {
            alloc,
            blocks: Memory::new(geometry.block_size, image),
            opens: Descriptors::new(alloc)?,
            names: NameCache::new(alloc),
            geometry,
        })
    }

    /// Does a call at 60: the error that it is refused with, a descriptor, or `DONE`. Another answer, or a call that is cut, of which there
    /// is none here, is EIO.
    pub(crate) fn call(&mut self, who: Who, call: &Call) -> Result<u32, Errno> {
        match self.reply(who, call) {
            Reply::Descriptor(fd) => Ok(fd),
            Reply::Refused(errno) => Err(errno),
            Reply::Done => Ok(DONE),
            _ => Err(Errno::EIO),
        }
    }

    /// Does a call at 60: its reply. A call that is cut, of which there is none here, is EIO.
    pub(crate) fn reply(&mut self, who: Who, call: &Call) -> Reply {
        let (blocks, names, opens) = (&mut self.blocks, &mut self.names, &mut self.opens);
        match done(self.alloc, blocks, names, opens, &self.geometry, who, call) {
            Ok(reply) => reply,
            Err(_) => Reply::Refused(Errno::EIO),
        }
    }

    /// Opens a path.
    pub(crate) fn open(
        &mut self,
        (session, (uid, gid), path, bits, mode): Open<'_>,
    ) -> Result<u32, Errno> {
        let flags = OpenFlags::from_bits_retain(bits);
        let who = Who { session, uid, gid };
        let path = PathFrom::root(path);
        self.call(who, &Call::Open { path, flags, mode })
    }

    /// The inode, the position and the bits of the flags of a descriptor of session 0.
    pub(crate) fn file(&self, fd: u32) -> Option<(u16, u32, u8)> {
        let (inode, position, flags) = self.opens.get(0, fd)?;
        Some((inode, position, flags.bits()))
    }

    /// All its bytes.
    pub(crate) fn bytes(&self) -> &[u8] {
        self.blocks.image()
    }
}
