//! What is read of a volume first, and why nothing is mounted.

ghost use Rattle.std.specs.Prelude.{◌≡◌, IfOk, IfErr, Err, Some, ◌≢◌};
ghost use Rattle.layout.specs.Places.{geometry_of, superblock_geometry};
ghost use Rattle.volume_mount.specs.Refusals.{mount_refusal_number, mount_refusal_text};
ghost use Rattle.volume_mount.specs.Whole.{HasSizes, IsHeadFit};

use layout::{Geometry, LayoutRefusal, u16_at, u32_at};
use std::{error, fmt};
use volume::Finding;
use volume_reading::Stop;

/// Why nothing is mounted. Nothing is left due at the link; where several hold the least is answered, but BadFrames, which is looked at
/// first, and want of memory, which may be answered whenever some is needed.
#[derive(Clone, Copy, Debug, Drop, PartialEq, Eq)]
pub enum MountRefusal {
    /// The superblock is refused.
    Layout(LayoutRefusal),
    /// The check finds this.
    Inconsistent(Finding),
    /// No memory was found.
    OutOfMemory,
    /// The device was given up; so ends a volume that passes the device's end.
    Eio,
    /// The link gives no message any more.
    LinkEnded,
    /// The number of frames isn't 16 to 4096. Nothing was done at the link.
    BadFrames,
}

/// Writes the name, and what it carries.
impl fmt::Display for MountRefusal {
    ghost output = { λ refusal. Some (mount_refusal_text refusal) };

    fn fmt<W: fmt::Write>(&self, f: &mut fmt::Formatter<W>) -> fmt::Result {
        match self {
            MountRefusal::Layout(refusal) => write!(f, "Layout {refusal}"),
            MountRefusal::Inconsistent(finding) => write!(f, "Inconsistent {finding}"),
            MountRefusal::OutOfMemory => f.write_str("OutOfMemory"),
            MountRefusal::Eio => f.write_str("Eio"),
            MountRefusal::LinkEnded => f.write_str("LinkEnded"),
            MountRefusal::BadFrames => f.write_str("BadFrames"),
        }
    }
}

impl error::Error for MountRefusal {}

impl MountRefusal {
    /// Its number: 1 to 6.
    pub fn number(&self) -> u32
        ensures { result ≡ mount_refusal_number self.now }
    {
        match self {
            MountRefusal::Layout(_) => 1,
            MountRefusal::Inconsistent(_) => 2,
            MountRefusal::OutOfMemory => 3,
            MountRefusal::Eio => 4,
            MountRefusal::LinkEnded => 5,
            MountRefusal::BadFrames => 6,
        }
    }
}

impl From<Stop> for MountRefusal {
    ghost use Rattle.volume_mount.specs.Whole.{refusal_by};

    fn from(stop: Stop) -> MountRefusal
        ensures { result ≡ refusal_by stop }
    {
        match stop {
            Stop::OutOfMemory => MountRefusal::OutOfMemory,
            Stop::GaveUp => MountRefusal::Eio,
            Stop::Ended => MountRefusal::LinkEnded,
        }
    }
}

/// The sizes in a superblock's fields.
fn superblock(head: &[u8; 2048]) -> Geometry
    ensures { result ≡ superblock_geometry head.now }
{
    Geometry {
        block_size: u32::from(u16_at(head, 1052)),
        inodes: u32_at(head, 1024),
        zones: u32_at(head, 1044),
        inode_map_blocks: u32::from(u16_at(head, 1030)),
        zone_map_blocks: u32::from(u16_at(head, 1032)),
        first_zone: u32::from(u16_at(head, 1034)),
    }
}

/// The sizes of the volume that begins so, or why it is refused; its length isn't looked at.
pub fn sizes(head: &[u8; 2048]) -> Result<Geometry, LayoutRefusal>
    ensures sizes { IfOk result (λ g. g ≡ superblock_geometry head.now) }
    ensures fit { IfOk result (λ g. IsHeadFit head.now) }
    ensures ranges { IfOk result (λ g. HasSizes g) }
    ensures refused { IfErr result (λ e. geometry_of head.now ≡ Err e) }
    ensures not_short { IfErr result (λ e. e ≢ LayoutRefusal.DoesNotFit) }
{
    match Geometry::parse(head) {
        Ok(_) => Ok(superblock(head)),
        Err(LayoutRefusal::DoesNotFit) => Ok(superblock(head)),
        Err(refusal) => Err(refusal),
    }
}
