//! The 64 bytes of an inode of a volume (MINIX version 3), and what stat tells by them.
#![tactic(auto)]

pub mod inode_table;
pub mod laws;

ghost use Rattle.std.specs.Prelude.{◌≡◌, ◌≤◌, ◌+◌, ◌++◌, take, slice_index, length};
ghost use Rattle.std.specs.Int.{w16, w32, to_le_bytes};
ghost use Rattle.volume.specs.Reading.{inode_in};
ghost use Rattle.inode.specs.Bytes.{attributes_in, bytes_of};

use byteorder::{ByteOrder, LittleEndian};
use layout::{u16_at, u32_at};
use tree::Attributes;
use volume::Inode;

/// The inode that 64 bytes say. Any bytes say one: whether the volume may have it is the check's to find.
pub fn decode(bytes: &[u8; 64]) -> Inode
    ensures reads { result ≡ inode_in (slice_index bytes.now) 0 }
    ensures bytes { bytes_of result ≡ bytes.now }
{
    decode_in(bytes, 0)
}

/// The inode that the 64 bytes of a block from `at` on say. Inode 1 begins its block.
pub fn decode_in(block: &[u8], at: usize) -> Inode
    requires { at + 64 ≤ length block.now }
    ensures { result ≡ inode_in (slice_index block.now) at }
{
    Inode {
        mode: u16_at(block, at),
        links: u16_at(block, at + 2),
        uid: u16_at(block, at + 4),
        gid: u16_at(block, at + 6),
        size: u32_at(block, at + 8),
        atime: u32_at(block, at + 12),
        mtime: u32_at(block, at + 16),
        ctime: u32_at(block, at + 20),
        zones: [
            u32_at(block, at + 24),
            u32_at(block, at + 28),
            u32_at(block, at + 32),
            u32_at(block, at + 36),
            u32_at(block, at + 40),
            u32_at(block, at + 44),
            u32_at(block, at + 48),
            u32_at(block, at + 52),
            u32_at(block, at + 56),
            u32_at(block, at + 60),
        ],
    }
}

/// The 64 bytes that say the inode.
pub fn encode(inode: &Inode) -> [u8; 64]
    ensures bytes { result ≡ bytes_of inode.now }
    ensures reads { inode_in (slice_index result) 0 ≡ inode.now }
{
    let mut bytes = [0; 64];
    put_u16(&mut bytes, 0, inode.mode);
    put_u16(&mut bytes, 2, inode.links);
    put_u16(&mut bytes, 4, inode.uid);
    put_u16(&mut bytes, 6, inode.gid);
    put_u32(&mut bytes, 8, inode.size);
    put_u32(&mut bytes, 12, inode.atime);
    put_u32(&mut bytes, 16, inode.mtime);
    put_u32(&mut bytes, 20, inode.ctime);
    for (k, zone) in inode.zones.iter().enumerate() {
        put_u32(&mut bytes, 24 + 4 * k, *zone);
    }
    bytes
}

/// What stat tells of the inode of that number. Its size is the inode's own, also of a directory.
pub fn attributes(inode: &Inode, number: u16) -> Attributes
    ensures { result ≡ attributes_in number inode.now }
{
    Attributes {
        inode: number,
        mode: inode.mode,
        links: inode.links,
        uid: inode.uid,
        gid: inode.gid,
        size: inode.size,
        atime: inode.atime,
        mtime: inode.mtime,
        ctime: inode.ctime,
    }
}

/// Writes a number at two bytes, the low byte first.
fn put_u16(bytes: &mut [u8], at: usize, value: u16)
    requires { at + 2 ≤ length bytes.old }
    ensures { take (at + 2) bytes.new ≡ take at bytes.old ++ to_le_bytes w16 value }
{
    LittleEndian::write_u16(&mut bytes[at..], value);
}

/// Writes a number at four bytes, the low byte first.
fn put_u32(bytes: &mut [u8], at: usize, value: u32)
    requires { at + 4 ≤ length bytes.old }
    ensures { take (at + 4) bytes.new ≡ take at bytes.old ++ to_le_bytes w32 value }
{
    LittleEndian::write_u32(&mut bytes[at..], value);
}
