//! Makes the image of a new volume: a root alone.
#![tactic(auto)]

ghost use Rattle.std.specs.Prelude.{◌≡◌, ◌≤◌, ◌<◌, ◌+◌, ◌-◌, ◌*◌, ◌++◌, ◌^◌, Ok, IfOk, IfErr, OnOk, length};
ghost use Rattle.layout.specs.Places.{IsGeometry, table_blocks};
ghost use Rattle.tree.specs.Space.{data_zones};
ghost use Rattle.new_volume.specs.Sizes.{blocks_for, new_geometry, refusal_name, refusal_number, sizes_of};
ghost use Rattle.new_volume.specs.Image.{filled, filled_image, is_set, map_byte, map_bytes, new_image, new_tables};
ghost use Rattle.new_volume.specs.Made.{IsNewVolume, IsOwnedVolume, IsRefused};
ghost use Rattle.new_volume.specs.Owned.{owned_inode, user_0};

use inode::encode;
use layout::Geometry;
use std::alloc::{AllocError, Global};
use std::error::Error;
use std::fmt;
use tree::User;
use volume::Inode;

/// Why no volume is made: the first of these that holds, in this order.
#[derive(Clone, Copy, Debug, PartialEq, Eq)]
pub enum MkfsRefusal {
    /// A block isn't 1024, 2048 or 4096 bytes.
    BadBlockSize,
    /// There are no inodes, or over 65535.
    BadInodes,
    /// There are over 65536 blocks, or they have over 67108864 bytes.
    TooManyBlocks,
    /// No block is left for a data zone.
    TooFewBlocks,
    /// No memory was found for the image.
    OutOfMemory,
}

impl MkfsRefusal {
    /// The refusal's place in their order, 1 to 5.
    pub fn number(&self) -> u32
        ensures { result ≡ refusal_number self.now }
    {
        match self {
            MkfsRefusal::BadBlockSize => 1,
            MkfsRefusal::BadInodes => 2,
            MkfsRefusal::TooManyBlocks => 3,
            MkfsRefusal::TooFewBlocks => 4,
            MkfsRefusal::OutOfMemory => 5,
        }
    }

    /// The refusal's name, as `BadInodes`.
    pub fn name(&self) -> &'static str
        ensures { result.now ≡ refusal_name self.now }
    {
        match self {
            MkfsRefusal::BadBlockSize => "BadBlockSize",
            MkfsRefusal::BadInodes => "BadInodes",
            MkfsRefusal::TooManyBlocks => "TooManyBlocks",
            MkfsRefusal::TooFewBlocks => "TooFewBlocks",
            MkfsRefusal::OutOfMemory => "OutOfMemory",
        }
    }
}

/// Writes the name.
impl fmt::Display for MkfsRefusal {
    ghost use Rattle.std.specs.Prelude.{Some};

    ghost output = { λ refusal. Some (refusal_name refusal) };

    fn fmt<W: fmt::Write>(&self, f: &mut fmt::Formatter<W>) -> fmt::Result {
        f.write_str(self.name())
    }
}

impl Error for MkfsRefusal {}

impl From<AllocError> for MkfsRefusal {
    ghost use Rattle.new_volume.specs.declared.MkfsRefusal.TheVariants.{OutOfMemory};

    ghost from_gives = { λ _ e. e ≡ OutOfMemory };

    fn from(_refused: AllocError) -> MkfsRefusal {
        MkfsRefusal::OutOfMemory
    }
}

/// The most bytes that a volume has: 64 MiB (own).
const MOST_BYTES: u32 = 67108864;

/// The image of a new volume of so many blocks of that many bytes with so many inodes: it holds the root alone, a directory of mode
/// 0040755 with two links, of user 0 and group 0, with all its times `now` in seconds since 1970, in the first data zone. The image
/// has all its blocks. What isn't said of a volume is zero, and the bits of both maps past their last ones are set (own).
///
/// Refused for the first of `MkfsRefusal` that holds.
pub fn mkfs(
    alloc: Global,
    blocks: u32,
    block_size: u32,
    inodes: u32,
    now: u32,
) -> Result<Vec<u8>, MkfsRefusal>
    ensures made { IfOk result (λ image. IsNewVolume blocks block_size inodes now image.items) }
    ensures refused { IfErr result (IsRefused blocks block_size inodes) }
{
    let volume = sizes(blocks, block_size, inodes)?;
    let image = new_image(alloc, &volume, now)?;
    Ok(image)
}

/// The sizes of the new volume, or why there is none.
fn sizes(blocks: u32, block_size: u32, inodes: u32) -> Result<Geometry, MkfsRefusal>
    ensures { result ≡ sizes_of blocks block_size inodes }
{
    if block_size != 1024 && block_size != 2048 && block_size != 4096 {
        return Err(MkfsRefusal::BadBlockSize);
    }
    if inodes == 0 || inodes > 65535 {
        return Err(MkfsRefusal::BadInodes);
    }
    if blocks > 65536 || blocks * block_size > MOST_BYTES {
        return Err(MkfsRefusal::TooManyBlocks);
    }
    let volume = new_geometry(blocks, block_size, inodes);
    if blocks <= volume.first_zone {
        return Err(MkfsRefusal::TooFewBlocks);
    }
    Ok(volume)
}

/// Those sizes: each map has as few blocks as have a bit for each inode, or each block, and one.
fn new_geometry(blocks: u32, block_size: u32, inodes: u32) -> Geometry
    requires sized { 1024 ≤ block_size }
    requires small { block_size ≤ 4096 }
    requires inodes { inodes ≤ 65535 }
    requires blocks { blocks ≤ 65536 }
    ensures { result ≡ new_geometry blocks block_size inodes }
{
    let inode_map_blocks = blocks_for(inodes + 1, 8 * block_size);
    let zone_map_blocks = blocks_for(blocks, 8 * block_size);
    let table_blocks = blocks_for(64 * inodes, block_size);
    Geometry {
        block_size,
        inodes,
        zones: blocks,
        inode_map_blocks,
        zone_map_blocks,
        first_zone: 2 + inode_map_blocks + zone_map_blocks + table_blocks,
    }
}

/// How many blocks hold so much, where each holds `each`.
fn blocks_for(amount: u32, each: u32) -> u32
    requires some { 0 < each }
    requires small { amount + each < 2 ^ 32 }
    ensures { result ≡ blocks_for amount each }
{
    (amount + each - 1) / each
}

/// How many bytes so many blocks have.
fn bytes_in(volume: &Geometry, blocks: u32) -> u32
    requires sizes { IsGeometry volume.now }
    requires few { blocks ≤ 65536 }
    ensures bytes { result ≡ blocks * volume.now.block_size }
    ensures small { result ≤ 2 ^ 28 }
{
    blocks * volume.block_size
}

/// A new volume's image without the zeros at its end.
#[derive(Drop)]
pub struct NewVolume {
    /// Its sizes: the image has all its blocks.
    pub volume: Geometry,
    /// The image's first bytes. All others are zero.
    pub front: Vec<u8>,
}

impl NewVolume {
    /// How many bytes the image has.
    pub fn length(&self) -> u64
        ensures { result ≡ self.now.volume.zones * self.now.volume.block_size }
    {
        u64::from(self.volume.zones) * u64::from(self.volume.block_size)
    }
}

/// The image that `mkfs` makes, but with the root of this user and this group, and without the zeros behind the root's directory:
/// little memory is taken where the volume is large.
///
/// Refused as `mkfs` is.
pub fn mkfs_front(
    alloc: Global,
    blocks: u32,
    block_size: u32,
    inodes: u32,
    now: u32,
    uid: u16,
    gid: u16,
) -> Result<NewVolume, MkfsRefusal>
    ensures made { IfOk result (λ new. IsOwnedVolume blocks block_size inodes now (record { uid = uid; gid = gid })
        (filled_image new.volume new.front.items)) }
    ensures sizes { IfOk result (λ new. sizes_of blocks block_size inodes ≡ Ok new.volume) }
    ensures geometry { IfOk result (λ new. IsGeometry new.volume) }
    ensures refused { IfErr result (IsRefused blocks block_size inodes) }
{
    let geometry = sizes(blocks, block_size, inodes)?;
    let room = bytes_in(&geometry, geometry.first_zone) as usize + ENTRIES.len();
    let mut front = new_tables(alloc, &geometry, now, User { uid, gid }, room)?;
    front.extend_from_slice(&ENTRIES)?;
    Ok(NewVolume {
        volume: geometry,
        front,
    })
}

/// Whose the root is where nothing else is said.
const USER_0: User = User { uid: 0, gid: 0 };

/// The image of a new volume of these sizes, each byte of which is written once.
fn new_image(alloc: Global, volume: &Geometry, now: u32) -> Result<Vec<u8>, AllocError>
    requires { IsGeometry volume.now }
    ensures { IfOk result (λ image. image.items ≡ new_image volume.now now user_0) }
{
    let zones = volume.zones - volume.first_zone;
    let room = bytes_in(volume, volume.zones) as usize;
    let mut image = new_tables(alloc, volume, now, USER_0, room)?;
    push_filled(&mut image, &ENTRIES, bytes_in(volume, zones))?;
    Ok(image)
}

/// The blocks of that image before the data zones, with room for so many bytes.
fn new_tables(
    alloc: Global,
    volume: &Geometry,
    now: u32,
    owner: User,
    room: usize,
) -> Result<Vec<u8>, AllocError>
    requires { IsGeometry volume.now }
    ensures { IfOk result (λ image. image.items ≡ new_tables volume.now now owner) }
{
    let zones = volume.zones - volume.first_zone;
    let table = blocks_for(64 * volume.inodes, volume.block_size);
    let mut image = Vec::with_capacity(alloc, room)?;
    image.resize(bytes_in(volume, 2) as usize, 0)?;
    volume.write(&mut image);
    push_map(
        &mut image,
        volume.inodes,
        bytes_in(volume, volume.inode_map_blocks),
    )?;
    push_map(&mut image, zones, bytes_in(volume, volume.zone_map_blocks))?;
    push_filled(
        &mut image,
        &encode(&root(volume, now, owner)),
        bytes_in(volume, table),
    )?;
    Ok(image)
}

/// The root's directory, without the zeros that end its block: the entries . and .., both of inode 1.
const ENTRIES: [u8; 70] = [
    1, 0, 0, 0, b'.', 0, 0, 0, 0, 0, 0, 0, 0, 0, 0, 0, 0, 0, 0, 0, 0, 0, 0, 0, 0, 0, 0, 0, 0, 0, 0,
    0, 0, 0, 0, 0, 0, 0, 0, 0, 0, 0, 0, 0, 0, 0, 0, 0, 0, 0, 0, 0, 0, 0, 0, 0, 0, 0, 0, 0, 0, 0, 0,
    0, 1, 0, 0, 0, b'.', b'.',
];

/// The root's inode.
fn root(volume: &Geometry, now: u32, owner: User) -> Inode
    ensures { result ≡ owned_inode volume.now now owner }
{
    Inode {
        mode: 0o040755,
        links: 2,
        uid: owner.uid,
        gid: owner.gid,
        size: 128,
        atime: now,
        mtime: now,
        ctime: now,
        zones: [volume.first_zone, 0, 0, 0, 0, 0, 0, 0, 0, 0],
    }
}

/// Writes some bytes, and zeros up to a length.
fn push_filled(image: &mut Vec<u8>, bytes: &[u8], size: u32) -> Result<(), AllocError>
    requires { length bytes.now ≤ size }
    ensures { OnOk result (image.new.items ≡ image.old.items ++ filled bytes.now size) }
{
    image.extend_from_slice(bytes)?;
    let zeros = size as usize - bytes.len();
    image.resize(image.len() + zeros, 0)
}

/// Writes so many bytes of a new map whose last bit is this.
fn push_map(image: &mut Vec<u8>, last: u32, size: u32) -> Result<(), AllocError>
    requires { size ≤ 2 ^ 28 }
    ensures { OnOk result (image.new.items ≡ image.old.items ++ map_bytes last size) }
{
    for place in 0..size {
        image.push(map_byte(last, place))?;
    }
    Ok(())
}

/// A byte of a new map whose last bit is this.
fn map_byte(last: u32, place: u32) -> u8
    requires { place < 2 ^ 28 }
    ensures { result ≡ map_byte last place }
{
    let mut byte = 0;
    for bit in 0..8 {
        if is_set(last, 8 * place + bit) {
            byte += 1 << bit;
        }
    }
    byte
}

/// Whether a bit of a new map whose last bit is this is set: bit 0, that of the root or its zone, and those past the last.
fn is_set(last: u32, bit: u32) -> bool
    ensures { result ≡ is_set last bit }
{
    bit <= 1 || last < bit
}
