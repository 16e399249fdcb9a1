//! Rows over a link that answers from a list: what is free in the maps, a file that is written, cut and grown again, and the zones that
//! pages need.

ghost use Rattle.std.specs.Prelude.{◌≡◌, ◌<◌, IfOk};
ghost use Rattle.layout.specs.Places.{IsGeometry};
ghost use Rattle.block_store.specs.Volume.{IsOn};
ghost use Rattle.cache.specs.Calls.{IsReady, AreWritable};
ghost use Rattle.cached_blocks.specs.World.{stored_caching};

use crate::images::{SMALL, image, sizes};
use bitmap::{Map, count_free, lowest_free};
use block_store::{Blocks, Halt};
use cache::{Cache, CacheRefusal};
use cached_blocks::Stored;
use file::file_pages::changing::set_size;
use file::file_pages::reading::read_at;
use file::file_room::need;
use file::write_at;
use inode::inode_table::load;
use layout::Geometry;
use message::endpoint::{DISK_DRIVER, Endpoint};
use message::{BlockReply, Incoming};
use reissue::list_link::ListLink;
use reissue::{Link, Transfers};
use std::alloc::{AllocError, Global};
use std::test::Fail;
use volume::Inode;

/// The only driver.
const DRIVER: Endpoint = Endpoint {
    slot: DISK_DRIVER,
    generation: 1,
};

/// What is done.
#[derive(Clone, Copy)]
enum Act {
    /// The lowest free number of each map, and how many are free, of inodes and of zones; and no message is left.
    Maps,
    /// `abc` is written into inode 1, which is made 1 byte long and then 3, and read: the zones that are free before and after, and
    /// between them how many bytes came, if they are these.
    CutAndGrow,
    /// The zones that inode 1 needs to hold one page, 0, 7, 262 or 263.
    Needs,
}

/// What is done, over the first bytes of each block of 1024 bytes that is asked for, in their order; and what comes out.
static ROWS: [(Act, &[&[u8]], [u32; 4]); 3] = [
    // a root alone: number 0 is set in both maps, and the root's
    (Act::Maps, &[&[3], &[3]], [2, 31, 2, 57]),
    // the zone map is read first, and then the inode table, whose first inode is an empty file with one link
    (Act::CutAndGrow, &[&[1], &[0xa4, 0x81, 1]], [58, 3, 57, 0]),
    (Act::Needs, &[&[0xa4, 0x81, 1]], [1, 2, 2, 3]),
];

/// The lowest free number of a map, 0 where there is none, and how many are free.
fn map_of<B: Blocks>(blocks: &mut B, geometry: &Geometry, map: Map) -> Result<[u32; 2], Halt>
    requires { IsOn B.world geometry.now blocks.old }
    ensures { IsOn B.world geometry.now blocks.new }
{
    let number = lowest_free(blocks, geometry, map)?;
    let free = count_free(blocks, geometry, map)?;
    Ok([number.unwrap_or(0), free])
}

/// The same of both maps.
fn maps<B: Blocks>(blocks: &mut B, geometry: &Geometry) -> Result<[u32; 4], Halt>
    requires { IsOn B.world geometry.now blocks.old }
{
    let [inode, inodes] = map_of(blocks, geometry, Map::Inodes)?;
    let [zone, zones] = map_of(blocks, geometry, Map::Zones)?;
    blocks.live()?;
    Ok([inode, inodes, zone, zones])
}

/// How many zones are free.
fn free_zones<B: Blocks>(blocks: &mut B, geometry: &Geometry) -> Result<u32, Halt>
    requires { IsOn B.world geometry.now blocks.old }
    ensures { IsOn B.world geometry.now blocks.new }
{
    Ok(count_free(blocks, geometry, Map::Zones)?)
}

/// Writes inode 1, cuts it and makes it grow again.
fn change<B: Blocks>(blocks: &mut B, geometry: &Geometry) -> Result<(), Halt>
    requires { IsOn B.world geometry.now blocks.old }
    ensures { IsOn B.world geometry.now blocks.new }
{
    write_at(blocks, geometry, 1, 0, b"abc")?;
    set_size(blocks, geometry, 1, 1)?;
    set_size(blocks, geometry, 1, 3)
}

/// Reads from the first byte of inode 1 on: how many bytes came.
fn read_first<B: Blocks>(
    blocks: &mut B,
    geometry: &Geometry,
    into: &mut [u8],
) -> Result<usize, Halt>
    requires { IsOn B.world geometry.now blocks.old }
    ensures { IsOn B.world geometry.now blocks.new }
{
    let inode = load(blocks, geometry, 1)?;
    Ok(read_at(blocks, geometry, &inode, 0, into)?)
}

/// How many bytes of inode 1 are read, if they are what was left of it.
fn come_back<B: Blocks>(blocks: &mut B, geometry: &Geometry) -> Result<u32, Halt>
    requires { IsOn B.world geometry.now blocks.old }
    ensures { IsOn B.world geometry.now blocks.new }
{
    let mut into = [0x2e; 5];
    let count = read_first(blocks, geometry, &mut into)?;
    Ok(if count == 3 && &into == b"a\0\0.." {
        3
    } else {
        0
    })
}

/// Writes inode 1, cuts it and makes it grow again, and reads it.
fn cut_and_grow<B: Blocks>(blocks: &mut B, geometry: &Geometry) -> Result<[u32; 4], Halt>
    requires { IsOn B.world geometry.now blocks.old }
{
    let before = free_zones(blocks, geometry)?;
    change(blocks, geometry)?;
    let come = come_back(blocks, geometry)?;
    let after = free_zones(blocks, geometry)?;
    Ok([before, come, after, 0])
}

/// How many zones an inode needs to hold one page.
fn needed<B: Blocks>(
    blocks: &mut B,
    geometry: &Geometry,
    inode: &Inode,
    page: u32,
) -> Result<u32, Halt>
    requires on { IsOn B.world geometry.now blocks.old }
    requires page { page < 1000 }
    ensures { IsOn B.world geometry.now blocks.new }
{
    Ok(need(blocks, geometry, inode, page, 1)?)
}

/// How many zones inode 1 needs to hold one page.
fn needs<B: Blocks>(blocks: &mut B, geometry: &Geometry) -> Result<[u32; 4], Halt>
    requires { IsOn B.world geometry.now blocks.old }
{
    let inode = load(blocks, geometry, 1)?;
    Ok([
        needed(blocks, geometry, &inode, 0)?,
        needed(blocks, geometry, &inode, 7)?,
        needed(blocks, geometry, &inode, 262)?,
        needed(blocks, geometry, &inode, 263)?,
    ])
}

/// Does it.
fn act_on<B: Blocks>(blocks: &mut B, geometry: &Geometry, act: Act) -> Result<[u32; 4], Halt>
    requires { IsOn B.world geometry.now blocks.old }
{
    match act {
        Act::Maps => maps(blocks, geometry),
        Act::CutAndGrow => cut_and_grow(blocks, geometry),
        Act::Needs => needs(blocks, geometry),
    }
}

/// The answer to a request: a block was moved that begins with these bytes, 4096 at most, and the others are 0.
fn moved(id: u64, first: &[u8]) -> Incoming {
    let mut bytes = [0; 4096];
    let count = first.len().min(4096);
    bytes[..count].copy_from_slice(&first[..count]);
    Incoming::Reply(BlockReply {
        from: DRIVER,
        id,
        outcome: Ok(1024),
        bytes,
    })
}

/// The driver is started, and then answers so.
fn messages(alloc: Global, answers: &[&[u8]]) -> Result<Vec<Incoming>, AllocError> {
    let mut list = Vec::new(alloc);
    list.push(Incoming::Started(DRIVER))?;
    for (number, first) in answers.iter().enumerate() {
        list.push(moved((number as u64).saturating_add(1), first))?;
    }
    Ok(list)
}

/// Blocks of a volume in 32 frames over a link that gives these messages.
fn blocks_over(
    alloc: Global,
    messages: Vec<Incoming>,
    geometry: &Geometry,
) -> Result<Result<Stored<ListLink>, CacheRefusal>, AllocError>
    requires { IsGeometry geometry.now }
    ensures ready { IfOk result (λ r. IfOk r (λ s. IsReady (stored_caching ⟦<ListLink as Link>⟧ s))) }
    ensures size { IfOk result (λ r. IfOk r (λ s. s.cache.shape.block_size ≡ geometry.now.block_size)) }
    ensures inside { IfOk result (λ r. IfOk r (λ s. AreWritable geometry.now.zones (stored_caching ⟦<ListLink as Link>⟧ s))) }
{
    let transfers = Transfers::new(alloc, ListLink::new(alloc, messages)?)?;
    Ok(match Cache::new(alloc, transfers, 0, geometry, 32) {
        Ok(cache) => Ok(Stored::new(cache)),
        Err(refusal) => Err(refusal),
    })
}

/// The same, of the volume over a link that gives these answers.
fn opened(alloc: Global, answers: &[&[u8]], geometry: &Geometry) -> Result<Stored<ListLink>, Fail>
    requires { IsGeometry geometry.now }
    ensures ready { IfOk result (λ s. IsReady (stored_caching ⟦<ListLink as Link>⟧ s)) }
    ensures size { IfOk result (λ s. s.cache.shape.block_size ≡ geometry.now.block_size) }
    ensures inside { IfOk result (λ s. AreWritable geometry.now.zones (stored_caching ⟦<ListLink as Link>⟧ s)) }
{
    Ok(blocks_over(alloc, messages(alloc, answers)?, geometry)??)
}

/// What comes out over the small volume's blocks.
fn done(alloc: Global, act: Act, answers: &[&[u8]]) -> Result<[u32; 4], Fail> {
    let geometry = sizes(&image(alloc, SMALL, &[])?)?;
    let mut blocks = opened(alloc, answers, &geometry)?;
    Ok(act_on(&mut blocks, &geometry, act)?)
}

#[test]
fn volumes_over_a_link(rt: HostRuntime) -> Result<(), Fail> {
    for (number, (act, answers, wanted)) in ROWS.iter().enumerate() {
        if done(rt.alloc(), *act, answers)? != *wanted {
            return Err(Fail::new(format_args!("row {number}")));
        }
    }
    Ok(())
}
