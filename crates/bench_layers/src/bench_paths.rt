//! Measures `stat` of a path of 8 names, each in a directory of 1000 names whose blocks are in memory: with names that a cache of names
//! keeps, and with a cache that keeps none yet.

mod trees;

ghost use Rattle.layout.specs.Places.{IsGeometry};
ghost use Rattle.block_store.specs.Volume.{IsOn};

use crate::bench_names::scans::{NAMES, name_of};
use crate::sizes::{large_blocks, small_blocks};
use block_store::Blocks;
use calls_attributes::stat;
use layout::Geometry;
use path::NameCache;
use std::alloc::{AllocError, Global};
use std::io;
use std::time::Instant;
use tree::{PathFrom, Reply, User};
use trees::{DIRECTORIES, ROOM, Tree};

/// How often a stat is made; the least time is told.
const ROUNDS: u32 = 1000;

/// How many blocks each volume has.
const ZONES: u32 = (DIRECTORIES + 1) * ROOM;

/// The path of the names of a number.
fn path_of(alloc: Global, number: u32) -> Result<Vec<u8>, AllocError> {
    let mut path = Vec::new(alloc);
    for _ in 0..DIRECTORIES {
        path.push(b'/')?;
        path.extend_from_slice(&name_of(number))?;
    }
    Ok(path)
}

/// Asks for a path as user 0; whether it leads to an inode.
fn is_there<B: Blocks>(
    blocks: &mut B,
    names: &mut NameCache,
    geometry: &Geometry,
    path: &[u8],
) -> bool
    requires on { IsOn B.world geometry.now blocks.old }
    ensures { IsOn B.world geometry.now blocks.new }
{
    let user = User { uid: 0, gid: 0 };
    let mut reply = Reply::Done;
    let path = PathFrom::root(path);
    let ended = stat(blocks, names, geometry, user, path, &mut reply);
    ended.is_ok() && matches!(reply, Reply::Inode(_))
}

/// The least time of a stat of a path, in nanoseconds, and how many led to an inode: by one cache for all, or by a new one for each.
fn measured(
    rt: &HostRuntime,
    tree: &mut Tree,
    path: &[u8],
    is_kept: bool,
) -> io::Result<(u128, u32)> {
    let mut least = u128::MAX;
    let mut found = 0u32;
    let mut names = NameCache::new(rt.alloc());
    for _ in 0..ROUNDS {
        if !is_kept {
            names = NameCache::new(rt.alloc());
        }
        let start = Instant::now(rt)?;
        let there = is_there(&mut tree.blocks, &mut names, &tree.geometry, path);
        least = least.min(start.elapsed(rt)?.as_nanos());
        found = found.saturating_add(u32::from(there));
    }
    Ok((least, found))
}

/// Measures paths of the names that stand first, in the middle and last.
fn measure(rt: &HostRuntime, geometry: Geometry) -> io::Result<()>
    requires { IsGeometry geometry }
{
    let alloc = rt.alloc();
    let block = geometry.block_size;
    let mut tree = Tree::new(alloc, geometry)?;
    for (place, number) in [
        ("first", 0),
        ("in the middle", NAMES / 2),
        ("last", NAMES - 1),
    ] {
        let path = path_of(alloc, number)?;
        for (what, is_kept) in [("kept", true), ("not kept", false)] {
            let (nanos, found) = measured(rt, &mut tree, &path, is_kept)?;
            eprintln!(*rt;
                "blocks of {block}, stat of 8 names that stand {place}, {what}: {nanos} nanoseconds, {found} found"
            )?;
        }
    }
    Ok(())
}

/// Measures directories in blocks of 1024 bytes, and in blocks of 4096.
pub fn run(rt: &HostRuntime) -> io::Result<()> {
    measure(rt, small_blocks(ZONES))?;
    measure(rt, large_blocks(ZONES))
}
