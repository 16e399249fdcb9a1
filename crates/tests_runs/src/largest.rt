//! A volume of 67108864 bytes, which are as many as media have: it is checked, and a call reads of it.

use crate::compared::shown::volume_shows;
use new_volume::mkfs;
use std::test::Fail;

/// The block of the root's inode is read, sector by sector.
const SCHEDULE: &str = "\
call 0 0 0 100 stat /
step 1
step 1
step 1
step 1
step 1
step 1
step 1
step 1
deliver 0
";

/// Of 16384 blocks of 4096 bytes with 64 inodes the first two, one of each map, and then that of the inodes.
const SHOWN: &str = "\
started 1.1
issue 1 read 16384 4096 to 1.1
answer 1 4096 from 1.1
reply 0 inode 1 mode 0040755 links 2 uid 0 gid 0 size 128 times 50 50 50
unanswered 0
";

#[test]
fn the_largest_volume_is_read(rt: HostRuntime) -> Result<(), Fail> {
    let image = mkfs(rt.alloc(), 16384, 4096, 64, 50)?;
    volume_shows(rt.alloc(), &image, SCHEDULE, SHOWN, 0)
}
