//! A volume of 67108864 bytes, which are as many as media have: it is checked, mounted and written.
use fixtures_plays::plays::Play;
use new_volume::mkfs;
use std::test::Fail;

/// The room, then a file, and the room again.
const SCRIPT: Option<&[u8]> = Some(
    b"user 0 0
100 statfs
100 open /f rwc 644
100 fill 0 4096 31
100 statfs
",
);

/// Of 16384 blocks of 4096 bytes with 64 inodes five stand in front of the zones: two, one of each map, and one of inodes. The root has a
/// zone and an inode.
const TOLD: &str = "session 0
block 4096 zones 16379 free 16378 inodes 64 free 63
fd 0
wrote 4096
block 4096 zones 16379 free 16377 inodes 64 free 62
";

#[test]
fn the_largest_volume_is_mounted(rt: HostRuntime) -> Result<(), Fail> {
    let image = mkfs(rt.alloc(), 16384, 4096, 64, 50)?;
    Play::new(&image, &[SCRIPT]).gives(rt.alloc(), rt, 0, TOLD, "")
}
