//! What sessions of one service leave open is closed when they end: a file without a name has then given its zones and its inode back.
use fixtures::new_volume;
use fixtures_plays::plays::Play;
use std::test::Fail;

/// Each makes a file, writes to it, takes its name away and leaves it open.
const LEAVE: [Option<&[u8]>; 3] = [
    Some(
        b"user 0 0
100 open /a rwc 644
100 fill 0 3000 61
100 unlink /a
",
    ),
    Some(
        b"user 0 0
100 open /b rwc 644
100 fill 0 3000 62
100 unlink /b
",
    ),
    Some(
        b"user 0 0
100 open /c rwc 644
100 fill 0 3000 63
100 unlink /c
",
    ),
];

const LEFT: &str = "session 0
fd 0
wrote 3000
ok
session 1
fd 0
wrote 3000
ok
session 2
fd 0
wrote 3000
ok
";

/// The room that is left.
const ROOM: Option<&[u8]> = Some(
    b"user 0 0
200 statfs
200 stat /
",
);

/// That of a new volume: the root alone has a zone and an inode. It was written to at 100, and its times say so.
const NEW: &str = "session 0
block 1024 zones 58 free 57 inodes 32 free 31
inode 1 mode 0040755 links 2 uid 0 gid 0 size 128 times 50 100 100
";

#[test]
fn what_is_left_open_is_closed(rt: HostRuntime) -> Result<(), Fail> {
    let image = new_volume(rt.alloc(), 1024)?;
    let played = Play::new(&image, &LEAVE).played(rt.alloc(), rt)?;
    played.gave(0, LEFT, "")?;
    assert!(rt; played.is_clean(rt.alloc()));
    Play::new(played.left(), &[ROOM]).gives(rt.alloc(), rt, 0, NEW, "")
}
