//! What is refused, and which fault is told first.
use fixtures_plays::plays::HONEST;
use fixtures_plays::refusals::{Count, PlayedImage, Refused, are_first, are_refused};
use fixtures_plays::texts::are_answered;
use std::test::Fail;

/// A script.
const STAT: &[u8] = b"user 0 0\n100 stat /\n";

/// A script whose second line is bad.
const BAD: &[u8] = b"user 0 0\n100 stat\n";

/// No image, or no script.
const NONE: &[u8] = &[];

/// The image of a new volume.
const WHOLE: PlayedImage = PlayedImage::First(65536);

/// Files, lines and images.
static ROWS: [Refused; 33] = [
    (PlayedImage::Unread, 128, &[], HONEST, "cannot read v.img\n"),
    (
        PlayedImage::Unread,
        128,
        &[None],
        HONEST,
        "cannot read v.img\n",
    ),
    (
        PlayedImage::Unread,
        128,
        &[Some(BAD)],
        HONEST,
        "cannot read v.img\n",
    ),
    (
        PlayedImage::First(0),
        128,
        &[Some(BAD), None],
        HONEST,
        "cannot read t.txt\n",
    ),
    (
        PlayedImage::First(0),
        128,
        &[None, None],
        HONEST,
        "cannot read s.txt\n",
    ),
    (
        PlayedImage::First(0),
        128,
        &[Some(STAT), Some(BAD)],
        HONEST,
        "bad line 2 of t.txt\n",
    ),
    (
        PlayedImage::First(0),
        128,
        &[Some(BAD), Some(NONE)],
        HONEST,
        "bad line 2 of s.txt\n",
    ),
    (
        PlayedImage::First(0),
        128,
        &[Some(STAT), Some(STAT), Some(b"user 0\n")],
        HONEST,
        "bad line 1 of u.txt\n",
    ),
    (
        PlayedImage::First(0),
        128,
        &[Some(STAT), Some(STAT)],
        HONEST,
        "BadSetup\n",
    ),
    (WHOLE, 128, &[Some(BAD)], HONEST, "bad line 2 of s.txt\n"),
    (WHOLE, 128, &[Some(NONE)], HONEST, "bad line 1 of s.txt\n"),
    (
        WHOLE,
        128,
        &[Some(b"user 0 0")],
        HONEST,
        "bad line 1 of s.txt\n",
    ),
    (
        WHOLE,
        128,
        &[Some(b"user 0 65536\n")],
        HONEST,
        "bad line 1 of s.txt\n",
    ),
    (
        WHOLE,
        128,
        &[Some(b"user 0 0\n1 stat /\n2 stat /")],
        HONEST,
        "bad line 3 of s.txt\n",
    ),
    (
        WHOLE,
        128,
        &[Some(b"user 65536 0\n100 stat /\n")],
        HONEST,
        "bad line 1 of s.txt\n",
    ),
    (
        WHOLE,
        128,
        &[Some(b"user 0 0\n4294967296 stat /\n")],
        HONEST,
        "bad line 2 of s.txt\n",
    ),
    (
        WHOLE,
        128,
        &[Some(b"user 0 0\r\n100 stat /\n")],
        HONEST,
        "bad line 1 of s.txt\n",
    ),
    (
        WHOLE,
        128,
        &[Some(b"user 0 0\n100 sync\n\n100 sync\n")],
        HONEST,
        "bad line 3 of s.txt\n",
    ),
    (
        PlayedImage::Changed(1048, 0x00),
        128,
        &[Some(STAT)],
        HONEST,
        "Mount Layout BadMagic\n",
    ),
    (
        PlayedImage::Changed(1053, 0x05),
        128,
        &[Some(STAT)],
        HONEST,
        "Mount Layout BadBlockSize\n",
    ),
    (
        PlayedImage::Changed(1054, 0x01),
        128,
        &[Some(STAT)],
        HONEST,
        "Mount Layout BadVersion\n",
    ),
    (
        PlayedImage::Changed(1036, 0x01),
        128,
        &[Some(STAT)],
        HONEST,
        "Mount Layout BadVersion\n",
    ),
    (
        PlayedImage::Changed(1034, 0x07),
        128,
        &[Some(STAT)],
        HONEST,
        "Mount Layout BadCounts\n",
    ),
    // One block more than there are: the last read passes the end, and moves nothing there.
    (
        PlayedImage::Changed(1044, 0x41),
        128,
        &[Some(STAT)],
        HONEST,
        "Mount Eio\n",
    ),
    (
        PlayedImage::Changed(2048, 0x01),
        128,
        &[Some(STAT)],
        HONEST,
        "Mount Inconsistent finding 4 at 1\n",
    ),
    (
        PlayedImage::Changed(4097, 0x81),
        128,
        &[Some(STAT)],
        HONEST,
        "Mount Inconsistent finding 4 at 1\n",
    ),
    // Zone 7 is marked, and nothing names it.
    (
        PlayedImage::Changed(3072, 0x07),
        128,
        &[Some(STAT)],
        HONEST,
        "Mount Inconsistent finding 9 at 7\n",
    ),
    // The root has three links.
    (
        PlayedImage::Changed(4098, 0x03),
        128,
        &[Some(STAT)],
        HONEST,
        "Mount Inconsistent finding 16 at 1\n",
    ),
    // Drivers of other media than the image's are told before its superblock.
    (
        PlayedImage::Changed(1048, 0x00),
        127,
        &[Some(STAT)],
        HONEST,
        "BadSetup\n",
    ),
    // The first 2048 bytes, or the volume's last ones, aren't all there: a read past the end moves nothing, which is a driver's fault.
    (
        PlayedImage::First(1024),
        2,
        &[Some(STAT)],
        HONEST,
        "Mount Eio\n",
    ),
    (
        PlayedImage::First(1023),
        1,
        &[Some(STAT)],
        HONEST,
        "Media NotWholeSectors\n",
    ),
    (
        PlayedImage::First(65024),
        127,
        &[Some(STAT)],
        HONEST,
        "Mount Eio\n",
    ),
    (WHOLE, 128, &[Some(STAT)], &[], "NoDriver\n"),
];

#[test]
fn the_first_fault_is_told(rt: HostRuntime) -> Result<(), Fail> {
    are_first(rt.alloc(), rt, &ROWS)
}

static COUNTS: [Count; 4] = [
    (64, STAT, "BadSetup\n"),
    (65, STAT, "TooMany\n"),
    (65, BAD, "bad line 2 of w.txt\n"),
    (64, BAD, "bad line 2 of w.txt\n"),
];

/// A script of one call.
const SYNC: Option<&[u8]> = Some(b"user 0 0\n100 sync\n");

/// A script that opens the root twice, and closes nothing.
const OPEN: Option<&[u8]> = Some(b"user 0 0\n100 open / r 0\n100 open / r 0\n");

/// More scripts than sessions are refused once each line is read, and before anything starts: the driver is one of other media than the
/// image's. Each of 64 scripts has its session, and none is no fault. All of them are played at one time: 64 times two are as many open
/// files as there may be.
#[test]
fn scripts_are_sixty_four(rt: HostRuntime) -> Result<(), Fail> {
    are_refused(rt.alloc(), rt, STAT, &COUNTS)?;
    are_answered(rt.alloc(), rt, &[SYNC; 64], "ok")?;
    are_answered(rt.alloc(), rt, &[OPEN; 64], "fd 0\nfd 1")?;
    are_answered(rt.alloc(), rt, &[], "ok")
}
