//! Writers that fail, and writers that take little at a time; plays whose answers are lost, or whose image isn't clean or can't be written.
use fixtures_plays::writers::{HandedOn, Narrow, all_come_out, are_handed_on, is_let_go};
use output::Told;
use std::test::Fail;
use tools::play::{LastSync, PlayStatus};

/// A script, and what is printed of it on a new volume.
pub(crate) const STAT: &[u8] = b"user 0 0\n100 stat /\n";

pub(crate) const TOLD: &str =
    "session 0\ninode 1 mode 0040755 links 2 uid 0 gid 0 size 128 times 50 50 50\n";

/// Sets the root's mode: its inode begins with it, that of a directory of mode 0700.
const CHMOD: &[u8] = b"user 0 0\n100 chmod / 700\n100 stat /\n";

/// A play that was refused, or whose text was cut off, and a line that says so.
const CUT_OFF: PlayStatus = PlayStatus::Refused(Told::Whole);

/// The same, and a part of the line.
const PARTLY: PlayStatus = PlayStatus::Refused(Told::Partly);

const DONE: PlayStatus = PlayStatus::Done;

const GIVEN_UP: PlayStatus = PlayStatus::GivenUp;

/// Whether the place of an image takes one, and the one beside it.
const BOTH: (bool, bool) = (true, true);

const PLACE: (bool, bool) = (true, false);

const ASIDE: (bool, bool) = (false, true);

const NOWHERE: (bool, bool) = (false, false);

/// What is said of a script whose first line is bad.
const BAD_LINE: &str = "bad line 1 of s.txt\n";

/// That standard output took no more.
const LOST: &str = "cannot write standard output\n";

/// A script whose first line is bad.
const BAD: &[u8] = b"user 0\n";

/// Writers that fail, and then writers that go on.
static ROOMS: [Narrow; 13] = [
    // The text is cut off, which a line says, and the image is there all the same.
    (true, STAT, (99, 0, 99), CUT_OFF, ("", LOST), Some("")),
    (true, STAT, (99, 3, 99), CUT_OFF, ("ses", LOST), Some("")),
    (
        true,
        STAT,
        (99, 10, 99),
        CUT_OFF,
        ("session 0\n", LOST),
        Some(""),
    ),
    (
        true,
        STAT,
        (99, 11, 99),
        CUT_OFF,
        ("session 0\ni", LOST),
        Some(""),
    ),
    (
        true,
        STAT,
        (99, 70, 99),
        CUT_OFF,
        (
            "session 0\ninode 1 mode 0040755 links 2 uid 0 gid 0 size 128 times 50 5",
            LOST,
        ),
        Some(""),
    ),
    (
        true,
        CHMOD,
        (99, 10, 99),
        CUT_OFF,
        ("session 0\n", LOST),
        Some("left 4096 c0410200\n"),
    ),
    // There is no image, and room for three bytes of the line that says so.
    (
        false,
        STAT,
        (99, 99, 3),
        PlayStatus::Refused(Told::Partly),
        ("", "can"),
        None,
    ),
    // A writer that takes little at a time and goes on gets all of it.
    (
        true,
        STAT,
        (1, 99, 99),
        PlayStatus::Done,
        (TOLD, ""),
        Some(""),
    ),
    (
        true,
        STAT,
        (3, 99, 99),
        PlayStatus::Done,
        (TOLD, ""),
        Some(""),
    ),
    (
        true,
        STAT,
        (64, 99, 99),
        PlayStatus::Done,
        (TOLD, ""),
        Some(""),
    ),
    (true, BAD, (1, 99, 99), CUT_OFF, ("", BAD_LINE), None),
    (true, BAD, (3, 99, 99), CUT_OFF, ("", BAD_LINE), None),
    (true, BAD, (64, 99, 99), CUT_OFF, ("", BAD_LINE), None),
];

#[test]
fn writers_take_some(rt: HostRuntime) -> Result<(), Fail> {
    all_come_out(rt.alloc(), rt, &ROOMS)
}

/// That the file can't be written, and that the one beside it is, or isn't.
const UNWRITTEN: &str = "cannot write w.img\nimage left in w.img.given-up\n";

const LOST_UNWRITTEN: &str = "cannot write w.img\ncannot write w.img.given-up\n";

/// That the links of the root, one byte behind its mode, are wrong.
const LINKS: &str = "NotClean finding 16 at 1\nimage left in w.img.given-up\n";

/// Another number of them; another byte of the superblock's magic number; nothing else than in a new volume.
const THREE: Option<(usize, u8)> = Some((4098, 3));

const NO_MAGIC: Option<(usize, u8)> = Some((1048, 0x5b));

const SOUND: Option<(usize, u8)> = None;

/// Plays that ended in each way, and left a volume that is clean or not.
static ROWS: [HandedOn; 12] = [
    (DONE, (SOUND, 0, BOTH), DONE, "", (true, false)),
    (GIVEN_UP, (SOUND, 0, BOTH), GIVEN_UP, "", (true, false)),
    (CUT_OFF, (SOUND, 0, BOTH), CUT_OFF, "", (true, false)),
    (DONE, (SOUND, 0, ASIDE), CUT_OFF, UNWRITTEN, (false, true)),
    (
        GIVEN_UP,
        (SOUND, 0, ASIDE),
        CUT_OFF,
        UNWRITTEN,
        (false, true),
    ),
    (
        DONE,
        (SOUND, 0, NOWHERE),
        CUT_OFF,
        LOST_UNWRITTEN,
        (false, false),
    ),
    (DONE, (THREE, 0, BOTH), CUT_OFF, LINKS, (false, true)),
    (GIVEN_UP, (THREE, 0, BOTH), GIVEN_UP, LINKS, (false, true)),
    (PARTLY, (THREE, 0, BOTH), PARTLY, LINKS, (false, true)),
    (
        GIVEN_UP,
        (NO_MAGIC, 0, PLACE),
        CUT_OFF,
        "NotClean finding 1 at 2\ncannot write w.img.given-up\n",
        (false, false),
    ),
    (
        DONE,
        (SOUND, 1, BOTH),
        CUT_OFF,
        "Partition NoSignature\nimage left in w.img.given-up\n",
        (false, true),
    ),
    (
        DONE,
        (SOUND, 1, PLACE),
        CUT_OFF,
        "Partition NoSignature\ncannot write w.img.given-up\n",
        (false, false),
    ),
];

/// Only an image of a clean volume is handed on; another one goes beside, and that is told, whatever came before.
#[test]
fn clean_images_alone_are_handed_on(rt: HostRuntime) -> Result<(), Fail> {
    are_handed_on(rt.alloc(), "w.img", LastSync::Done, &ROWS)
}

/// A play whose text was all written.
const UNREAD: PlayStatus = PlayStatus::NotAsRead;

const LEFT_UNREAD: &str = "NotAsRead\nimage left in w.img.given-up\n";

const LOST_UNREAD: &str = "NotAsRead\ncannot write w.img.given-up\n";

/// Plays whose image isn't as it was read back, whatever its volume is.
static UNREAD_ROWS: [HandedOn; 5] = [
    (
        UNREAD,
        (SOUND, 0, BOTH),
        CUT_OFF,
        LEFT_UNREAD,
        (false, true),
    ),
    (
        UNREAD,
        (THREE, 0, BOTH),
        CUT_OFF,
        LEFT_UNREAD,
        (false, true),
    ),
    (
        UNREAD,
        (SOUND, 1, BOTH),
        CUT_OFF,
        LEFT_UNREAD,
        (false, true),
    ),
    (PARTLY, (SOUND, 0, BOTH), PARTLY, LEFT_UNREAD, (false, true)),
    (
        UNREAD,
        (SOUND, 0, PLACE),
        CUT_OFF,
        LOST_UNREAD,
        (false, false),
    ),
];

/// An image that isn't as it was read back goes beside, and is told of where no image is written.
#[test]
fn unread_images_are_refused(rt: HostRuntime) -> Result<(), Fail> {
    let alloc = rt.alloc();
    are_handed_on(alloc, "w.img", LastSync::NotAsRead, &UNREAD_ROWS)?;
    is_let_go(alloc, UNREAD, LastSync::NotAsRead, CUT_OFF, "NotAsRead\n")?;
    is_let_go(alloc, PARTLY, LastSync::NotAsRead, CUT_OFF, "NotAsRead\n")?;
    is_let_go(alloc, GIVEN_UP, LastSync::GivenUp, GIVEN_UP, "")
}
