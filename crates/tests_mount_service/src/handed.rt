//! What becomes of the image that a mount leaves. The links of the root, at byte 4098, are 2 in a new volume.

ghost use Rattle.std.specs.Prelude.{⊤, ◌≡◌, if◌then◌else◌, is_ok};

use crate::mounted::mounted;
use archive::Archive;
use errno::Errno;
use mount_service::handing::{HandedOn, hand_left, let_go};
use mount_service::mount::{Ended, MountStatus};
use mount_service::program::LastSync;
use output::Told;
use redo::Puts;
use std::alloc::Global;
use std::sync::Wait;
use std::test::Fail;
use std::thread::Threads;
use std::time::Clock;
use volume_commands::handing::ImagePlace;

/// A place of an image in memory, which takes one or refuses it. As an archive it takes no changes.
#[derive(Drop)]
struct Shelf {
    alloc: Global,
    takes: bool,
    image: Vec<u8>,
}

impl Shelf {
    /// An empty one.
    fn new(alloc: Global, takes: bool) -> Shelf {
        Shelf {
            alloc,
            takes,
            image: Vec::new(alloc),
        }
    }

    /// Takes an image, or refuses it. Whether it did.
    fn take(&mut self, image: &[u8]) -> bool
        ensures { self.new.image.items ≡ (if result then image.now else self.old.image.items) }
    {
        if !self.takes {
            return false;
        }
        match Vec::from_slice(self.alloc, image) {
            Ok(bytes) => {
                self.image = bytes;
                true
            }
            Err(_) => false,
        }
    }
}

impl ImagePlace for Shelf {
    ghost puts = { λ s image put t. t.image.items ≡ (if put then image else s.image.items) };

    fn put(&mut self, image: &[u8]) -> bool {
        self.take(image)
    }
}

impl Archive for Shelf {
    ghost puts = { λ _ _ _ _. ⊤ };

    ghost ends = { λ s image answer t. t.image.items ≡ (if is_ok answer then image else s.image.items) };

    fn put<P: Puts>(&mut self, _changes: &P) -> Result<(), Errno> {
        Ok(())
    }

    fn finish(&mut self, image: &[u8]) -> Result<(), Errno> {
        if self.take(image) {
            Ok(())
        } else {
            Err(Errno::EIO)
        }
    }
}

/// How a mount ended; the root's links; whether the archive takes an image, and what is beside; how the mount ended once its image was
/// handed on, and what was told of that; whether the image is in the archive then, and beside.
type Row = (
    MountStatus,
    u8,
    (bool, bool),
    MountStatus,
    &'static str,
    (bool, bool),
);

const REFUSED: MountStatus = MountStatus::Refused(Told::Whole);

/// What is told of a root with three links.
const LINKS: &str = "NotClean finding 16 at 1\nimage left in v.img.given-up\n";

const LOST: &str = "NotClean finding 16 at 1\ncannot write v.img.given-up\n";

const UNWRITTEN: &str = "cannot write v.img\nimage left in v.img.given-up\n";

const LOST_UNWRITTEN: &str = "cannot write v.img\ncannot write v.img.given-up\n";

const UNREAD: &str = "NotAsRead\nimage left in v.img.given-up\n";

const LOST_UNREAD: &str = "NotAsRead\ncannot write v.img.given-up\n";

static ROWS: [Row; 11] = [
    (
        MountStatus::Done,
        2,
        (true, true),
        MountStatus::Done,
        "",
        (true, false),
    ),
    (
        MountStatus::GivenUp,
        2,
        (true, true),
        MountStatus::GivenUp,
        "",
        (true, false),
    ),
    (
        MountStatus::Done,
        2,
        (false, true),
        REFUSED,
        UNWRITTEN,
        (false, true),
    ),
    (
        MountStatus::Done,
        2,
        (false, false),
        REFUSED,
        LOST_UNWRITTEN,
        (false, false),
    ),
    (
        MountStatus::Done,
        3,
        (true, true),
        REFUSED,
        LINKS,
        (false, true),
    ),
    (
        MountStatus::GivenUp,
        3,
        (true, true),
        MountStatus::GivenUp,
        LINKS,
        (false, true),
    ),
    (
        MountStatus::Cut,
        3,
        (true, true),
        MountStatus::Cut,
        LINKS,
        (false, true),
    ),
    (
        MountStatus::Cut,
        3,
        (true, false),
        REFUSED,
        LOST,
        (false, false),
    ),
    (
        MountStatus::NotAsRead,
        2,
        (true, true),
        REFUSED,
        UNREAD,
        (false, true),
    ),
    (
        MountStatus::NotAsRead,
        3,
        (true, true),
        REFUSED,
        UNREAD,
        (false, true),
    ),
    (
        MountStatus::NotAsRead,
        2,
        (true, false),
        REFUSED,
        LOST_UNREAD,
        (false, false),
    ),
];

/// Whether a place has this image, or none.
fn has_taken(shelf: &Shelf, image: &[u8], taken: bool) -> bool {
    let wanted = if taken { image } else { &[] };
    shelf.image.as_slice() == wanted
}

/// How the last sync of a mount went that ended so.
fn last_sync_of(mount: MountStatus) -> LastSync {
    match mount {
        MountStatus::NotAsRead => LastSync::NotAsRead,
        _ => LastSync::Done,
    }
}

/// A mount leaves an image, in which the root gets so many links, and which is handed on as a row says.
fn is_handed_on<R: Threads + Wait + Clock + Copy + Send + Sync + 'static>(
    alloc: Global,
    rt: R,
    row: &Row,
) -> Result<(), Fail> {
    let (mount, links, (archive, beside), ended, line, (there, aside)) = *row;
    let mut left = mounted(alloc, rt, &[], Some(Shelf::new(alloc, archive)))?;
    let mut image = Vec::new(alloc);
    if let Some(came) = &mut left.came {
        came.last_sync = last_sync_of(mount);
        for byte in came.image.iter_mut().skip(4098).take(1) {
            *byte = links;
        }
        image.extend_from_slice(&came.image)?;
    }
    let left = Ended {
        status: mount,
        came: left.came,
    };
    let mut beside = Shelf::new(alloc, beside);
    let mut err = Vec::new(alloc);
    let HandedOn { status, archive } = hand_left(alloc, left, 0, "v.img", &mut beside, &mut err);
    let archive = archive.ok_or("no archive")?;
    let is_told = status == ended && err.as_slice() == line.as_bytes();
    if is_told && has_taken(&archive, &image, there) && has_taken(&beside, &image, aside) {
        return Ok(());
    }
    let told = str::from_utf8(err.as_slice()).unwrap_or("no text");
    Err(Fail::new(format_args!("{status:?} {told}")))
}

/// Only an image of a clean volume that is as it was read back goes into the archive at the end; another one goes beside, and that is told,
/// whatever came before.
#[test]
fn clean_images_alone_are_handed_on(rt: HostRuntime) -> Result<(), Fail> {
    for row in &ROWS {
        is_handed_on(rt.alloc(), rt, row)?;
    }
    Ok(())
}

/// How a mount ends that ended so, and leaves an image which is handed on nowhere; and what is told.
static LET_GO: [(MountStatus, MountStatus, &str); 3] = [
    (MountStatus::Done, MountStatus::Done, ""),
    (MountStatus::GivenUp, MountStatus::GivenUp, ""),
    (MountStatus::NotAsRead, REFUSED, "NotAsRead\n"),
];

/// An image that isn't as it was read back is told of where none is kept, too.
#[test]
fn unread_images_are_told_of(rt: HostRuntime) -> Result<(), Fail> {
    for (mount, ended, line) in &LET_GO {
        let mut left = mounted(rt.alloc(), rt, &[], None::<Shelf>)?;
        if let Some(came) = &mut left.came {
            came.last_sync = last_sync_of(*mount);
        }
        let left = Ended {
            status: *mount,
            came: left.came,
        };
        let mut err = Vec::new(rt.alloc());
        let status = let_go(rt.alloc(), left, &mut err);
        if status != *ended || err.as_slice() != line.as_bytes() {
            return Err(Fail::new(format_args!("{status:?} and not {ended:?}")));
        }
    }
    Ok(())
}
