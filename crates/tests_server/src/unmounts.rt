//! What is read and written of a volume that was mounted, and why it isn't unmounted.
ghost use Rattle.cached_blocks.specs.World.{stored_caching};
ghost use Rattle.vfs.specs.Server.{IsOpen};

use crate::answered::{gives, mounted_over, reads_of};
use cached_blocks::{Caches, Stored};
use file_server::FileServer;
use fixtures::lists::{moved, told};
use fixtures::new_volume;
use message::Incoming;
use reissue::link::Link;
use reissue::list_link::ListLink;
use reply_text::text::OutcomeText;
use std::alloc::{AllocError, Global};
use std::test::Fail;
use tests_texts::{are_told, is_told};
use tree::{Call, OpenFlags, PathFrom, Reply, Start, Who};
use vfs::Server;
use vfs::unmounting::UnmountRefusal;

/// What is done with a volume.
enum Step {
    /// A call of user 0 is made at this time.
    Call(u32, Call<'static>),
    /// It is unmounted.
    Unmount,
}

/// What the link gives once the first call has read the root's inode.
enum Then {
    /// The first driver answers request 19, of 1024 bytes.
    Answers,
    /// The device is given up.
    GivesUp,
    /// It ends.
    Ends,
}

/// The root.
const TOP: PathFrom<'static> = PathFrom {
    start: Start::Root,
    bytes: b"/",
};

/// Looks at the root.
const STAT: Step = Step::Call(100, Call::Stat { path: TOP });

/// Makes a root that only its owner may use.
const CHMOD: Step = Step::Call(
    100,
    Call::Chmod {
        path: TOP,
        mode: 0o700,
    },
);

/// Opens the root.
const OPEN: Step = Step::Call(
    101,
    Call::Open {
        path: TOP,
        flags: OpenFlags::READ,
        mode: 0,
    },
);

/// Closes it.
const CLOSE: Step = Step::Call(102, Call::Close { fd: 0 });

/// What a mount reads of a volume of 65536 bytes: its first 2048 bytes, and then all others. It leaves nothing in memory, so the first
/// call reads the block of the root's inode.
const READS: &str = "read 1 0 2048
read 2 2048 4096
read 3 6144 4096
read 4 10240 4096
read 5 14336 4096
read 6 18432 4096
read 7 22528 4096
read 8 26624 4096
read 9 30720 4096
read 10 34816 4096
read 11 38912 4096
read 12 43008 4096
read 13 47104 4096
read 14 51200 4096
read 15 55296 4096
read 16 59392 4096
read 17 63488 2048
read 18 4096 1024
";

/// What comes then, what is done with a volume, each step with what comes of it, and what the link was told after those reads. The first
/// byte of the root's inode is the low one of its mode: 192 of 0040700.
static ROWS: [(Then, &[(Step, &str)], &str); 6] = [
    (
        Then::Answers,
        &[(
            STAT,
            "inode 1 mode 0040755 links 2 uid 0 gid 0 size 128 times 50 50 50",
        )],
        "",
    ),
    // what was changed is written
    (
        Then::Answers,
        &[(CHMOD, "ok"), (Step::Unmount, "unmounted")],
        "write 19 4096 1024 192\n",
    ),
    // where a file is open nothing is written; once it is closed all is
    (
        Then::Answers,
        &[(CHMOD, "ok"), (OPEN, "fd 0"), (Step::Unmount, "3 Busy")],
        "",
    ),
    (
        Then::Answers,
        &[
            (CHMOD, "ok"),
            (OPEN, "fd 0"),
            (Step::Unmount, "3 Busy"),
            (CLOSE, "ok"),
            (Step::Unmount, "unmounted"),
        ],
        "write 19 4096 1024 192\n",
    ),
    // the link ends, or the device is given up, while the change is written; from then on nothing is done
    (
        Then::Ends,
        &[
            (CHMOD, "ok"),
            (Step::Unmount, "1 LinkEnded"),
            (Step::Unmount, "1 LinkEnded"),
        ],
        "write 19 4096 1024 192\n",
    ),
    (
        Then::GivesUp,
        &[
            (CHMOD, "ok"),
            (Step::Unmount, "2 Eio"),
            (Step::Unmount, "2 Eio"),
        ],
        "write 19 4096 1024 192\n",
    ),
];

/// Does a step, and tells what comes of it.
fn does<B: Caches>(alloc: Global, server: &mut Server<B>, step: &Step) -> Result<String, AllocError>
    requires { IsOpen B.caching server.old }
    ensures { IsOpen B.caching server.new }
{
    let who = Who {
        session: 0,
        uid: 0,
        gid: 0,
    };
    match step {
        Step::Call(now, call) => {
            let mut reply = Reply::Done;
            let ending = server.call(who, *now, call, &mut reply);
            let outcome = ending.with(reply);
            let shown = OutcomeText(&outcome);
            format!(in alloc; "{shown}")
        }
        Step::Unmount => match server.unmount() {
            Ok(()) => "unmounted".to_string(alloc),
            Err(refusal) => {
                let number = refusal.number();
                format!(in alloc; "{number} {refusal}")
            }
        },
    }
}

/// Does these steps, up to the first of which something else comes than it says.
fn first_other<B: Caches>(
    alloc: Global,
    server: &mut Server<B>,
    steps: &[(Step, &'static str)],
) -> Result<Option<usize>, AllocError>
    requires { IsOpen B.caching server.old }
{
    let mut done = 0usize;
    for step in steps {
        if does(alloc, server, &step.0)?.as_str() != step.1 {
            return Ok(Some(done));
        }
        done = done.saturating_add(1);
    }
    Ok(None)
}

/// The messages of a mount of a new volume and of the first call, and what comes then.
fn messages(alloc: Global, then: &Then) -> Result<Vec<Incoming>, AllocError> {
    let image = new_volume(alloc, 1024)?;
    let mut messages = reads_of(alloc, &image, 17)?;
    messages.push(gives(18, image.get(4096..5120).unwrap_or(&[])))?;
    match then {
        Then::Answers => messages.push(moved(1, 19, 1024, 0))?,
        Then::GivesUp => messages.push(Incoming::GaveUp)?,
        Then::Ends => {}
    }
    Ok(messages)
}

/// These things are done with a volume: it is an error where something else comes of one, or the link was told something else.
fn is_used(
    alloc: Global,
    row: usize,
    server: &mut Server<Stored<ListLink>>,
    steps: &[(Step, &'static str)],
    lines: &str,
) -> Result<(), Fail>
    requires { IsOpen (stored_caching ⟦<ListLink as Link>⟧) server.old }
{
    if let Some(step) = first_other(alloc, server, steps)? {
        return Err(Fail::new(format_args!("step {step} of row {row}")));
    }
    let told = told(alloc, server.link())?;
    is_told(
        told.as_str().strip_prefix(READS).unwrap_or("not read"),
        lines,
    )
}

/// A row comes out as it says.
fn comes_out(
    alloc: Global,
    row: usize,
    then: &Then,
    steps: &[(Step, &'static str)],
    lines: &str,
) -> Result<(), Fail> {
    match mounted_over(alloc, messages(alloc, then)?, 16)? {
        Ok(mut server) => is_used(alloc, row, &mut server, steps, lines),
        Err(_) => Err(Fail::new(format_args!("row {row}: not mounted"))),
    }
}

#[test]
fn volumes_are_used_and_unmounted(rt: HostRuntime) -> Result<(), Fail> {
    for (row, (then, steps, lines)) in ROWS.iter().enumerate() {
        comes_out(rt.alloc(), row, then, steps, lines)?;
    }
    Ok(())
}

/// Why a volume isn't unmounted.
static NAMES: [(UnmountRefusal, &str); 3] = [
    (UnmountRefusal::LinkEnded, "LinkEnded"),
    (UnmountRefusal::Eio, "Eio"),
    (UnmountRefusal::Busy, "Busy"),
];

#[test]
fn refusals_are_named(rt: HostRuntime) -> Result<(), Fail> {
    are_told(rt.alloc(), &NAMES)
}
