//! Drivers that fail, or answer an error or too little, in runs of a call that reads the root's inode.

use crate::compared::shown::{Faults, faults_show};
use errno::Errno;
use modeldisk::FaultKind;
use std::alloc::Global;
use std::test::Fail;

/// The drivers' faults, a schedule, what is shown of it, and the status.
type Row = (Faults<'static>, &'static str, &'static str, u8);

static ROWS: [Row; 4] = [
    // An error: the server complains, and asks the next driver.
    (
        &[Some((1, FaultKind::Error(Errno::EIO))), None],
        "\
call 0 0 0 100 stat /
step 1
step 1
deliver 0
tick
step 2
step 2
deliver 1
",
        "\
started 1.1
issue 1 read 4096 1024 to 1.1
answer 1 EIO from 1.1
fault 1.1 complaint
started 1.2
issue 1 read 4096 1024 to 1.2
answer 1 1024 from 1.2
reply 0 inode 1 mode 0040755 links 2 uid 0 gid 0 size 128 times 50 50 50
unanswered 0
",
        0,
    ),
    // There is no next one: the device is given up at once.
    (
        &[Some((1, FaultKind::Error(Errno::EIO)))],
        "\
call 0 0 0 100 stat /
step 1
step 1
deliver 0
",
        "\
started 1.1
issue 1 read 4096 1024 to 1.1
answer 1 EIO from 1.1
fault 1.1 complaint
given up
reply 0 EIO
unanswered 0
",
        3,
    ),
    // A sector of two: the rest is asked for.
    (
        &[Some((1, FaultKind::Short)), None],
        "\
call 0 0 0 100 stat /
step 1
step 1
deliver 0
step 1
deliver 1
",
        "\
started 1.1
issue 1 read 4096 1024 to 1.1
answer 1 512 from 1.1
issue 2 read 4608 512 to 1.1
answer 2 512 from 1.1
reply 0 inode 1 mode 0040755 links 2 uid 0 gid 0 size 128 times 50 50 50
unanswered 0
",
        0,
    ),
    // A step fails: the driver has exited.
    (
        &[Some((1, FaultKind::Die)), None],
        "\
call 0 0 0 100 stat /
step 1
step 1
tick
step 2
step 2
deliver 0
",
        "\
started 1.1
issue 1 read 4096 1024 to 1.1
fault 1.1 exit
started 1.2
issue 1 read 4096 1024 to 1.2
answer 1 1024 from 1.2
reply 0 inode 1 mode 0040755 links 2 uid 0 gid 0 size 128 times 50 50 50
unanswered 0
",
        0,
    ),
];

#[test]
fn drivers_fail(rt: HostRuntime) -> Result<(), Fail> {
    for (faults, schedule, transcript, status) in &ROWS {
        faults_show(rt.alloc(), faults, schedule, transcript, *status)?;
    }
    Ok(())
}

/// Each error that a driver may answer, and its name.
static ERRORS: [(Errno, &str); 19] = [
    (Errno::EPERM, "EPERM"),
    (Errno::ENOENT, "ENOENT"),
    (Errno::EIO, "EIO"),
    (Errno::EBADF, "EBADF"),
    (Errno::ENOMEM, "ENOMEM"),
    (Errno::EACCES, "EACCES"),
    (Errno::EBUSY, "EBUSY"),
    (Errno::EEXIST, "EEXIST"),
    (Errno::ENOTDIR, "ENOTDIR"),
    (Errno::EISDIR, "EISDIR"),
    (Errno::EINVAL, "EINVAL"),
    (Errno::ENFILE, "ENFILE"),
    (Errno::EMFILE, "EMFILE"),
    (Errno::EFBIG, "EFBIG"),
    (Errno::ENOSPC, "ENOSPC"),
    (Errno::EMLINK, "EMLINK"),
    (Errno::ENAMETOOLONG, "ENAMETOOLONG"),
    (Errno::ENOTEMPTY, "ENOTEMPTY"),
    (Errno::ELOOP, "ELOOP"),
];

/// A driver answers the read of the root's inode with an error. The next one is asked, and answers with an error too: there is no third.
const TWO_ERRORS: &str = "\
call 0 0 0 100 stat /
step 1
step 1
deliver 0
tick
step 2
step 2
deliver 1
";

/// The transcript names the errors that two drivers answer, the first and then the last of these. The call itself is answered EIO, as each
/// is once the device was given up.
fn are_shown(alloc: Global, first: &(Errno, &str), last: &(Errno, &str)) -> Result<(), Fail> {
    let faults = [
        Some((1, FaultKind::Error(first.0))),
        Some((1, FaultKind::Error(last.0))),
    ];
    let transcript = [
        "started 1.1\nissue 1 read 4096 1024 to 1.1\nanswer 1 ",
        first.1,
        " from 1.1\nfault 1.1 complaint\nstarted 1.2\nissue 1 read 4096 1024 to 1.2\nanswer 1 ",
        last.1,
        " from 1.2\nfault 1.2 complaint\ngiven up\nreply 0 EIO\nunanswered 0\n",
    ];
    let transcript = transcript.concat(alloc)?;
    faults_show(alloc, &faults, TWO_ERRORS, &transcript, 3)
}

#[test]
fn answers_name_their_errors(rt: HostRuntime) -> Result<(), Fail> {
    for (first, last) in ERRORS.iter().zip(ERRORS.iter().skip(1)) {
        are_shown(rt.alloc(), first, last)?;
    }
    Ok(())
}
