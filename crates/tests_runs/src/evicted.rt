//! A block whose frame was evicted is read again: by the next driver, where the first one has died meanwhile.

use crate::compared::shown::volume_shows;
use new_volume::mkfs;
use std::alloc::{AllocError, Global};
use std::test::Fail;

/// How many blocks are read in between, of which one has the numbers of those from the eighth page on: one more than there are frames.
const OTHERS: u32 = 65;

/// Puts bytes at a place.
fn put(image: &mut Vec<u8>, at: usize, bytes: &[u8]) {
    for (place, byte) in image.iter_mut().skip(at).zip(bytes) {
        *place = *byte;
    }
}

/// The inode of a file of 65 pages: its mode, links, owner, size and times, and the numbers of its zones.
const INODE: [u8; 56] = [
    0xa4, 0x81, 1, 0, 0, 0, 0, 0, 0, 4, 1, 0, 50, 0, 0, 0, 50, 0, 0, 0, 50, 0, 0, 0, 7, 0, 0, 0, 8,
    0, 0, 0, 9, 0, 0, 0, 10, 0, 0, 0, 11, 0, 0, 0, 12, 0, 0, 0, 13, 0, 0, 0, 14, 0, 0, 0,
];

/// A volume of 128 blocks of 1024 bytes with the file `/f`, inode 2. Its pages are blocks 7 to 13 and, by the numbers in block 14, blocks
/// 15 to 72. Each byte of the first page is 0x31, of each other one 0x32.
fn volume(alloc: Global) -> Result<Vec<u8>, Fail> {
    let mut image = mkfs(alloc, 128, 1024, 32, 50)?;
    put(&mut image, 2048, &[7]);
    put(&mut image, 3072, &[0xff; 8]);
    put(&mut image, 3080, &[0x0f]);
    put(&mut image, 4104, &[192]);
    put(&mut image, 4160, &INODE);
    put(&mut image, 6272, &[2, 0, 0, 0, b'f']);
    put(&mut image, 7168, &[0x31; 1024]);
    for block in 8..73u8 {
        put(
            &mut image,
            usize::from(block).saturating_mul(1024),
            &[0x32; 1024],
        );
    }
    put(&mut image, 14336, &[0; 1024]);
    for zone in 15..73u8 {
        let at = usize::from(zone).saturating_sub(15).saturating_mul(4);
        put(&mut image, at.saturating_add(14336), &[zone]);
    }
    Ok(image)
}

/// The inodes are read, the root's entries, and the first page.
const BEGUN: &str = "\
call 0 0 0 100 open /f r 0
step 1
step 1
deliver 0
step 1
step 1
deliver 1
call 0 0 0 100 read 0 1
step 1
step 1
deliver 2
call 0 0 0 100 seek 0 set 1024
call 0 0 0 100 read 0 65536
";

/// The driver dies, and the first page is read again, behind the inode, whose block lost its frame, too.
const AGAIN: &str = "\
die 1
tick
call 0 0 0 100 seek 0 set 0
step 2
step 2
deliver 68
call 0 0 0 100 read 0 1
step 2
step 2
deliver 69
";

/// The steps of the first driver at all other pages.
fn schedule(alloc: Global) -> Result<String, AllocError> {
    let mut schedule = String::new(alloc);
    schedule.push_str(BEGUN)?;
    for other in 0..OTHERS {
        let answer = other.saturating_add(3);
        write!(schedule, "step 1\nstep 1\ndeliver {answer}\n")?;
    }
    schedule.push_str(AGAIN)?;
    Ok(schedule)
}

/// What is shown of it.
fn shown(alloc: Global) -> Result<String, AllocError> {
    let mut shown = String::new(alloc);
    shown.push_str(
        "\
started 1.1
issue 1 read 4096 1024 to 1.1
answer 1 1024 from 1.1
issue 2 read 6144 1024 to 1.1
answer 2 1024 from 1.1
reply 0 fd 0
issue 3 read 7168 1024 to 1.1
answer 3 1024 from 1.1
reply 0 bytes 31
reply 0 at 1024
",
    )?;
    for other in 0..OTHERS {
        let id = other.saturating_add(4);
        let place = other.saturating_add(8).saturating_mul(1024);
        write!(
            shown,
            "issue {id} read {place} 1024 to 1.1\nanswer {id} 1024 from 1.1\n"
        )?;
    }
    let others = "32".repeat(alloc, 65536)?;
    write!(shown, "reply 0 bytes {others}\n")?;
    shown.push_str(
        "\
fault 1.1 exit
started 1.2
issue 69 read 4096 1024 to 1.2
answer 69 1024 from 1.2
reply 0 at 0
issue 70 read 7168 1024 to 1.2
answer 70 1024 from 1.2
reply 0 bytes 31
unanswered 0
",
    )?;
    Ok(shown)
}

#[test]
fn an_evicted_block_is_right_again(rt: HostRuntime) -> Result<(), Fail> {
    let alloc = rt.alloc();
    let image = volume(alloc)?;
    let (schedule, shown) = (schedule(alloc)?, shown(alloc)?);
    volume_shows(alloc, &image, &schedule, &shown, 0)
}
