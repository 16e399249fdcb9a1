//! Measures how long it takes to make and to check volumes of 64 MiB, beside plain work over as many bytes. It does so once: the program
//! is started again for more.

pub(crate) mod filled;

use crate::timing::micros_since;
use filled::{Kind, Version, filled};
use fsck::{Verdict, check};
use new_volume::mkfs;
use std::io;
use std::time::Instant;

/// How many bytes each volume has.
pub(crate) const BYTES: usize = 67108864;

/// The volumes that are checked.
const KINDS: [(&str, Kind); 4] = [
    (
        "large files in blocks of 4096",
        Kind {
            version: Version::Three,
            block_size: 4096,
            inodes: 1024,
            names: 16,
        },
    ),
    (
        "large files in blocks of 1024",
        Kind {
            version: Version::Three,
            block_size: 1024,
            inodes: 1024,
            names: 16,
        },
    ),
    (
        "65535 inodes",
        Kind {
            version: Version::Three,
            block_size: 4096,
            inodes: 65535,
            names: 65534,
        },
    ),
    (
        "a directory of 30000 names",
        Kind {
            version: Version::Three,
            block_size: 1024,
            inodes: 30016,
            names: 30000,
        },
    ),
];

/// The sum of some bytes, as a machine's words have it.
fn sum_of(bytes: &[u8]) -> u64 {
    let mut sum = 0u64;
    for byte in bytes {
        sum = sum.wrapping_add(u64::from(*byte));
    }
    sum
}

/// Measures zeros, and making a volume of as many bytes.
fn measure_mkfs(rt: &HostRuntime) -> io::Result<()> {
    let start = Instant::now(rt)?;
    let zeros = vec![in rt.alloc(); 0u8; BYTES]?;
    let plain = micros_since(rt, start)?;
    let start = Instant::now(rt)?;
    let made = mkfs(rt.alloc(), 16384, 4096, 16384, 50);
    let took = micros_since(rt, start)?;
    let (last, made) = (zeros.last().copied(), made.is_ok());
    eprintln!(*rt; "mkfs: {took} microseconds; as many zeros: {plain}; ({last:?}, {made})")
}

/// Measures a check, and a sum of the same bytes.
fn measure_check(rt: &HostRuntime, name: &str, kind: Kind) -> io::Result<()> {
    let Some(image) = filled(rt.alloc(), kind) else {
        return eprintln!(*rt; "{name}: there is no such volume");
    };
    let start = Instant::now(rt)?;
    let sum = sum_of(&image);
    let plain = micros_since(rt, start)?;
    let start = Instant::now(rt)?;
    let verdict = check(rt.alloc(), &image);
    let took = micros_since(rt, start)?;
    match verdict {
        Ok(Verdict::Clean(_)) => {
            eprintln!(*rt; "check of {name}: {took} microseconds; a sum: {plain}; {sum}")
        }
        Ok(Verdict::Found(finding)) => eprintln!(*rt; "{name}: {finding}"),
        Err(_) => eprintln!(*rt; "{name}: no memory"),
    }
}

/// Measures making a volume, and the check of each kind.
pub fn run(rt: &HostRuntime) -> io::Result<()> {
    measure_mkfs(rt)?;
    for (name, kind) in KINDS {
        measure_check(rt, name, kind)?;
    }
    Ok(())
}
