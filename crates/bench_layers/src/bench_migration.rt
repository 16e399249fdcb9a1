//! Measures how long it takes to migrate a full volume of version 2 of 64 MiB, beside writing as many bytes. It does so once: the program is
//! started again for more.

use crate::bench_volumes::BYTES;
use crate::bench_volumes::filled::{Kind, Version, filled};
use crate::timing::micros_since;
use migrate::migrate;
use std::alloc::{AllocError, Global};
use std::io;
use std::time::Instant;

/// Eight large files, whose zones are nearly all that there are. Some of them lie below the double indirect blocks.
const OLD: Kind = Kind {
    version: Version::Two,
    block_size: 1024,
    inodes: 1024,
    names: 8,
};

/// A copy in memory that wasn't used before.
fn copied(alloc: Global, bytes: &[u8]) -> Result<Vec<u8>, AllocError> {
    let mut copy = Vec::with_capacity(alloc, bytes.len())?;
    copy.extend_from_slice(bytes)?;
    Ok(copy)
}

/// Measures zeros, a copy of a volume, and its migration to a volume of as many blocks.
pub fn run(rt: &HostRuntime) -> io::Result<()> {
    let Some(old) = filled(rt.alloc(), OLD) else {
        return eprintln!(*rt; "migrate: there is no such volume");
    };
    let start = Instant::now(rt)?;
    let zeros = vec![in rt.alloc(); 0u8; BYTES]?;
    let cleared = micros_since(rt, start)?;
    let last = zeros.last().copied();
    drop(zeros);
    let start = Instant::now(rt)?;
    let copy = copied(rt.alloc(), &old)?;
    let plain = micros_since(rt, start)?;
    let size = copy.len();
    drop(copy);
    let start = Instant::now(rt)?;
    let migrated = migrate(rt.alloc(), &old, 65536);
    let took = micros_since(rt, start)?;
    match migrated {
        Ok(_) => {
            eprintln!(*rt;
                "migrate: {took} microseconds; a copy: {plain}; as many zeros: {cleared}; ({size}, {last:?})"
            )
        }
        Err(refusal) => eprintln!(*rt; "{refusal}"),
    }
}
