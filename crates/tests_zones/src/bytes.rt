//! Writes of many pages at once.

use crate::calls::{Call, DONE};
use crate::images::{EMPTY, SMALL, volume};
use block_store::Halt;
use std::test::Fail;

#[test]
fn many_pages_at_once(rt: HostRuntime) -> Result<(), Fail> {
    let mut bytes = vec![in rt.alloc(); 0u8; 18432]?;
    for (place, byte) in bytes.iter_mut().enumerate() {
        *byte = (place % 251) as u8;
    }
    let steps = [
        // pages 8 and 10, and the single's block
        (Call::Write(8192, b"a"), DONE),
        (Call::Write(10240, b"b"), DONE),
        (Call::Free, Ok(55)),
        // pages 6 to 24, over both of these; and once more, a byte further on, where all pages are held
        (Call::Write(7166, &bytes), DONE),
        (Call::Read(7166, 18432, &bytes), Ok(18432)),
        (Call::Free, Ok(38)),
        (Call::Write(7167, &bytes), DONE),
        (Call::Read(7167, 18432, &bytes), Ok(18432)),
        (Call::Free, Ok(38)),
        (Call::Read(7166, 3, b"\0\0\x01"), Ok(3)),
    ];
    volume(rt.alloc(), SMALL, &EMPTY)?.gives("many pages", 1, &steps)
}

#[test]
fn all_bytes_or_none(rt: HostRuntime) -> Result<(), Fail> {
    let bytes = vec![in rt.alloc(); 0x61u8; 58368]?;
    let steps = [
        // 57 pages and the single's block are the 58 zones
        (Call::Room(0, 58368), Ok(1)),
        (Call::Room(0, 58369), Ok(0)),
        (Call::Room(2147418111, 65536), Ok(0)),
        (Call::Write(0, &bytes), DONE),
        (Call::Free, Ok(0)),
        (Call::Read(58366, 2, b"aa"), Ok(2)),
        // what is held takes none
        (Call::Room(0, 58368), Ok(1)),
        (Call::Room(58367, 2), Ok(0)),
        (Call::Write(58367, b"bb"), Err(Halt::Unsound)),
    ];
    volume(rt.alloc(), SMALL, &EMPTY)?.gives("all bytes", 1, &steps)
}
