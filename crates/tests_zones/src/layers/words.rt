//! Numbers and bytes in blocks.

ghost use Rattle.std.specs.Prelude.{◌≡◌};

use crate::layers::images::image_of;
use block_store::memory::Memory;
use block_store::words::{clear, read_byte, read_bytes, read_u32, write_bytes, write_u32};
use block_store::{Blocks, Cut};
use std::alloc::{AllocError, Global};
use std::test::Fail;

/// A byte of block 1, a number that was written into it, and half of that.
fn numbers(blocks: &mut Memory) -> Result<(u8, u32, u32), Cut>
    requires { blocks.old.block_size ≡ 1024 }
    ensures { blocks.new.block_size ≡ 1024 }
{
    let byte = read_byte(blocks, 1, 1023)?;
    write_u32(blocks, 1, 4, 0x0403_0201)?;
    let whole = read_u32(blocks, 1, 4)?;
    let half = read_u32(blocks, 1, 2)?;
    Ok((byte, whole, half))
}

/// Five bytes of block 1, three of which were written; then the block is cleared.
fn row(blocks: &mut Memory) -> Result<[u8; 5], Cut>
    requires { blocks.old.block_size ≡ 1024 }
{
    let mut into = [0u8; 5];
    write_bytes(blocks, 1, 1020, &[1, 2, 3])?;
    read_bytes(blocks, 1, 1019, &mut into)?;
    clear(blocks, 1)?;
    Ok(into)
}

/// Whether bytes come and go so.
fn come_and_go(alloc: Global) -> Result<bool, AllocError> {
    let parts: &[(usize, &[u8], usize)] = &[(1024, b"\x09", 0), (2047, b"\x07\x05", 0)];
    let mut blocks = Memory::new(1024, image_of(alloc, &(3072, parts))?);
    let left = image_of(alloc, &(3072, &[(2048, b"\x05", 0)]))?;
    Ok(
        numbers(&mut blocks) == Ok((7, 0x0403_0201, 0x0201_0000))
            && row(&mut blocks) == Ok([0, 1, 2, 3, 7])
            && blocks.image() == left.as_slice(),
    )
}

/// Whether this call was cut off.
fn is_cut(came: Result<(), Cut>) -> bool {
    matches!(came, Err(Cut::Eio))
}

/// Whether past the last block nothing is given, and calls go on.
fn ends_with_the_last(blocks: &mut Memory, into: &mut [u8; 3]) -> bool
    requires { blocks.old.block_size ≡ 1024 }
{
    is_cut(read_bytes(blocks, 3, 0, into))
        && is_cut(clear(blocks, 3))
        && is_cut(write_bytes(blocks, 3, 0, &[1]))
        && blocks.sync().is_ok()
        && blocks.live().is_ok()
}

#[test]
fn words_are_read_and_written(rt: HostRuntime) -> Result<(), Fail> {
    assert!(rt; come_and_go(rt.alloc())?);
    let mut blocks = Memory::new(1024, image_of(rt.alloc(), &(3072, &[]))?);
    let mut into = [8u8; 3];
    assert!(rt; ends_with_the_last(&mut blocks, &mut into) && into == [8, 8, 8]);
    Ok(())
}
