//! Which bytes a file gets, and whether some are all zero.

use host::sparse::{Sink, is_zero, put_all};
use std::alloc::{AllocError, Global};
use std::io;
use std::test::Fail;

/// How many bytes are looked at.
static LENGTHS: [usize; 8] = [0, 1, 15, 16, 17, 32, 33, 50];

#[test]
fn zeros_are_told() -> Result<(), Fail> {
    let mut bytes = [0; 50];
    for length in LENGTHS {
        if !is_zero(&bytes[..length]) {
            return Err(Fail::new(format_args!("{length} zeros")));
        }
        for at in 0..50 {
            bytes[at] = 1;
            if is_zero(&bytes[..length]) != (at >= length) {
                return Err(Fail::new(format_args!("byte {at} of {length}")));
            }
            bytes[at] = 0;
        }
    }
    Ok(())
}

/// Bytes in memory, and how many were put.
#[derive(Drop)]
struct Held {
    bytes: Vec<u8>,
    put: usize,
}

impl Sink for Held {
    fn put(&mut self, at: u64, bytes: &[u8]) -> io::Result<()> {
        let mut place = at as usize;
        for byte in bytes {
            if let Some(held) = self.bytes.get_mut(place) {
                *held = *byte;
            }
            place = place.saturating_add(1);
        }
        self.put = self.put.saturating_add(bytes.len());
        Ok(())
    }
}

/// So many bytes, of which those at these places are 1, and how many of them are put: those of each piece of 4096 that has a 1.
static PUT: [(usize, &[usize], usize); 7] = [
    (0, &[], 0),
    (1, &[0], 1),
    (10000, &[], 0),
    (10000, &[9999], 1808),
    (10000, &[4096], 4096),
    (10000, &[4095, 8192], 5904),
    (300000, &[0, 262143, 262144, 299999], 13280),
];

/// Zeros, so many, with ones at these places.
fn with_ones(alloc: Global, length: usize, places: &[usize]) -> Result<Vec<u8>, AllocError> {
    let mut bytes = Vec::from_elem(alloc, 0, length)?;
    for place in places {
        if let Some(byte) = bytes.get_mut(*place) {
            *byte = 1;
        }
    }
    Ok(bytes)
}

/// What a file of zeros holds once these bytes were put.
fn what_it_holds(alloc: Global, bytes: &[u8]) -> Result<Held, Fail> {
    let mut held = Held {
        bytes: Vec::from_elem(alloc, 0, 300005)?,
        put: 0,
    };
    put_all(&mut held, bytes)?;
    Ok(held)
}

#[test]
fn zeros_are_not_put(rt: HostRuntime) -> Result<(), Fail> {
    for (length, places, put) in &PUT {
        let held = what_it_holds(rt.alloc(), &with_ones(rt.alloc(), *length, places)?)?;
        let wanted = with_ones(rt.alloc(), 300005, places)?;
        assert!(rt; held.bytes == wanted && held.put == *put, "{length} bytes");
    }
    Ok(())
}
