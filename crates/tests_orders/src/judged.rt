//! An order comes again by its number; and what is refused of a directory that two sessions share.

use fixtures_drawn::shared::{Shared, fits};
use fixtures_orders::trial::try_order;
use std::io;
use std::sync::Wait;
use std::test::*;
use std::thread::Threads;

/// How many choices an order takes, and their digest.
fn digest_of<R: Threads + Wait + AllocGlobal + Copy + Send + Sync + 'static>(
    rt: R,
    number: u64,
) -> io::Result<(u32, u64)> {
    let told = try_order(rt, number)?.told;
    Ok((told.choices, told.digest))
}

#[test]
fn an_order_comes_again(rt: HostRuntime) -> Result<(), Fail> {
    let first = digest_of(rt, 7)?;
    assert_eq!(rt; digest_of(rt, 7)?, first);
    assert_ne!(rt; digest_of(rt, 8)?, first);
    Ok(())
}

/// A file of this name was to be made: whether it was.
fn made(name: u8, was_done: bool) -> Shared {
    Shared {
        name,
        makes: true,
        was_done,
    }
}

/// A file of this name was to be removed: whether it was.
fn taken(name: u8, was_done: bool) -> Shared {
    Shared {
        name,
        makes: false,
        was_done,
    }
}

#[test]
fn deeds_of_two_sessions_fit(rt: HostRuntime) -> Result<(), Fail> {
    assert_eq!(rt; fits(&[made(1, true)], &[made(1, false)], 2), true);
    assert_eq!(rt; fits(&[made(1, true)], &[taken(1, true)], 0), true);
    assert_eq!(rt;
        fits(&[made(1, true), made(1, true)], &[taken(1, true)], 2),
        true
    );
    assert_eq!(rt;
        fits(&[taken(1, false), made(1, true)], &[made(3, true)], 10),
        true
    );
    Ok(())
}

#[test]
fn other_deeds_do_not(rt: HostRuntime) -> Result<(), Fail> {
    // the file is left behind a removal, both make it, or neither did
    assert_eq!(rt; fits(&[made(1, true)], &[taken(1, true)], 2), false);
    assert_eq!(rt; fits(&[made(1, true)], &[made(1, true)], 2), false);
    assert_eq!(rt; fits(&[made(1, false)], &[taken(1, false)], 0), false);
    // a session's own order is kept
    assert_eq!(rt; fits(&[taken(1, true), made(1, true)], &[], 2), false);
    Ok(())
}
