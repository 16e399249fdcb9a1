//! Two sessions of one service call, in threads of their own.

use crate::at_once::{Came, What, at_once};
use fixtures::new_volume;
use fixtures_sessions::stage::Stage;
use fixtures_sessions::watch::Holds;
use std::test::*;
use tests_texts::is_told;

/// What each of them is answered.
const LINES: &str = "inode 1 mode 0040755 links 2 uid 0 gid 0 size 128 times 50 50 50
inode 1 mode 0040755 links 2 uid 0 gid 0 size 128 times 50 50 50
inode 1 mode 0040755 links 2 uid 0 gid 0 size 128 times 50 50 50
";

/// Both were answered so.
fn are_told(came: &Came) -> Result<(), Fail> {
    let Came::Asked(one, two) = came else {
        return Err(Fail::from("not asked"));
    };
    is_told(one.as_str(), LINES)?;
    is_told(two.as_str(), LINES)
}

#[test]
fn two_threads_call(rt: HostRuntime) -> Result<(), Fail> {
    let image = new_volume(rt.alloc(), 1024)?;
    let stage = Stage::new(rt.alloc(), rt, image, Holds::Flusher)?;
    let (came, left) = at_once(&stage, &[], What::Ask)?;
    assert!(rt; left.as_slice() == stage.image.as_slice());
    are_told(&came)
}
