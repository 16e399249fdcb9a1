//! Thirty-two requests may be under way to a driver, and as many again once their answers were taken.

use crate::setting::{Ending, Plan, SECTORS, filled_up, play, write_of};
use crate::watch::Watch;
use channel_link::link::ChannelLink;
use message::Incoming;
use message::endpoint::Endpoint;
use reissue::link::{Link, LinkRefusal};
use std::sync::{Arc, Wait};
use std::test::*;

// The most requests that are posted in a round.
const MOST: u32 = 40;

// How often the line is filled.
const ROUNDS: usize = 3;

// Posts requests under rising ids until one is refused as Full: how many were accepted.
pub(crate) fn posted_until_full<R: Wait + Copy>(
    link: &mut ChannelLink<R>,
    to: Endpoint,
    id: &mut u64,
) -> Option<u32> {
    for count in 0..MOST {
        match link.post(to, &write_of(id.saturating_add(1), 0x44)) {
            Ok(()) => *id = id.saturating_add(1),
            Err(LinkRefusal::Full) => return Some(count),
            Err(LinkRefusal::DeadEndpoint) => return None,
        }
    }
    None
}

// Takes so many answers, each of 1024 bytes. False where one of them is anything else.
fn are_answered<R: Wait + Copy>(link: &mut ChannelLink<R>, count: u32) -> bool {
    for _ in 0..count {
        match link.take() {
            Incoming::Reply(reply) if reply.outcome == Ok(1024) => {}
            _ => return false,
        }
    }
    true
}

// Fills the line of the first driver some times, and takes all answers after each.
#[derive(Clone, Copy, Drop)]
struct FilledAgain;

impl<R: Wait + Copy> Plan<R> for FilledAgain {
    type Came = Option<[u32; 3]>;

    fn play(&mut self, link: &mut ChannelLink<R>) -> Option<[u32; 3]> {
        let Incoming::Started(to) = link.take() else {
            return None;
        };
        let mut accepted = [0u32; ROUNDS];
        let mut id = 0u64;
        for count in &mut accepted {
            *count = posted_until_full(link, to, &mut id)?;
            if !are_answered(link, *count) {
                return None;
            }
        }
        Some(accepted)
    }
}

#[test]
fn requests_under_way(rt: HostRuntime) -> Result<(), Fail> {
    let alloc = rt.alloc();
    let gate = Arc::new(alloc, Watch::ticking(rt))?;
    let drivers = filled_up(alloc, Vec::new(alloc))?;
    let (came, _) = play(
        alloc,
        rt,
        SECTORS,
        drivers,
        &gate,
        FilledAgain,
        Ending::Stopped,
    )
    .ok_or("not stopped")?;
    assert_eq!(rt;
        came.ok_or("another message, or none is refused")?,
        [32, 32, 32]
    );
    Ok(())
}
