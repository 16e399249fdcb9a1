//! How many blocks the programs' servers keep in memory.

ghost use Rattle.std.specs.Prelude.{◌≡◌};
ghost use Rattle.host.specs.Frames.{frames_for};

/// How many bytes of an image there are for each frame, which holds a block (own).
const FRAME: usize = 4096;

/// The fewest frames where the words say nothing (own).
const FEWEST: usize = 64;

/// The most frames that a cache has.
const MOST: usize = 4096;

/// How many frames a server has over an image of so many bytes: as many as the words say. Where they say nothing, one for each whole 4 KiB
/// of the image, but 64 at least, and 4096 (16 MiB) at most.
pub fn frames_for(said: Option<u32>, length: usize) -> usize
    ensures { result ≡ frames_for said length }
{
    let Some(frames) = said else {
        let filled = length / FRAME;
        if filled < FEWEST {
            return FEWEST;
        }
        return if filled < MOST { filled } else { MOST };
    };
    frames as usize
}
