//! Why a call with a path ends early, as text: the error's name, or the name of why it ended.
use block_store::{Cut, Halt};
use errno::Errno;
use path::Stop;
use std::test::Fail;
use tests_texts::are_told;

static STOPS: [(Stop, &str); 5] = [
    (Stop::Refused(Errno::ENOENT), "ENOENT"),
    (Stop::Refused(Errno::EIO), "EIO"),
    (Stop::Halted(Halt::Cut(Cut::Eio)), "Eio"),
    (Stop::Halted(Halt::Cut(Cut::LinkEnded)), "LinkEnded"),
    (Stop::Halted(Halt::Unsound), "Unsound"),
];

#[test]
fn stops_are_named(rt: HostRuntime) -> Result<(), Fail> {
    are_told(rt.alloc(), &STOPS)
}
