//! Serves the image of a volume by 9P, so that Linux mounts it, while its drivers may die.
#![tactic(auto)]

use host::play_words::mount::MountProgram;
use mount_program::serving::{Messages, serve};
use ninep_server::connection::Connection;
use std::io::{self, BufReader};
use std::process::ExitCode;

/// How many bytes of messages are read together.
const ROOM: usize = 65536;

fn main(rt: HostRuntime) -> io::Result<ExitCode> {
    let messages = Messages {
        input: BufReader::with_capacity(rt.alloc(), ROOM, rt.reader())?,
        output: rt.stdout(),
        answerer: Connection::new(rt.alloc()),
    };
    serve(rt, rt, MountProgram::Ninep, messages)
}
