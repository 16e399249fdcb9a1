//! Serves the image of a volume by FUSE, so that Linux mounts it, while its drivers may die. Standard input and standard output are both the
//! descriptor of /dev/fuse that is mounted.
#![tactic(auto)]

mod device;

use crate::device::Device;
use fuse_server::mount::Mount;
use host::play_words::mount::MountProgram;
use mount_program::serving::{Messages, serve};
use std::io::{self, BufReader};
use std::process::ExitCode;

/// How many bytes are read together: the kernel gives one message a read, and none where there is less room than its longest one has, 65616
/// bytes.
const ROOM: usize = 69632;

fn main(rt: HostRuntime) -> io::Result<ExitCode> {
    let messages = Messages {
        input: BufReader::with_capacity(rt.alloc(), ROOM, Device::new(rt.reader()))?,
        output: Device::new(rt.stdout()),
        answerer: Mount::new(rt.alloc())?,
    };
    serve(rt, rt, MountProgram::Fuse, messages)
}
