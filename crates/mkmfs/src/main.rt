//! Makes the image of a new MINIX 3 volume.
#![tactic(auto)]

use host::command_line::{line_of, status_for};
use host::volume_words::mkmfs::{MkmfsWords, read};
use locked_image::locked::replace_image;
use output::tell;
use std::io;
use std::process::ExitCode;
use volume_commands::make::{CommandStatus, Wanted, make};

/// Makes the volume that the words say, and writes it to its file.
fn make_file(rt: HostRuntime, words: &MkmfsWords<'_>) -> io::Result<ExitCode> {
    let alloc = rt.alloc();
    let (mut out, mut err) = (io::writer(&rt), rt.stderr());
    let wanted = Wanted {
        blocks: words.blocks,
        block_size: words.block_size,
        inodes: words.inodes,
        now: words.now,
        uid: words.uid,
        gid: words.gid,
    };
    let made = make(alloc, &wanted, &mut out, &mut err);
    let status = match made.image {
        Some(image) => match replace_image(&rt, words.image, &image.front, image.length()) {
            Ok(()) => CommandStatus::Done,
            Err(refusal) => CommandStatus::Refused(tell(alloc, &mut err, &refusal)),
        },
        None => made.status,
    };
    Ok(ExitCode::from(status.number()))
}

fn main(rt: HostRuntime) -> io::Result<ExitCode> {
    let Some(line) = line_of(&rt)? else {
        return Ok(ExitCode::from(2));
    };
    match read(rt.alloc(), line.as_slice()) {
        Ok(words) => make_file(rt, &words),
        Err(error) => {
            error.print(&rt)?;
            Ok(ExitCode::from(status_for(&error)))
        }
    }
}
