//! What is said of how a mount ended.

use message_stream::answering::StreamRefusal;
use message_stream::framing::InputRefusal;
use mount_service::mount::MountRefusal;
use serve::stopping::NoImage;
use std::test::Fail;
use volume_mount::StartRefusal;

/// Why a mount ended, and the line.
static LINES: [(MountRefusal<'static>, &str); 6] = [
    (MountRefusal::CannotRead("v.img"), "cannot read v.img"),
    (
        MountRefusal::Start(StartRefusal::OutOfMemory),
        "OutOfMemory",
    ),
    (MountRefusal::NoImage(NoImage::OutOfMemory), "OutOfMemory"),
    (
        MountRefusal::Stream(StreamRefusal::Input(InputRefusal::CutShort)),
        "the input ends within a message",
    ),
    (MountRefusal::GivenUp, "given up"),
    (MountRefusal::Cut, "cut"),
];

#[test]
fn ends_are_told(rt: HostRuntime) -> Result<(), Fail> {
    for (refusal, line) in &LINES {
        let mut text = String::new(rt.alloc());
        write!(text, "{refusal}")?;
        if text.as_str() != *line {
            return Err(Fail::new(format_args!("{text} and not {line}")));
        }
    }
    Ok(())
}
