//! The files that a play reads, and the one that it leaves.

use call_text::scripts::script_files::File;
use host::play_words::mfs::MfsWords;
use host::whole_file::read;
use locked_image::beside::{Beside, InPlace};
use locked_image::locked::LockedImage;
use locked_image::reasons::why;
use std::alloc::{AllocError, Global};
use std::rt::Files;
use tools::handing::hand_left;
use tools::play::{Ended, PlayStatus};

/// A script: its bytes if it could be read, and its name, with why behind it where it couldn't.
#[derive(Drop)]
pub(crate) struct Script {
    name: String,
    bytes: Option<Vec<u8>>,
}

/// The script in the file of this name.
fn read_script<R: Files + AllocGlobal>(rt: &R, name: &str) -> Result<Script, AllocError> {
    match read(rt, name) {
        Ok(bytes) => Ok(Script {
            name: String::from_str(rt.alloc(), name)?,
            bytes: Some(bytes),
        }),
        Err(error) => Ok(Script {
            name: format!(in rt.alloc(); "{name}: {}", why(&error))?,
            bytes: None,
        }),
    }
}

/// The scripts in the files of these names.
pub(crate) fn read_all<R: Files + AllocGlobal>(
    rt: &R,
    names: &[&str],
) -> Result<Vec<Script>, AllocError> {
    let mut scripts = Vec::new(rt.alloc());
    for name in names {
        scripts.push(read_script(rt, name)?)?;
    }
    Ok(scripts)
}

/// The same, as a play takes them.
pub(crate) fn files(alloc: Global, scripts: &[Script]) -> Result<Vec<File<'_, '_>>, AllocError> {
    let mut files = Vec::new(alloc);
    for script in scripts {
        files.push(File {
            name: script.name.as_str(),
            bytes: script.bytes.as_deref(),
        })?;
    }
    Ok(files)
}

/// Hands on the image that a play left: its place is that of the locked one, which has this name, and the one beside it that of an image
/// that isn't as it was read back, or whose volume isn't clean. How the play then ended.
pub(crate) fn write_left(
    rt: HostRuntime,
    words: &MfsWords<'_>,
    locked: &mut LockedImage,
    name: &str,
    played: Ended,
) -> PlayStatus {
    let mut place = InPlace::of(rt, locked);
    let mut beside = Beside::of(rt, name);
    hand_left(
        rt.alloc(),
        played,
        words.minor,
        name,
        &mut place,
        &mut beside,
        &mut rt.stderr(),
    )
}
