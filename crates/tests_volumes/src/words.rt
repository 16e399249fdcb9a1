//! Words that are taken, and others.

use clap::Error;
use host::command_line::status_for;
use host::frames::frames_for;
use host::play_words::{mfs, mfssim};
use host::volume_words::{mfmig, mfsck, mkmfs};
use std::alloc::{AllocError, Global};
use std::test::Fail;

/// Words of a line, and what they say: the files, the minor, how many drivers stand by, how many frames the server has, and whether
/// drivers move an arm; of a new volume its blocks, its inodes, how long a block is, the time and the owner; or, of words that aren't
/// taken or ask for help, the status.
const ROWS: &str = "\
mkmfs v.img --blocks 64 --inodes 32 : v.img blocks 64 inodes 32 of 4096 at 0 uid 0 gid 0
mkmfs v.img --blocks 64 --inodes 32 --block-size 1024 --now 50 : v.img blocks 64 inodes 32 of 1024 at 50 uid 0 gid 0
mkmfs --now=4294967295 --block-size=0 --inodes=65535 --blocks=65536 v.img : v.img blocks 65536 inodes 65535 of 0 at 4294967295 uid 0 gid 0
mkmfs v.img --blocks 64 --inodes 32 --uid 65535 : v.img blocks 64 inodes 32 of 4096 at 0 uid 65535 gid 0
mkmfs v.img --gid=65535 --uid=7 --blocks 64 --inodes 32 : v.img blocks 64 inodes 32 of 4096 at 0 uid 7 gid 65535
mkmfs v.img --blocks 64 --inodes 32 --uid 65536 : status 2
mkmfs v.img --blocks 64 --inodes 32 --gid 65536 : status 2
mkmfs v.img --blocks 64 --inodes 32 --gid -1 : status 2
mkmfs v.img --inodes 4294967295 --blocks 4294967294 : v.img blocks 4294967294 inodes 4294967295 of 4096 at 0 uid 0 gid 0
mkmfs v.img --blocks 4294967296 --inodes 32 : status 2
mkmfs v.img --blocks 64 --inodes 4294967296 : status 2
mkmfs v.img --blocks 64 --inodes 32 --block-size 4294967296 : status 2
mkmfs v.img --blocks 64 --inodes 32 --now 4294967296 : status 2
mkmfs v.img --blocks -1 --inodes 32 : status 2
mkmfs v.img --blocks 64 : status 2
mkmfs v.img --inodes 32 : status 2
mkmfs --blocks 64 --inodes 32 : status 2
mkmfs v.img w.img --blocks 64 --inodes 32 : status 2
mkmfs v.img --blocks 64 --inodes 32 --blocks 65 : status 2
mkmfs v.img --blocks 64 --inodes 32 --minor 1 : status 2
mkmfs : status 2
mkmfs --help : status 0
mkmfs v.img --version : status 0
mfsck v.img : v.img minor 0
mfsck v.img --minor 255 : v.img minor 255
mfsck --minor=4 v.img : v.img minor 4
mfsck v.img --minor 256 : status 2
mfsck v.img --minor : status 2
mfsck v.img w.img : status 2
mfsck v.img --spares 5 : status 2
mfsck : status 2
mfsck --help : status 0
mfsck v.img --version : status 0
mfmig o.img n.img --blocks 64 : o.img to n.img blocks 64
mfmig --blocks=4294967295 o.img o.img : o.img to o.img blocks 4294967295
mfmig o.img n.img --blocks 4294967296 : status 2
mfmig o.img n.img --blocks -1 : status 2
mfmig o.img n.img : status 2
mfmig o.img --blocks 64 : status 2
mfmig o.img n.img v.img --blocks 64 : status 2
mfmig o.img n.img --blocks 64 --inodes 32 : status 2
mfmig : status 2
mfmig --help : status 0
mfmig o.img n.img --version : status 0
mfs v.img s.txt : v.img [s.txt] out none minor 0 spares 5 frames by the image
mfs v.img s.txt --minor 5 : v.img [s.txt] out none minor 5 spares 5 frames by the image
mfs v.img s.txt --minor 255 : v.img [s.txt] out none minor 255 spares 5 frames by the image
mfs --spares 63 v.img s.txt : v.img [s.txt] out none minor 0 spares 63 frames by the image
mfs v.img --spares=0 s.txt : v.img [s.txt] out none minor 0 spares 0 frames by the image
mfs --model v.img s.txt : v.img [s.txt] out none minor 0 spares 5 frames by the image model
mfs v.img s.txt --frames 16 : v.img [s.txt] out none minor 0 spares 5 frames 16
mfs --frames=4096 v.img s.txt : v.img [s.txt] out none minor 0 spares 5 frames 4096
mfs v.img s.txt t.txt : v.img [s.txt t.txt] out none minor 0 spares 5 frames by the image
mfs v.img t.txt s.txt t.txt --minor 1 : v.img [t.txt s.txt t.txt] out none minor 1 spares 5 frames by the image
mfs v.img s.txt --out w.img : v.img [s.txt] out w.img minor 0 spares 5 frames by the image
mfs --out=v.img v.img s.txt t.txt : v.img [s.txt t.txt] out v.img minor 0 spares 5 frames by the image
mfs v.img - : v.img [-] out none minor 0 spares 5 frames by the image
mfs v.img s.txt --minor 256 : status 2
mfs v.img s.txt --spares 64 : status 2
mfs v.img s.txt --spares -1 : status 2
mfs v.img s.txt --frames 15 : status 2
mfs v.img s.txt --frames 4097 : status 2
mfs v.img s.txt --model=1 : status 2
mfs : status 2
mfs v.img : status 2
mfs v.img s.txt --minor : status 2
mfs v.img s.txt --out : status 2
mfs v.img --out s.txt : status 2
mfs v.img s.txt --out a --out b : status 2
mfs --help : status 0
mfs -h : status 0
mfs v.img --version : status 0
mfssim v.img s.txt : v.img s.txt minor 0 spares 5
mfssim v.img s.txt --minor 255 : v.img s.txt minor 255 spares 5
mfssim --spares 63 v.img s.txt : v.img s.txt minor 0 spares 63
mfssim v.img --spares=0 s.txt : v.img s.txt minor 0 spares 0
mfssim v.img s.txt --minor 256 : status 2
mfssim v.img s.txt --spares 64 : status 2
mfssim v.img s.txt --model : status 2
mfssim : status 2
mfssim v.img : status 2
mfssim v.img s.txt t.txt : status 2
mfssim --help : status 0
mfssim v.img --version : status 0
";

/// What words of `mfs` say that are taken.
fn of_calls(alloc: Global, words: &mfs::MfsWords<'_>) -> Result<String, AllocError> {
    let scripts = words.scripts.join(alloc, " ")?;
    let out = words.out.unwrap_or("none");
    let model = if words.model { " model" } else { "" };
    let (image, minor, spares) = (words.image, words.minor, words.spares);
    match words.frames {
        Some(frames) => format!(in alloc;
            "{image} [{scripts}] out {out} minor {minor} spares {spares} frames {frames}{model}"
        ),
        None => format!(in alloc;
            "{image} [{scripts}] out {out} minor {minor} spares {spares} frames by the image{model}"
        ),
    }
}

/// What words of `mfssim` say that are taken.
fn of_schedules(alloc: Global, words: &mfssim::MfssimWords<'_>) -> Result<String, AllocError> {
    format!(in alloc;
        "{} {} minor {} spares {}",
        words.image, words.schedule, words.minor, words.spares
    )
}

/// What words of `mkmfs` say that are taken.
fn of_volume(alloc: Global, words: &mkmfs::MkmfsWords<'_>) -> Result<String, AllocError> {
    format!(in alloc;
        "{} blocks {} inodes {} of {} at {} uid {} gid {}",
        words.image, words.blocks, words.inodes, words.block_size, words.now, words.uid, words.gid
    )
}

/// What is said of words that aren't taken: the status, and in further lines what is printed.
fn of_others(alloc: Global, error: &Error) -> Result<String, AllocError> {
    format!(in alloc; "status {}\n{error}", status_for(error))
}

/// What these words of `mfs` say.
fn calls_said(alloc: Global, words: &[String]) -> Result<String, AllocError> {
    match mfs::read(alloc, words) {
        Ok(words) => of_calls(alloc, &words),
        Err(error) => of_others(alloc, &error),
    }
}

/// What these words of `mfssim` say.
fn schedules_said(alloc: Global, words: &[String]) -> Result<String, AllocError> {
    match mfssim::read(alloc, words) {
        Ok(words) => of_schedules(alloc, &words),
        Err(error) => of_others(alloc, &error),
    }
}

/// What these words of `mkmfs` say.
fn volume_said(alloc: Global, words: &[String]) -> Result<String, AllocError> {
    match mkmfs::read(alloc, words) {
        Ok(words) => of_volume(alloc, &words),
        Err(error) => of_others(alloc, &error),
    }
}

/// What these words of `mfsck` say.
fn check_said(alloc: Global, words: &[String]) -> Result<String, AllocError> {
    match mfsck::read(alloc, words) {
        Ok(words) => format!(in alloc; "{} minor {}", words.image, words.minor),
        Err(error) => of_others(alloc, &error),
    }
}

/// What these words of `mfmig` say.
fn migration_said(alloc: Global, words: &[String]) -> Result<String, AllocError> {
    match mfmig::read(alloc, words) {
        Ok(words) => format!(in alloc; "{} to {} blocks {}", words.old, words.new, words.blocks),
        Err(error) => of_others(alloc, &error),
    }
}

/// What the words of a line say.
fn said(alloc: Global, line: &str) -> Result<String, AllocError> {
    let mut words = Vec::new(alloc);
    for word in line.split_whitespace() {
        words.push(word.to_string(alloc)?)?;
    }
    if line.starts_with("mfssim") {
        schedules_said(alloc, &words)
    } else if line.starts_with("mkmfs") {
        volume_said(alloc, &words)
    } else if line.starts_with("mfmig") {
        migration_said(alloc, &words)
    } else if line.starts_with("mfsck") {
        check_said(alloc, &words)
    } else {
        calls_said(alloc, &words)
    }
}

#[test]
fn words_are_taken_or_not(rt: HostRuntime) -> Result<(), Fail> {
    for row in ROWS.lines() {
        let Some((line, wanted)) = row.split_once(" : ") else {
            return Err(Fail::from("no row"));
        };
        let said = said(rt.alloc(), line)?;
        assert_eq!(rt; said.lines().next(), Some(wanted), "{line}");
    }
    Ok(())
}

/// What words say of frames, the image's length, and how many frames the server has.
const FRAMES: [(Option<u32>, usize, usize); 9] = [
    (None, 0, 64),
    (None, 266_239, 64),
    (None, 266_240, 65),
    (None, 4_194_304, 1024),
    (None, 16_777_215, 4095),
    (None, 16_777_216, 4096),
    (None, 67_108_864, 4096),
    (Some(16), 67_108_864, 16),
    (Some(4096), 0, 4096),
];

#[test]
fn frames_fill_the_image(rt: HostRuntime) -> Result<(), Fail> {
    for (said, length, frames) in FRAMES {
        assert_eq!(rt; frames_for(said, length), frames, "{length} bytes");
    }
    Ok(())
}

/// What each program says of itself where it isn't packed, behind its name.
const VERSION: &str =
    " 0.1.0\ncommit not told, for this program isn't packed.\nkit not told: this program wasn't packed.\n";

#[test]
fn versions_are_told(rt: HostRuntime) -> Result<(), Fail> {
    let alloc = rt.alloc();
    for name in ["mkmfs", "mfsck", "mfmig", "mfs", "mfssim"] {
        let long = said(alloc, format!(in alloc; "{name} --version")?.as_str())?;
        let wanted = format!(in alloc; "status 0\n{name}{VERSION}")?;
        assert_eq!(rt; long.as_str(), wanted.as_str(), "{name} --version");
        let short = said(alloc, format!(in alloc; "{name} -V")?.as_str())?;
        let wanted = format!(in alloc; "status 0\n{name} 0.1.0\n")?;
        assert_eq!(rt; short.as_str(), wanted.as_str(), "{name} -V");
    }
    Ok(())
}

/// The calls, each of which has its line in the help of `mfs`.
const CALLS: &str =
    "open close dup read write fill seek stat fstat lstat link unlink symlink readlink mkdir rmdir rename chmod chown utime truncate \
    readdir sync statfs";

#[test]
fn the_help_lists_each_call(rt: HostRuntime) -> Result<(), Fail> {
    let help = said(rt.alloc(), "mfs --help")?;
    for name in CALLS.split_whitespace() {
        let line = format!(in rt.alloc(); "\n  {name} ")?;
        assert!(rt; help.as_str().contains(line.as_str()), "{name}");
    }
    Ok(())
}
