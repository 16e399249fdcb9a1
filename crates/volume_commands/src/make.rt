//! Making a volume, from the words' values to the image and the line about it.

ghost use Rattle.std.specs.Prelude.{◌≡◌, ◌<◌, Some, IfOk, IfErr, IfSome, IfNone, string_bytes};
ghost use Rattle.std.specs.Bool.{OnTrue, OnFalse};
ghost use Rattle.std.specs.Io.KnownBytes.{Appends};
ghost use Rattle.new_volume.specs.Image.{filled_image};
ghost use Rattle.output.specs.Output.{AppendsPart, Tells};
ghost use Rattle.volume_commands.specs.Making.{IsMade, IsUnmade, line_text, refusal_text, status_number, unwritten_text};

use new_volume::{MkfsRefusal, NewVolume, mkfs_front};
use output::{Told, tell, write_text};
use std::alloc::{AllocError, Global};
use std::fmt;
use std::io::Write;

/// What volume is wanted.
#[derive(Clone, Copy, Debug, PartialEq, Eq)]
pub struct Wanted {
    /// How many blocks the volume has.
    pub blocks: u32,
    /// How many bytes a block has.
    pub block_size: u32,
    /// How many inodes it has.
    pub inodes: u32,
    /// The time at which it is made, in seconds since 1970.
    pub now: u32,
    /// The user that its root belongs to.
    pub uid: u16,
    /// The group that its root belongs to.
    pub gid: u16,
}

/// How a making ended.
#[derive(Clone, Copy, Debug, PartialEq, Eq)]
pub enum CommandStatus {
    /// All was done.
    Done,
    /// It was refused, and a line was to say why.
    Refused(Told),
}

impl CommandStatus {
    /// The status of the process: 0 or 1.
    pub fn number(self) -> u8
        ensures { result ≡ status_number self }
    {
        match self {
            CommandStatus::Done => 0,
            CommandStatus::Refused(_) => 1,
        }
    }
}

/// Why no volume was made.
#[derive(Clone, Copy, Debug, PartialEq, Eq)]
pub enum MakeRefusal {
    /// There is no such volume, or no memory for it or its line.
    Mkfs(MkfsRefusal),
    /// Standard output refused bytes; those before them went out.
    NotWritten,
}

impl fmt::Display for MakeRefusal {
    ghost output = { λ refusal. Some (refusal_text refusal) };

    fn fmt<W: fmt::Write>(&self, f: &mut fmt::Formatter<W>) -> fmt::Result {
        match self {
            MakeRefusal::Mkfs(refusal) => f.write_str(refusal.name()),
            MakeRefusal::NotWritten => f.write_str("cannot write standard output"),
        }
    }
}

/// What a making came to.
#[derive(Drop)]
pub struct Made {
    /// How it ended so far.
    pub status: CommandStatus,
    /// The image that is to be written, without the zeros at its end; none where it was refused.
    pub image: Option<NewVolume>,
}

/// Makes the image of a new volume, and writes on `out` a line with its first data zone, how many data zones it has and how many of
/// them are free. Where it is refused, or the line can't be written, a line on `err` says why, and there is no image; how that line went
/// out is handed back.
pub fn make<W: Write, E: Write>(alloc: Global, wanted: &Wanted, out: &mut W, err: &mut E) -> Made
    ensures made { IfSome result.image (λ image. (result.status ≡ CommandStatus.Done) × (err.new ≡ err.old)
        × IsMade wanted.entry.now (filled_image image.volume image.front.items) (Appends (W.contents out.old) (W.contents out.new))) }
    ensures refused { IfNone result.image ((told : Told) × (result.status ≡ CommandStatus.Refused told) × (refusal : MakeRefusal)
        × Tells (Some (refusal_text refusal)) told (E.contents err.old) (E.contents err.new)
        × IsUnmade wanted.entry.now refusal (out.new ≡ out.old) (AppendsPart (W.contents out.old) (W.contents out.new))) }
{
    match try_make(alloc, wanted, out) {
        Ok(image) => Made {
            status: CommandStatus::Done,
            image: Some(image),
        },
        Err(refusal) => Made {
            status: CommandStatus::Refused(tell(alloc, err, &refusal)),
            image: None,
        },
    }
}

/// The image, once the line about it was written.
fn try_make<W: Write>(alloc: Global, wanted: &Wanted, out: &mut W) -> Result<NewVolume, MakeRefusal>
    ensures made { IfOk result (λ image. IsMade wanted.entry.now (filled_image image.volume image.front.items)
        (Appends (W.contents out.old) (W.contents out.new))) }
    ensures refused { IfErr result (λ refusal. IsUnmade wanted.entry.now refusal (out.new ≡ out.old) (AppendsPart (W.contents out.old)
        (W.contents out.new))) }
{
    let image = match mkfs_front(
        alloc,
        wanted.blocks,
        wanted.block_size,
        wanted.inodes,
        wanted.now,
        wanted.uid,
        wanted.gid,
    ) {
        Ok(image) => image,
        Err(refusal) => return Err(MakeRefusal::Mkfs(refusal)),
    };
    let volume = &image.volume;
    let zones = volume.zones - volume.first_zone;
    // all but the root's
    let free = zones - 1;
    let Ok(line) = line_of(alloc, volume.first_zone, zones, free) else {
        return Err(MakeRefusal::Mkfs(MkfsRefusal::OutOfMemory));
    };
    match write_text(out, line.as_bytes()) {
        Ok(()) => Ok(image),
        Err(_) => Err(MakeRefusal::NotWritten),
    }
}

/// The line about a volume: its first data zone, how many data zones it has and how many of them are free.
fn line_of(alloc: Global, first: u32, zones: u32, free: u32) -> Result<String, AllocError>
    ensures { IfOk result (λ line. string_bytes line ≡ line_text first zones free) }
{
    format!(in alloc; "first {first} zones {zones} free {free}\n")
}

/// How a making ended whose image was handed out: it was written under this name, or it wasn't, and then a line on `err` says so.
pub fn finish<E: Write>(alloc: Global, name: &str, written: bool, err: &mut E) -> CommandStatus
    ensures written { OnTrue written ((result ≡ CommandStatus.Done) × (err.new ≡ err.old)) }
    ensures unwritten { OnFalse written ((told : Told) × (result ≡ CommandStatus.Refused told)
        × Tells (Some (unwritten_text name.now)) told (E.contents err.old) (E.contents err.new)) }
{
    if written {
        return CommandStatus::Done;
    }
    CommandStatus::Refused(tell(alloc, err, &CannotWrite(name)))
}

/// A file of this name can't be written.
#[derive(Clone, Copy)]
struct CannotWrite<'n>(&'n str);

impl fmt::Display for CannotWrite<'_> {
    ghost output = { λ refusal. Some (unwritten_text refusal.0.now) };

    fn fmt<W: fmt::Write>(&self, f: &mut fmt::Formatter<W>) -> fmt::Result {
        let name = self.0;
        write!(f, "cannot write {name}")
    }
}
