//! What `mfmig` does, between the file that it reads and the file that it writes.

ghost use Rattle.std.specs.Prelude.{◌≡◌, Ok, Some, IfOk, IfErr, IfSome, IfNone, IsOk, string_bytes};
ghost use Rattle.std.specs.Io.KnownBytes.{Appends};
ghost use Rattle.layout.specs.declared.Geometry.{Geometry};
ghost use Rattle.layout.specs.Places.{geometry_of};
ghost use Rattle.output.specs.Output.{AppendsPart, Tells};
ghost use Rattle.migrate.specs.Converting.{IsConverted, IsUnconverted, convert_text, converted_text, unmarked_zones};

use crate::{MigrateRefusal, migrate};
use image::Image;
use output::{Told, tell, write_text};
use std::alloc::{AllocError, Global};
use std::fmt;
use std::io::Write;
use volume_commands::make::CommandStatus;

/// Why there is no new volume.
#[derive(Clone, Copy)]
pub enum ConvertRefusal<'n> {
    /// The file of this name can't be read.
    CannotRead(&'n str),
    /// The volume in it isn't migrated, or no memory was found.
    Migrate(MigrateRefusal),
    /// Standard output refused bytes; those before them went out.
    NotWritten,
}

impl fmt::Display for ConvertRefusal<'_> {
    ghost output = { λ refusal. Some (convert_text refusal) };

    fn fmt<W: fmt::Write>(&self, f: &mut fmt::Formatter<W>) -> fmt::Result {
        match self {
            ConvertRefusal::CannotRead(name) => write!(f, "cannot read {name}"),
            ConvertRefusal::Migrate(refusal) => write!(f, "{refusal}"),
            ConvertRefusal::NotWritten => f.write_str("cannot write standard output"),
        }
    }
}

/// What a conversion came to.
#[derive(Drop)]
pub struct Converted {
    /// How it ended so far.
    pub status: CommandStatus,
    /// The image that is to be written; none where there is no new volume.
    pub image: Option<Vec<u8>>,
}

/// Migrates the version 2 volume in a file, whose bytes are none where it couldn't be read, to a version 3 volume of so many blocks, and
/// writes on `out` a line with its first data zone, how many data zones it has and how many of them are free. Where it is refused, or the
/// line can't be written, a line on `err` says why, and there is no image; how that line went out is handed back.
pub fn convert<W: Write, E: Write>(
    alloc: Global,
    name: &str,
    old: Option<&[u8]>,
    blocks: u32,
    out: &mut W,
    err: &mut E,
) -> Converted
    ensures converted { IfSome result.image (λ image. (result.status ≡ CommandStatus.Done) × (err.new ≡ err.old)
        × IsConverted old.entry blocks image.items (Appends (W.contents out.old) (W.contents out.new))) }
    ensures refused { IfNone result.image ((told : Told) × (result.status ≡ CommandStatus.Refused told) × (refusal : ConvertRefusal)
        × Tells (Some (convert_text refusal)) told (E.contents err.old) (E.contents err.new)
        × IsUnconverted old.entry name.entry blocks refusal (out.new ≡ out.old) (AppendsPart (W.contents out.old) (W.contents out.new))) }
{
    match try_convert(alloc, name, old, blocks, out) {
        Ok(image) => Converted {
            status: CommandStatus::Done,
            image: Some(image),
        },
        Err(refusal) => Converted {
            status: CommandStatus::Refused(tell(alloc, err, &refusal)),
            image: None,
        },
    }
}

/// The image, once the line about it was written.
fn try_convert<'n, W: Write>(
    alloc: Global,
    name: &'n str,
    old: Option<&[u8]>,
    blocks: u32,
    out: &mut W,
) -> Result<Vec<u8>, ConvertRefusal<'n>>
    ensures converted { IfOk result (λ image. IsConverted old.entry blocks image.items
        (Appends (W.contents out.old) (W.contents out.new))) }
    ensures refused { IfErr result (λ refusal. IsUnconverted old.entry name.entry blocks refusal (out.new ≡ out.old)
        (AppendsPart (W.contents out.old) (W.contents out.new))) }
{
    let Some(bytes) = old else {
        return Err(ConvertRefusal::CannotRead(name));
    };
    let image = match migrate(alloc, bytes, blocks) {
        Ok(image) => image,
        Err(refusal) => return Err(ConvertRefusal::Migrate(refusal)),
    };
    let Ok(line) = line_of(alloc, &image) else {
        return Err(ConvertRefusal::Migrate(MigrateRefusal::OutOfMemory));
    };
    match write_text(out, line.as_bytes()) {
        Ok(()) => Ok(image),
        Err(_) => Err(ConvertRefusal::NotWritten),
    }
}

/// The line about a volume: its first data zone, how many data zones it has and how many of them are free.
fn line_of(alloc: Global, image: &[u8]) -> Result<String, AllocError>
    requires { IsOk (geometry_of image.now) }
    ensures { IfOk result (λ line. (g : Geometry) → geometry_of image.now ≡ Ok g → string_bytes line ≡ converted_text g image.now) }
{
    let volume = match Image::parse(image) {
        Ok(volume) => volume,
        Err(_) => unreachable!(),
    };
    let first = volume.geometry().first_zone;
    let zones = volume.geometry().zones - first;
    let free = free_zones(&volume);
    format!(in alloc; "first {first} zones {zones} free {free}\n")
}

/// How many data zones aren't marked.
fn free_zones(volume: &Image) -> u32
    ensures { result ≡ unmarked_zones volume.now.geometry volume.now.bytes.now }
{
    let zones = volume.geometry().zones - volume.geometry().first_zone;
    let mut free = 0;
    for k in 0..zones {
        if volume.has_zone_bit(k + 1) {
            continue;
        }
        free += 1;
    }
    free
}
