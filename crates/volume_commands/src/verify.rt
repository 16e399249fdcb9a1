//! Checking a volume, from the bytes of its file to the line of the verdict.

ghost use Rattle.std.specs.Prelude.{◌≡◌, Some, Ok, Err, IfOk, IfErr, string_bytes};
ghost use Rattle.std.specs.Io.KnownBytes.{Appends};
ghost use Rattle.volume.specs.Verdict.{Verdict as OfVolume};
ghost use Rattle.fsck.specs.Shown.{shown};
ghost use Rattle.output.specs.Output.{AppendsPart, Tells};
ghost use Rattle.volume_commands.specs.Verifying.{IsToldWhole, IsVerdictOn, IsUnverified, IsUntold, TellsMending, found_as, mending_text, missing_text, partition_text, verdict_text, verified_as, verified_number, verify_text, volume_at};

use fsck::{Verdict, check};
use media::partition::{PartitionRefusal, PlaceRefusal, volume_place};
use media::{MOST_BYTES, SECTOR};
use output::{Told, tell, write_text};
use std::alloc::{AllocError, Global};
use std::fmt;
use std::io::Write;

/// The number of the finding of wrong links.
const WRONG_LINKS: u32 = 16;

/// Why a file holds no volume of a minor.
#[derive(Clone, Copy, Debug, PartialEq, Eq)]
pub enum NoVolume {
    /// It isn't whole sectors of 512 bytes. Looked for with minors above 0 alone, as are all of these.
    NotSectors,
    /// It has over 67108864 bytes.
    TooManySectors,
    /// It has no partition of this minor.
    Place(PlaceRefusal),
}

/// Why nothing is said of a volume.
#[derive(Clone, Copy)]
pub enum VerifyRefusal<'n> {
    /// The file of this name can't be read.
    CannotRead(&'n str),
    /// The file holds no such volume.
    Missing(NoVolume),
    /// No memory was found.
    OutOfMemory,
    /// Standard output refused bytes; those before them went out.
    NotWritten,
}

impl fmt::Display for VerifyRefusal<'_> {
    ghost output = { λ refusal. Some (verify_text refusal) };

    fn fmt<W: fmt::Write>(&self, f: &mut fmt::Formatter<W>) -> fmt::Result {
        match self {
            VerifyRefusal::CannotRead(name) => write!(f, "cannot read {name}"),
            VerifyRefusal::Missing(refusal) => f.write_str(text_of_missing(*refusal)),
            VerifyRefusal::OutOfMemory => f.write_str("OutOfMemory"),
            VerifyRefusal::NotWritten => f.write_str("cannot write standard output"),
        }
    }
}

/// What is said where there is no volume.
pub(crate) fn text_of_missing(refusal: NoVolume) -> &'static str
    ensures { result.now ≡ missing_text refusal }
{
    match refusal {
        NoVolume::NotSectors => "Media NotWholeSectors",
        NoVolume::TooManySectors => "Media TooLarge",
        NoVolume::Place(PlaceRefusal::Table(refusal)) => text_of_partition(refusal),
        NoVolume::Place(PlaceRefusal::NoPartition) => "Partition",
    }
}

/// What is said of a table that is refused.
fn text_of_partition(refusal: PartitionRefusal) -> &'static str
    ensures { result.now ≡ partition_text refusal }
{
    match refusal {
        PartitionRefusal::NoSignature => "Partition NoSignature",
        PartitionRefusal::PastMedia => "Partition PastMedia",
        PartitionRefusal::Overlap => "Partition Overlap",
    }
}

/// How a verifying ended.
#[derive(Clone, Copy, Debug, PartialEq, Eq)]
pub enum Verified {
    /// The volume is clean.
    IsClean,
    /// It breaks a rule.
    HasFinding,
    /// The first rule that it breaks is that of the links, finding 16. A line was to say what mends it if a removed file was open.
    HasWrongLinks,
    /// Nothing was said of it, or not all, and a line was to say why.
    Refused(Told),
}

impl Verified {
    /// The status of the process: 0 where the volume is clean, else 1.
    pub fn number(self) -> u8
        ensures { result ≡ verified_number self }
    {
        match self {
            Verified::IsClean => 0,
            Verified::HasFinding => 1,
            Verified::HasWrongLinks => 1,
            Verified::Refused(_) => 1,
        }
    }
}

/// Checks the volume in a file, whose bytes are none where it couldn't be read, and writes on `out` the line `clean` or `finding N at P`.
/// With minor 0 the volume is all of the file, and with another one a partition of the disk that it holds. Where nothing can be said of
/// it, or the line can't be written, a line on `err` says why; how that line went out is handed back. Where the links are wrong, a line on
/// `err` says what mends that, if a removed file was open when the image was taken.
pub fn verify<W: Write, E: Write>(
    alloc: Global,
    name: &str,
    file: Option<&[u8]>,
    minor: u8,
    out: &mut W,
    err: &mut E,
) -> Verified
    ensures told { IsToldWhole result → (verdict : OfVolume) × IsVerdictOn file.entry minor verdict × (result ≡ verified_as verdict)
        × Appends (W.contents out.old) (W.contents out.new) (verdict_text verdict)
        × TellsMending E.contents result err.old err.new }
    ensures refused { (told : Told) → result ≡ Verified.Refused told → (refusal : VerifyRefusal)
        × Tells (Some (verify_text refusal)) told (E.contents err.old) (E.contents err.new)
        × IsUntold file.entry name.entry minor refusal (out.new ≡ out.old) (AppendsPart (W.contents out.old) (W.contents out.new)) }
{
    match try_verify(alloc, name, file, minor, out) {
        Ok(verified) => {
            tell_mending(alloc, verified, err);
            verified
        }
        Err(refusal) => Verified::Refused(tell(alloc, err, &refusal)),
    }
}

/// What is said of wrong links.
#[derive(Clone, Copy)]
struct Mending;

impl fmt::Display for Mending {
    ghost output = { λ _. Some mending_text };

    fn fmt<W: fmt::Write>(&self, f: &mut fmt::Formatter<W>) -> fmt::Result {
        f.write_str("if a removed file was open, mfs or mfs9p with --out mends it")
    }
}

/// Says on `err` what mends wrong links, where these were told.
fn tell_mending<E: Write>(alloc: Global, verified: Verified, err: &mut E)
    ensures { TellsMending E.contents verified err.old err.new }
{
    if let Verified::HasWrongLinks = verified {
        tell(alloc, err, &Mending);
    }
}

/// The same, but for the lines on `err`.
fn try_verify<'n, W: Write>(
    alloc: Global,
    name: &'n str,
    file: Option<&[u8]>,
    minor: u8,
    out: &mut W,
) -> Result<Verified, VerifyRefusal<'n>>
    ensures told { IfOk result (λ verified. IsToldWhole verified × ((verdict : OfVolume) × IsVerdictOn file.entry minor verdict
        × (verified ≡ verified_as verdict)
        × Appends (W.contents out.old) (W.contents out.new) (verdict_text verdict))) }
    ensures refused { IfErr result (λ refusal. IsUntold file.entry name.entry minor refusal (out.new ≡ out.old)
        (AppendsPart (W.contents out.old) (W.contents out.new))) }
{
    let verdict = verdict_on(alloc, name, file, minor)?;
    let Ok(line) = line_of(alloc, &verdict) else {
        return Err(VerifyRefusal::OutOfMemory);
    };
    match write_text(out, line.as_bytes()) {
        Ok(()) => Ok(ended_by(&verdict)),
        Err(_) => Err(VerifyRefusal::NotWritten),
    }
}

/// How a verifying ends that told this verdict.
fn ended_by(verdict: &Verdict) -> Verified
    ensures told { IsToldWhole result }
    ensures verdict { result ≡ verified_as (shown verdict.now) }
{
    match verdict {
        Verdict::Clean(_) => Verified::IsClean,
        Verdict::Found(finding) => found_as(finding.number),
    }
}

/// How it ends that told a finding of this number.
fn found_as(number: u32) -> Verified
    ensures told { IsToldWhole result }
    ensures finding { result ≡ found_as number }
{
    if number == WRONG_LINKS {
        return Verified::HasWrongLinks;
    }
    Verified::HasFinding
}

/// The line of a verdict.
fn line_of(alloc: Global, verdict: &Verdict) -> Result<String, AllocError>
    ensures { IfOk result (λ line. string_bytes line ≡ verdict_text (shown verdict.now)) }
{
    match verdict {
        Verdict::Clean(_) => String::from_str(alloc, "clean\n"),
        Verdict::Found(finding) => format!(in alloc; "{finding}\n"),
    }
}

/// The verdict on the volume of a minor in a file.
fn verdict_on<'n>(
    alloc: Global,
    name: &'n str,
    file: Option<&[u8]>,
    minor: u8,
) -> Result<Verdict, VerifyRefusal<'n>>
    ensures verdict { IfOk result (λ verdict. IsVerdictOn file.entry minor (shown verdict)) }
    ensures refused { IfErr result (IsUnverified file.entry name.entry minor) }
{
    let Some(bytes) = file else {
        return Err(VerifyRefusal::CannotRead(name));
    };
    let volume = match volume_in(bytes, minor) {
        Ok(volume) => volume,
        Err(refusal) => return Err(VerifyRefusal::Missing(refusal)),
    };
    match check(alloc, volume) {
        Ok(verdict) => Ok(verdict),
        Err(_) => Err(VerifyRefusal::OutOfMemory),
    }
}

/// The bytes in which the volume of a minor lies.
pub(crate) fn volume_in(bytes: &[u8], minor: u8) -> Result<&[u8], NoVolume>
    ensures volume { IfOk result (λ volume. volume_at bytes.now minor ≡ Ok volume.now) }
    ensures refused { IfErr result (λ refusal. volume_at bytes.now minor ≡ Err refusal) }
{
    if minor == 0 {
        return Ok(bytes);
    }
    let (sectors, rest) = bytes.as_chunks::<SECTOR>();
    if !rest.is_empty() {
        return Err(NoVolume::NotSectors);
    }
    if bytes.len() > MOST_BYTES {
        return Err(NoVolume::TooManySectors);
    }
    match volume_place(sectors, minor) {
        Ok((first, count)) => {
            let place = SECTOR * first as usize;
            Ok(&bytes[place..place + SECTOR * count as usize])
        }
        Err(refusal) => Err(NoVolume::Place(refusal)),
    }
}
