//! Whether another image was copied over one whose log asks for changes of it, as a kill leaves both; and how the log is kept from being
//! older than the image while its own program writes that.

ghost use Rattle.std.specs.Prelude.{◌≡◌, ◌+◌, ◌<◌, ◌↔◌, ◌⊎◌, IsTrue, IfSome, None, true};
ghost use Rattle.std.specs.Time.{system_time_nanos};

use crate::storing::is_due;
use std::fs::{File, Metadata};
use std::io;
use std::os::unix::fs::MetadataExt;
use std::time::SystemTime;

/// How many nanoseconds later than its due log an image may have been changed.
const SECOND: u64 = 1_000_000_000;

/// How many nanoseconds old the last touch of a due log is at most when its program writes the image.
const HALF: u128 = 500_000_000;

/// When a file was changed last, be it in its bytes, its name, its owner or its permissions: in nanoseconds since 1970; 0 before that,
/// 2^64 - 1 from 2554 on.
fn changed_at(metadata: &Metadata) -> u64 {
    let secs = u64::try_from(metadata.ctime()).unwrap_or(0);
    let nanos = u64::try_from(metadata.ctime_nsec()).unwrap_or(0);
    secs.saturating_mul(SECOND).saturating_add(nanos)
}

/// Whether an image that was changed at the one time, in nanoseconds, isn't that of its log, which was changed at the other one: the log is
/// due, and the image is more than a second later.
fn is_later(image: u64, log: u64, is_due: bool) -> bool
    ensures { IsTrue result ↔ (IsTrue is_due × (log + 1_000_000_000 < image)) }
{
    is_due && image.saturating_sub(log) > SECOND
}

/// Whether a due log that was touched then, if it was, is to be touched before its image is written now: also where the clock was set back.
pub(crate) fn is_old(touched: Option<SystemTime>, now: SystemTime) -> bool
    ensures never { touched ≡ None → result ≡ true }
    ensures again { IfSome touched (λ then. IsTrue result ↔ ((system_time_nanos now < system_time_nanos then)
        ⊎ (system_time_nanos then + 500_000_000 < system_time_nanos now))) }
{
    let Some(then) = touched else {
        return true;
    };
    match now.duration_since(then) {
        Ok(since) => since.as_nanos() > HALF,
        Err(_) => true,
    }
}

/// Whether another image was copied over this one, whose log is due.
pub(crate) fn is_copied_over(image: &File, log: &File) -> io::Result<bool> {
    let told = image.metadata()?;
    let is_due = is_due(log, told.ino())?;
    Ok(is_later(changed_at(&told), changed_at(&log.metadata()?), is_due))
}

/// Makes the system count a log as changed now, in none of its bytes. Its owner may set a time of it; whoever else may write it gives it
/// the length that it has.
pub(crate) fn touch(log: &File, now: SystemTime) -> io::Result<()> {
    match log.set_modified(now) {
        Ok(()) => Ok(()),
        Err(_) => log.set_len(log.metadata()?.len()),
    }
}
