//! Changes of attributes: which ones a message wants, in the order in which they are made.

ghost use Rattle.std.specs.Prelude.{◌≡◌, [], ◌∷◌, MatchOption, Ok};
ghost use Rattle.talks.specs.Plain.{plain_call};
ghost use Rattle.talks.specs.Changes.{size_wanted, mode_wanted, owner_wanted, seconds_in, time_wanted, times_wanted, comes_with_size};
ghost use Rattle.talks.specs.Changes.{changes_wanted, may_change, in_order, change_call};

use crate::flags::{has, mode_of};
use crate::refused::Refused;
use errno::Errno;
use tree::{Attributes, Call, PathFrom};

/// The bits that say which attributes are changed, and whether times are given or are now.
const MODE: u32 = 0x1;

const UID: u32 = 0x2;

const GID: u32 = 0x4;

const SIZE: u32 = 0x8;

const ATIME: u32 = 0x10;

const MTIME: u32 = 0x20;

const ATIME_SET: u32 = 0x80;

const MTIME_SET: u32 = 0x100;

/// The largest signed number of 64 bits.
const LARGEST: u64 = 0x7fff_ffff_ffff_ffff;

/// The attributes that a client wants changed: those of the bits of `valid`.
#[derive(Clone, Copy)]
pub struct Wanted {
    pub valid: u32,
    pub mode: u32,
    pub uid: u32,
    pub gid: u32,
    pub size: u64,
    /// Seconds since 1970: a signed number, as the other time given.
    pub atime: u64,
    pub mtime: u64,
    /// The time that "now" means.
    pub now: u32,
}

/// What a size becomes, if it changes. EFBIG where it doesn't fit the volume.
fn size(valid: u32, given: u64) -> Result<Option<u32>, Refused>
    ensures { result ≡ size_wanted valid given }
{
    if !has(valid, SIZE) {
        return Ok(None);
    }
    match u32::try_from(given) {
        Ok(size) => Ok(Some(size)),
        Err(_) => Err(Refused::By(Errno::EFBIG)),
    }
}

/// What a mode becomes, if it changes: its permissions.
fn mode(valid: u32, given: u32) -> Option<u16>
    ensures { result ≡ mode_wanted valid given }
{
    if has(valid, MODE) {
        Some(mode_of(given))
    } else {
        None
    }
}

/// Whether the only time that is wanted is that of the change of size that is wanted, now: the server sets it with the size.
fn comes_with_size(valid: u32) -> bool
    ensures { result ≡ comes_with_size valid }
{
    has(valid, SIZE) && !has(valid, ATIME | MTIME_SET)
}

/// The time that a volume has instead of a given one: 0 for one below, the last one for one past it.
fn seconds(given: u64) -> u32
    ensures { result ≡ seconds_in given }
{
    if given > LARGEST {
        return 0;
    }
    match u32::try_from(given) {
        Ok(seconds) => seconds,
        Err(_) => u32::MAX,
    }
}

/// What a time becomes: the given one, now, or what it was.
fn time(valid: u32, bits: (u32, u32), given: u64, now: u32, was: u32) -> u32
    ensures { result ≡ time_wanted valid bits given now was }
{
    if !has(valid, bits.0) {
        was
    } else if has(valid, bits.1) {
        seconds(given)
    } else {
        now
    }
}

/// What an owner becomes: the given one, or what it was. EINVAL where it doesn't fit the volume.
fn owner(valid: u32, bit: u32, given: u32, was: u16) -> Result<u16, Refused>
    ensures { result ≡ owner_wanted valid bit given was }
{
    if !has(valid, bit) {
        return Ok(was);
    }
    match u16::try_from(given) {
        Ok(number) => Ok(number),
        Err(_) => Err(Refused::By(Errno::EINVAL)),
    }
}

/// A change of a node.
#[derive(Clone, Copy)]
pub enum Change {
    Size(u32),
    Owners(u16, u16),
    Mode(u16),
    Times(u32, u32),
}

impl Change {
    /// The call that makes it.
    pub fn call<'a>(&self, path: PathFrom<'a>) -> Call<'a>
        ensures { plain_call result ≡ change_call path.entry self.now }
    {
        match *self {
            Change::Size(size) => Call::Truncate { path, size },
            Change::Owners(uid, gid) => Call::Chown { path, uid, gid },
            Change::Mode(mode) => Call::Chmod { path, mode },
            Change::Times(atime, mtime) => Call::Utime { path, atime, mtime },
        }
    }
}

/// What is left to change, in this order.
#[derive(Clone, Copy)]
pub struct Changes {
    size: Option<u32>,
    owners: Option<(u16, u16)>,
    mode: Option<u16>,
    times: Option<(u32, u32)>,
}

impl Wanted {
    /// Both times, where the node is so: that of access, and that of the last change of bytes.
    fn times(&self, was: &Attributes) -> (u32, u32)
        ensures { result ≡ times_wanted self.entry.now was.now }
    {
        let atime = (ATIME, ATIME_SET);
        let mtime = (MTIME, MTIME_SET);
        (
            time(self.valid, atime, self.atime, self.now, was.atime),
            time(self.valid, mtime, self.mtime, self.now, was.mtime),
        )
    }

    /// The changes, where the node is so. EFBIG, EINVAL: a size, an owner doesn't fit the volume.
    pub fn changes(&self, was: &Attributes) -> Result<Changes, Refused>
        ensures { result ≡ changes_wanted self.entry.now was.now }
    {
        let valid = self.valid;
        let size = size(valid, self.size)?;
        let uid = owner(valid, UID, self.uid, was.uid)?;
        let gid = owner(valid, GID, self.gid, was.gid)?;
        Ok(Changes {
            size,
            owners: if has(valid, UID | GID) {
                Some((uid, gid))
            } else {
                None
            },
            mode: mode(valid, self.mode),
            times: if has(valid, ATIME | MTIME) && !comes_with_size(valid) {
                Some(self.times(was))
            } else {
                None
            },
        })
    }
}

impl Changes {
    /// None.
    pub fn none() -> Changes
        ensures { in_order result ≡ [] }
    {
        Changes {
            size: None,
            owners: None,
            mode: None,
            times: None,
        }
    }

    /// Refuses what the server would refuse of them to a user, but for the size, where the node is so. EPERM.
    pub fn check(&self, uid: u16, was: &Attributes) -> Result<(), Refused>
        ensures { result ≡ may_change uid was.now self.now }
    {
        let owns = uid == 0 || uid == was.uid;
        if self.owners.is_some() && uid != 0 {
            return Err(Refused::By(Errno::EPERM));
        }
        if (self.mode.is_some() || self.times.is_some()) && !owns {
            return Err(Refused::By(Errno::EPERM));
        }
        Ok(())
    }

    /// The first of them, and those behind it.
    pub fn split_first(self) -> Option<(Change, Changes)>
        ensures { MatchOption result (in_order self ≡ []) (λ parts. in_order self ≡ parts.0 ∷ in_order parts.1) }
    {
        if let Some(size) = self.size {
            Some((Change::Size(size), Changes { size: None, ..self }))
        } else if let Some((uid, gid)) = self.owners {
            let rest = Changes {
                owners: None,
                ..self
            };
            Some((Change::Owners(uid, gid), rest))
        } else if let Some(mode) = self.mode {
            Some((Change::Mode(mode), Changes { mode: None, ..self }))
        } else if let Some((atime, mtime)) = self.times {
            Some((Change::Times(atime, mtime), Changes::none()))
        } else {
            None
        }
    }
}
