//! Linux's flags of open, modes and groups, as the server's calls have them.

ghost use Rattle.std.specs.Prelude.{◌≡◌, ◌≤◌, ◌%◌, IfOk};
ghost use Rattle.talks.specs.Flags.{is_set};
ghost use Rattle.ninep_fids.specs.Flags.{flag_for, open_bits, group_of};

use crate::users::User;
use errno::Errno;
use talks::flags::has;
use talks::refused::Refused;

/// The bits of Linux's flags of open that mean something here, beside the access; the others are passed over.
pub const EXCLUSIVE: u32 = 0o200;

const TRUNCATE: u32 = 0o1000;

const APPEND: u32 = 0o2000;

/// A flag of the server's open, where a bit is set.
pub fn flag_for(flags: u32, bit: u32, flag: u8) -> u8
    ensures flag { result ≡ flag_for flags bit flag }
    ensures most { result ≤ flag }
{
    if has(flags, bit) { flag } else { 0 }
}

/// The flags of the server's open; EINVAL where they name no access. Without writing nothing is truncated or appended.
pub fn bits_of(flags: u32) -> Result<u8, Refused>
    ensures bits { result ≡ open_bits flags }
    ensures few { IfOk result (λ bits. bits ≤ 39) }
{
    let access = match flags % 4 {
        0 => return Ok(1),
        1 => 2,
        2 => 3,
        _ => return Err(Refused::By(Errno::EINVAL)),
    };
    Ok(access + (flag_for(flags, TRUNCATE, 32) + flag_for(flags, APPEND, 4)))
}

/// The group that a new node is given: the one that is asked for, where user 0 asks and it isn't its own; EINVAL where it is past 65535.
pub fn group_of(user: User, gid: u32) -> Result<Option<u16>, Refused>
    ensures { result ≡ group_of user gid }
{
    if user.uid != 0 || gid == 0 {
        return Ok(None);
    }
    if gid > 0xffff {
        return Err(Refused::By(Errno::EINVAL));
    }
    Ok(Some(gid as u16))
}
