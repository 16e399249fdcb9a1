//! Bits of flags and modes.

ghost use Rattle.std.specs.Prelude.{◌≡◌, ◌%◌};
ghost use Rattle.talks.specs.Flags.{is_set};

/// Whether a bit is set.
pub fn has(flags: u32, bit: u32) -> bool
    ensures { result ≡ is_set flags bit }
{
    flags & bit != 0
}

/// The permissions of a mode of Linux, without its set-user-id, set-group-id and sticky bits, of which a volume has none.
pub fn mode_of(mode: u32) -> u16
    ensures { result ≡ mode % 512 }
{
    (mode % 0o1000) as u16
}
