//! Fields that are put behind the bytes of a buffer.

ghost use Rattle.std.specs.Prelude.{◌≡◌, ◌≤◌, ◌<◌, ◌+◌, ◌++◌, length, vec_capacity, OnOk, OnErr};
ghost use Rattle.std.specs.List.{flat_map};
ghost use Rattle.fields.specs.Fields.{Two, Four, Eight, number_bytes};
ghost use Rattle.fields.specs.Puts.{StandsFirst, part_bytes};

use std::alloc::AllocError;

/// A number of two bytes.
#[tactic(auto, unfolding(crate::specs::Fields::number_bytes))]
fn put_u16(out: &mut Vec<u8>, n: u16) -> Result<(), AllocError>
    ensures ok { OnOk result (out.new.items ≡ out.old.items ++ number_bytes Two n) }
    ensures kept { OnErr result (StandsFirst out.old.items out.new.items) }
    ensures full { OnErr result (vec_capacity out.old < length out.old.items + length (number_bytes Two n)) }
    ensures capacity { vec_capacity out.old ≤ vec_capacity out.new }
{
    out.extend_from_slice(&n.to_le_bytes())
}

/// A number of four bytes.
#[tactic(auto, unfolding(crate::specs::Fields::number_bytes))]
fn put_u32(out: &mut Vec<u8>, n: u32) -> Result<(), AllocError>
    ensures ok { OnOk result (out.new.items ≡ out.old.items ++ number_bytes Four n) }
    ensures kept { OnErr result (StandsFirst out.old.items out.new.items) }
    ensures full { OnErr result (vec_capacity out.old < length out.old.items + length (number_bytes Four n)) }
    ensures capacity { vec_capacity out.old ≤ vec_capacity out.new }
{
    out.extend_from_slice(&n.to_le_bytes())
}

/// A number of eight bytes.
#[tactic(auto, unfolding(crate::specs::Fields::number_bytes))]
fn put_u64(out: &mut Vec<u8>, n: u64) -> Result<(), AllocError>
    ensures ok { OnOk result (out.new.items ≡ out.old.items ++ number_bytes Eight n) }
    ensures kept { OnErr result (StandsFirst out.old.items out.new.items) }
    ensures full { OnErr result (vec_capacity out.old < length out.old.items + length (number_bytes Eight n)) }
    ensures capacity { vec_capacity out.old ≤ vec_capacity out.new }
{
    out.extend_from_slice(&n.to_le_bytes())
}

/// A field, as it is written: numbers have their lowest byte first.
#[derive(Clone, Copy)]
pub enum Part<'a> {
    U16(u16),
    U32(u32),
    U64(u64),
    /// Bytes as they are.
    Bytes(&'a [u8]),
}

/// A field.
fn put(out: &mut Vec<u8>, part: &Part<'_>) -> Result<(), AllocError>
    ensures ok { OnOk result (out.new.items ≡ out.old.items ++ part_bytes part.now) }
    ensures kept { OnErr result (StandsFirst out.old.items out.new.items) }
    ensures full { OnErr result (vec_capacity out.old < length out.old.items + length (part_bytes part.now)) }
    ensures capacity { vec_capacity out.old ≤ vec_capacity out.new }
{
    match *part {
        Part::U16(n) => put_u16(out, n),
        Part::U32(n) => put_u32(out, n),
        Part::U64(n) => put_u64(out, n),
        Part::Bytes(bytes) => out.extend_from_slice(bytes),
    }
}

/// Fields, one behind the other. An error: no memory was found for them; what stood in `out` stands there, and a part of the fields
/// may stand behind it.
pub fn put_all(out: &mut Vec<u8>, parts: &[Part<'_>]) -> Result<(), AllocError>
    ensures ok { OnOk result (out.new.items ≡ out.old.items ++ flat_map part_bytes parts.now) }
    ensures kept { OnErr result (StandsFirst out.old.items out.new.items) }
    ensures full { OnErr result (vec_capacity out.old < length out.old.items + length (flat_map part_bytes parts.now)) }
    ensures capacity { vec_capacity out.old ≤ vec_capacity out.new }
{
    for part in parts {
        put(out, part)?;
    }
    Ok(())
}
