//! The tag of a message.

ghost use Rattle.std.specs.Prelude.{◌≡◌, ◌<◌, IfOk, IfErr, IsErr, ◌↔◌, length};
ghost use Rattle.ninep_fids.specs.Written.{tag_in};

use talks::end::End;

/// The tag of a message.
pub fn tag_of(bytes: &[u8]) -> Result<u16, End>
    ensures tag { IfOk result (λ tag. tag ≡ tag_in bytes.now) }
    ensures none { IfErr result (λ e. e ≡ End.NoMessage) }
    ensures short { IsErr result ↔ (length bytes.now < 7) }
{
    if bytes.len() < 7 {
        return Err(End::NoMessage);
    }
    Ok(u16::from_le_bytes([bytes[5], bytes[6]]))
}
