//! What stands at the head of a message.

ghost use Rattle.std.specs.Prelude.{◌≡◌, ◌<◌, IfOk, IfErr, IsErr, ◌↔◌, length};
ghost use Rattle.fuse_server.specs.Messages.{opcode_in, unique_in, is_silent};

use fuse::opcode;
use talks::end::End;

/// The fewest bytes of a message.
pub(crate) const HEAD: u32 = 40;

/// Which request a message is, and the number by which its answer names it.
#[derive(Clone, Copy)]
pub(crate) struct Head {
    pub opcode: u32,
    pub unique: u64,
}

/// The head of a message. NoMessage: the bytes are fewer.
pub(crate) fn head_of(bytes: &[u8]) -> Result<Head, End>
    ensures found { IfOk result (λ head. (head.opcode ≡ opcode_in bytes.now) × (head.unique ≡ unique_in bytes.now)) }
    ensures none { IfErr result (λ e. e ≡ End.NoMessage) }
    ensures short { IsErr result ↔ (length bytes.now < 40) }
{
    if bytes.len() < HEAD as usize {
        return Err(End::NoMessage);
    }
    Ok(Head {
        opcode: u32::from_le_bytes([bytes[4], bytes[5], bytes[6], bytes[7]]),
        unique: u64::from_le_bytes([
            bytes[8], bytes[9], bytes[10], bytes[11], bytes[12], bytes[13], bytes[14], bytes[15],
        ]),
    })
}

/// Whether a request has no answer.
pub(crate) fn is_silent(opcode: u32) -> bool
    ensures { result ≡ is_silent opcode }
{
    opcode == opcode::FORGET || opcode == opcode::INTERRUPT || opcode == opcode::BATCH_FORGET
}
