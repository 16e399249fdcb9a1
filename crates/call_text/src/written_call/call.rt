//! Calls as words write them.

ghost use Rattle.std.specs.Prelude.{◌≡◌, ◌++◌, OnOk, OnErr, length, replicate};
ghost use Rattle.call_text.specs.WrittenCalls.{decoded, meant, plain};

use crate::bytes::push_hex;
use std::alloc::AllocError;
use tree::Call;

/// A call as words write it: the bytes of a write are still to be decoded.
#[derive(Clone, Copy)]
pub enum WrittenCall<'t> {
    /// A call that has no bytes but its paths, which stand in the text.
    Whole(Call<'t>),
    /// `write FD HEX`: a write of the bytes that pairs of hexadecimal digits write.
    Hex { fd: u32, digits: &'t [u8] },
    /// `fill FD COUNT HH`: a write of so many equal bytes, at most 131072.
    Fill { fd: u32, count: u32, byte: u8 },
}

impl WrittenCall<'_> {
    /// How many bytes are decoded for it.
    #[tactic(auto, using(crate::proofs::Decoded::half_as_long))]
    pub fn decoded_len(&self) -> usize
        ensures { result ≡ length (decoded self.now) }
    {
        match self {
            WrittenCall::Whole(_) => 0,
            WrittenCall::Hex { fd: _, digits } => digits.len() / 2,
            WrittenCall::Fill {
                fd: _,
                count,
                byte: _,
            } => *count as usize,
        }
    }

    /// Adds the bytes that are decoded for it, or none where no memory is found for all of them.
    pub fn decode(&self, to: &mut Vec<u8>) -> Result<(), AllocError>
        ensures ok { OnOk result (to.new.items ≡ to.old.items ++ decoded self.now) }
        ensures err { OnErr result (to.new.items ≡ to.old.items) }
    {
        match self {
            WrittenCall::Whole(_) => Ok(()),
            WrittenCall::Hex { fd: _, digits } => push_hex(to, digits),
            WrittenCall::Fill { fd: _, count, byte } => push_equal(to, *count, *byte),
        }
    }
}

/// Adds so many equal bytes, or none where no memory is found for all of them.
fn push_equal(to: &mut Vec<u8>, count: u32, byte: u8) -> Result<(), AllocError>
    ensures ok { OnOk result (to.new.items ≡ to.old.items ++ replicate count byte) }
    ensures err { OnErr result (to.new.items ≡ to.old.items) }
{
    to.resize(to.len() + count as usize, byte)
}

impl<'t> WrittenCall<'t> {
    /// The call, with the bytes that were decoded for it.
    pub fn call(&self, bytes: &'t [u8]) -> Call<'t>
        requires { bytes.now ≡ decoded self.now }
        ensures { plain result ≡ meant self.now }
    {
        match *self {
            WrittenCall::Whole(call) => call,
            WrittenCall::Hex { fd, digits: _ } => Call::Write { fd, bytes },
            WrittenCall::Fill {
                fd,
                count: _,
                byte: _,
            } => Call::Write { fd, bytes },
        }
    }
}
