//! Why a message is refused that can't be read.

ghost use Rattle.std.specs.Prelude.{◌≡◌};
ghost use Rattle.ninep_fids.specs.Faults.{refusal_for};

use errno::Errno;
use ninep::fault::MalformedMessage;
use talks::refused::Refused;

/// Why a message isn't taken that has a tag.
pub fn refusal_of(fault: MalformedMessage) -> Refused
    ensures { result ≡ refusal_for fault }
{
    match fault {
        MalformedMessage::Unknown => Refused::Unsupported,
        MalformedMessage::Short
        | MalformedMessage::Size
        | MalformedMessage::ManyNames
        | MalformedMessage::Trailing => { Refused::By(Errno::EINVAL) }
    }
}
