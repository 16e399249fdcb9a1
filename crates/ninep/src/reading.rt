//! A request, read from its bytes.

ghost use Rattle.std.specs.Prelude.{◌≡◌, Ok, IfOk};
ghost use Rattle.ninep.specs.Requests.{Tagged, IsRequest, spelling, view};
ghost use Rattle.ninep.specs.Parts.{Gives};
ghost use Rattle.ninep.specs.Reading.{rest_at, request_at};

use crate::fault::MalformedMessage;
use crate::fields::{u8_at, u16_at, u32_at};
use crate::request::Message;
use crate::requests::typed;

/// A request without its size.
#[tactic(auto, unfolding(crate::specs::Reading::rest_at))]
fn rest_of(bytes: &[u8]) -> Result<Message<'_>, MalformedMessage>
    ensures { Gives (λ m. view m) result (rest_at bytes.now) }
{
    let (number, rest) = u8_at(bytes)?;
    let (tag, rest) = u16_at(rest)?;
    let (request, rest) = typed(number, rest)?;
    if !rest.is_empty() {
        return Err(MalformedMessage::Trailing);
    }
    Ok(Message { tag, request })
}

/// The request that the bytes say.
#[tactic(auto, unfolding(crate::specs::Reading::request_at))]
fn whole_of(bytes: &[u8]) -> Result<Message<'_>, MalformedMessage>
    ensures { Gives (λ m. view m) result (request_at bytes.now) }
{
    let (size, rest) = u32_at(bytes)?;
    if size as usize != bytes.len() {
        return Err(MalformedMessage::Size);
    }
    rest_of(rest)
}

/// The request that the bytes say, all of the bytes, or the first fault from left to right. It takes no memory: names, targets and data
/// stay where they are.
pub fn read(bytes: &[u8]) -> Result<Message<'_>, MalformedMessage>
    ensures found { IfOk result (λ m. IsRequest (view m) × (bytes.now ≡ spelling (view m))) }
    ensures only { (m : Tagged) → IsRequest m → bytes.now ≡ spelling m → Gives (λ r. view r) result (Ok m) }
    ensures exact { Gives (λ m. view m) result (request_at bytes.now) }
{
    whole_of(bytes)
}
