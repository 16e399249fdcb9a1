//! A request, read from its bytes.

ghost use Rattle.std.specs.Prelude.{◌≡◌, Ok, IfOk};
ghost use Rattle.fields.specs.Parts.{Gives};
ghost use Rattle.fields.specs.Readers.{TakesAll};
ghost use Rattle.fuse.specs.Requests.{Asked, IsRequest, spelling, as_seen, view, asker_kinds, asker_fields};
ghost use Rattle.fuse.specs.Reading.{asker_at, rest_at, request_at};

use crate::request::Message;
use crate::requests::typed;
use fields::fault::MalformedMessage;
use fields::fields::u32_at;
use fields::reader::Reader;

/// Who asks, and about what.
#[derive(Clone, Copy)]
struct Asker {
    unique: u64,
    node: u64,
    uid: u32,
    gid: u32,
    pid: u32,
}

/// Who asks, and the bytes behind that.
fn asker_of(bytes: &[u8]) -> Result<(Asker, &[u8]), MalformedMessage>
    ensures { Gives (λ x. (asker_fields x.0.unique x.0.node x.0.uid x.0.gid x.0.pid, x.1.now)) result (asker_at bytes.now) }
{
    let mut reader = Reader { left: Ok(bytes) };
    let asker = Asker {
        unique: reader.u64(),
        node: reader.u64(),
        uid: reader.u32(),
        gid: reader.u32(),
        pid: reader.u32(),
    };
    reader.unused_u32();
    match reader.left {
        Ok(rest) => Ok((asker, rest)),
        Err(fault) => Err(fault),
    }
}

/// A request without its length.
#[tactic(auto, unfolding(crate::specs::Reading::rest_at))]
fn rest_of(bytes: &[u8]) -> Result<Message<'_>, MalformedMessage>
    ensures { Gives (λ m. view m) result (rest_at bytes.now) }
{
    let (opcode, rest) = u32_at(bytes)?;
    let (asker, rest) = asker_of(rest)?;
    let (request, rest) = typed(opcode, rest)?;
    if !rest.is_empty() {
        return Err(MalformedMessage::Trailing);
    }
    Ok(Message {
        unique: asker.unique,
        node: asker.node,
        uid: asker.uid,
        gid: asker.gid,
        pid: asker.pid,
        request,
    })
}

/// The request that the bytes say.
#[tactic(auto, unfolding(crate::specs::Reading::request_at))]
fn whole_of(bytes: &[u8]) -> Result<Message<'_>, MalformedMessage>
    ensures { Gives (λ m. view m) result (request_at bytes.now) }
{
    let (length, rest) = u32_at(bytes)?;
    if length as usize != bytes.len() {
        return Err(MalformedMessage::Size);
    }
    rest_of(rest)
}

/// The request that the bytes say, all of the bytes, or the first fault from left to right: a field, a name or the bytes of a WRITE pass
/// the end (`Short`), the length isn't that of the bytes (`Size`), or bytes stand behind the last field (`Trailing`). It takes no
/// memory: names, targets and data stay where they are.
pub fn read(bytes: &[u8]) -> Result<Message<'_>, MalformedMessage>
    ensures found { IfOk result (λ m. (full : Asked) × IsRequest full × (bytes.now ≡ spelling full) × (view m ≡ as_seen full)) }
    ensures only { (full : Asked) → IsRequest full → bytes.now ≡ spelling full → Gives (λ m. view m) result (Ok (as_seen full)) }
    ensures exact { Gives (λ m. view m) result (request_at bytes.now) }
{
    whole_of(bytes)
}
