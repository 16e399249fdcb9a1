//! A mount, which answers the kernel's messages.

ghost use Rattle.std.specs.Prelude.{◌≡◌, ◌<◌, ◌+◌, ◌↔◌, IsTrue, Err, IfOk, IfErr, OnOk, OnErr, length, vec_len, vec_capacity};
ghost use Rattle.fuse_nodes.specs.Known.{known_of, at_first};
ghost use Rattle.fuse_server.specs.Messages.{opcode_in, is_silent};
ghost use Rattle.fuse_server.specs.Answering.{IsAnswered, IsAnsweredBy, IsTold, MayHearFrom};
ghost use Rattle.fuse_nodes.specs.Laws.{Steps};

use crate::heads::{HEAD, Head, head_of, is_silent};
use crate::send::{MAX_ANSWER, refuse, send};
use crate::talk::Seats;
use fuse_nodes::handles::Handles;
use fuse_nodes::nodes::Nodes;
use std::alloc::{AllocError, Global};
use talks::answers::Answers;
use talks::end::End;
use talks::sessions::Sessions;

/// The most bytes of a message: those of a write of 64 KiB, what stands before them, and some more. The kernel reads into no less room.
pub const MAX_MESSAGE: u32 = 69632;

/// A mount: what the kernel knows of a volume.
#[derive(Drop)]
pub struct Mount {
    pub(crate) alloc: Global,
    pub(crate) nodes: Nodes,
    pub(crate) handles: Handles,
    pub(crate) seats: Seats,
}

impl Mount {
    /// A mount that begins: the kernel knows the root alone. An error: no memory was found for it.
    pub fn new(alloc: Global) -> Result<Mount, AllocError>
        ensures { IfOk result (λ mount. known_of mount.nodes ≡ at_first) }
    {
        Ok(Mount {
            alloc,
            nodes: Nodes::new(alloc)?,
            handles: Handles::new(alloc),
            seats: Seats::new(alloc),
        })
    }

    /// Answers one message that has an answer, and this head. OutOfMemory: there was no room for any, nothing is asked, and all stays.
    fn reply<S: Sessions>(
        &mut self,
        sessions: &mut S,
        now: u32,
        head: Head,
        bytes: &[u8],
        out: &mut Vec<u8>,
    ) -> Result<(), End>
        ensures told { OnOk result (IsTold (MayHearFrom S.called S.entered S.left now) now (known_of self.old.nodes)
            (known_of self.new.nodes) bytes.now head.unique (vec_capacity out.old) sessions.old out.old.items sessions.new out.new.items) }
        ensures err { IfErr result (λ e. e ≡ End.OutOfMemory) }
        ensures full { OnErr result (vec_capacity out.old < vec_len out.old + 65552) }
        ensures none { OnErr result ((sessions.new ≡ sessions.old) × (self.new ≡ self.old) × (out.new.items ≡ out.old.items)) }
        ensures steps { Steps (known_of self.old.nodes) (known_of self.new.nodes) }
    {
        match out.reserve(MAX_ANSWER as usize) {
            Ok(()) => {
                let said = self.said_to(sessions, now, bytes);
                send(out, head.unique, &said);
                Ok(())
            }
            Err(_) => refuse(out, head.unique),
        }
    }

    /// Answers one message, all of its bytes: its answer is written behind what stands in `out`, by what the sessions answer to what they
    /// are asked. FORGET, BATCH_FORGET and INTERRUPT have none.
    ///
    /// Where no room is found for the longest answer there may be, nothing is asked, and the answer is ENOMEM. NoMessage: the bytes are
    /// fewer than 40. OutOfMemory: there was no room for that answer either. In both cases nothing is asked, and all stays.
    pub fn answer<S: Sessions>(
        &mut self,
        sessions: &mut S,
        now: u32,
        bytes: &[u8],
        out: &mut Vec<u8>,
    ) -> Result<(), End>
        ensures answered { OnOk result (IsAnswered (MayHearFrom S.called S.entered S.left now) now (known_of self.old.nodes)
            (known_of self.new.nodes) bytes.now (vec_capacity out.old) sessions.old out.old.items sessions.new out.new.items) }
        ensures silent { OnOk result ((out.new.items ≡ out.old.items) ↔ IsTrue (is_silent (opcode_in bytes.now))) }
        ensures short { (result ≡ Err End.NoMessage) ↔ (length bytes.now < 40) }
        ensures full { result ≡ Err End.OutOfMemory → vec_capacity out.old < vec_len out.old + 65552 }
        ensures none { OnErr result ((sessions.new ≡ sessions.old) × (self.new ≡ self.old) × (out.new.items ≡ out.old.items)) }
        ensures steps { Steps (known_of self.old.nodes) (known_of self.new.nodes) }
    {
        let head = head_of(bytes)?;
        if is_silent(head.opcode) {
            self.hear(bytes);
            return Ok(());
        }
        self.reply(sessions, now, head, bytes, out)
    }
}

impl Answers for Mount {
    ghost answers = { λ S called entered left bytes answer s m t n. IsAnsweredBy called entered left (known_of m.nodes) (known_of n.nodes)
        bytes answer s t };

    ghost fewest = { 40 };

    fn least(&self) -> u32 {
        HEAD
    }

    fn most(&self) -> u32 {
        MAX_MESSAGE
    }

    fn answer<S: Sessions>(
        &mut self,
        sessions: &mut S,
        now: u32,
        bytes: &[u8],
        out: &mut Vec<u8>,
    ) -> Result<(), End> {
        Mount::answer(self, sessions, now, bytes, out)
    }
}
