//! What the sessions answer.

ghost use Rattle.std.specs.Prelude.{◌≡◌, Ok, Err, IsOk, IfOk, MatchResult};
ghost use Rattle.std.specs.Result.{result_map_both};
ghost use Rattle.tree.specs.declared.Reply.TheVariants as reply;
ghost use Rattle.talks.specs.Hearing.{reply_in, done_in, attributes_in, descriptor_in, position_in, bytes_in, count_in, room_in};
ghost use Rattle.talks.specs.Hearing.{target_in, session_in, names_heard};
ghost use Rattle.talks.specs.Talks.{IsDone, Replies};

use crate::refused::Refused;
use crate::sessions::EnterRefusal;
use errno::Errno;
use tree::{Attributes, Entry, LinkTarget, Outcome, Reply, Statfs};

/// What the sessions answered.
#[derive(Drop)]
pub enum Heard {
    /// The session for a user, or why there is none.
    Entered(Result<u8, EnterRefusal>),
    /// Sessions ended.
    Left,
    /// The outcome of a call.
    Outcome(Outcome),
}

impl Heard {
    /// The number of a session.
    pub fn session(self) -> Result<u8, Refused>
        ensures { result ≡ session_in self }
    {
        match self {
            Heard::Entered(Ok(session)) => Ok(session),
            Heard::Entered(Err(refusal)) => Err(Refused::from(refusal)),
            Heard::Left | Heard::Outcome(_) => Err(Refused::By(Errno::EIO)),
        }
    }

    /// The reply of a call that wasn't refused; a call that was cut is EIO.
    fn reply(self) -> Result<Reply, Refused>
        ensures told { result ≡ reply_in self }
        ensures replies { IfOk result (λ it. Replies self it) }
    {
        match self {
            Heard::Outcome(Outcome::Reply(Reply::Refused(errno))) => Err(Refused::By(errno)),
            Heard::Outcome(Outcome::Reply(reply)) => Ok(reply),
            Heard::Outcome(Outcome::Cut) | Heard::Left | Heard::Entered(_) => {
                Err(Refused::By(Errno::EIO))
            }
        }
    }

    /// That the call was done.
    pub fn done(self) -> Result<(), Refused>
        ensures done { IsOk result → IsDone self }
        ensures told { MatchResult result (λ _. done_in self ≡ Ok reply.Done) (λ e. done_in self ≡ Err e) }
    {
        match self.reply() {
            Ok(Reply::Done) => Ok(()),
            Ok(_) => Err(Refused::By(Errno::EIO)),
            Err(refused) => Err(refused),
        }
    }

    /// The attributes of a node.
    pub fn attributes(self) -> Result<Attributes, Refused>
        ensures { result ≡ attributes_in self }
    {
        match self.reply() {
            Ok(Reply::Inode(attributes)) => Ok(attributes),
            Ok(_) => Err(Refused::By(Errno::EIO)),
            Err(refused) => Err(refused),
        }
    }

    /// A descriptor.
    pub fn descriptor(self) -> Result<u32, Refused>
        ensures { result ≡ descriptor_in self }
    {
        match self.reply() {
            Ok(Reply::Descriptor(fd)) => Ok(fd),
            Ok(_) => Err(Refused::By(Errno::EIO)),
            Err(refused) => Err(refused),
        }
    }

    /// The position that was set.
    pub fn at(self) -> Result<u32, Refused>
        ensures { result ≡ position_in self }
    {
        match self.reply() {
            Ok(Reply::At(position)) => Ok(position),
            Ok(_) => Err(Refused::By(Errno::EIO)),
            Err(refused) => Err(refused),
        }
    }

    /// The bytes of a file.
    pub fn bytes(self) -> Result<Vec<u8>, Refused>
        ensures { result_map_both (λ bytes. bytes.items) (λ e. e) result ≡ bytes_in self }
    {
        match self.reply() {
            Ok(Reply::Bytes(bytes)) => Ok(bytes),
            Ok(_) => Err(Refused::By(Errno::EIO)),
            Err(refused) => Err(refused),
        }
    }

    /// How many bytes were written.
    pub fn wrote(self) -> Result<u32, Refused>
        ensures { result ≡ count_in self }
    {
        match self.reply() {
            Ok(Reply::Wrote(count)) => Ok(count),
            Ok(_) => Err(Refused::By(Errno::EIO)),
            Err(refused) => Err(refused),
        }
    }

    /// The names of a directory.
    pub fn names(self) -> Result<Vec<Entry>, Refused>
        ensures { result_map_both (λ names. names.items) (λ e. e) result ≡ names_heard self }
    {
        match self.reply() {
            Ok(Reply::Names(names)) => Ok(names),
            Ok(_) => Err(Refused::By(Errno::EIO)),
            Err(refused) => Err(refused),
        }
    }

    /// The room of the volume.
    pub fn space(self) -> Result<Statfs, Refused>
        ensures { result ≡ room_in self }
    {
        match self.reply() {
            Ok(Reply::Space(room)) => Ok(room),
            Ok(_) => Err(Refused::By(Errno::EIO)),
            Err(refused) => Err(refused),
        }
    }

    /// The target of a symbolic link.
    pub fn target(self) -> Result<LinkTarget, Refused>
        ensures { result ≡ target_in self }
    {
        match self.reply() {
            Ok(Reply::Target(target)) => Ok(target),
            Ok(_) => Err(Refused::By(Errno::EIO)),
            Err(refused) => Err(refused),
        }
    }
}
