//! How a connection begins, and how users attach.

ghost use Rattle.std.specs.Prelude.{◌≤◌, Ok};

use crate::work::{FidWork, Next, Work};
use errno::Errno;
use ninep_fids::answer::NinepAnswer;
use ninep_fids::fid::{Fid, Node};
use ninep_fids::knows::{Knows, MAX_MESSAGE, MIN_MESSAGE};
use ninep_fids::users::{User, number_of};
use talks::ask::Ask;
use talks::heard::Heard;
use talks::refused::Refused;
use tree::{Call, PathFrom};

/// A connection begins, once all sessions of the one before have ended.
#[derive(Drop)]
pub(crate) struct Version {
    message_size: u32,
    known: bool,
    ghost sized: { (4096 ≤ message_size) × (message_size ≤ 65560) },
}

impl Version {
    ghost use Rattle.ninep_fids.specs.Knowledge.{Known, known_of};
    ghost use Rattle.ninep_server.specs.Attaching.{begins};
    ghost use Rattle.ninep_server.specs.Progress.{Leaves, behind, left_of_next, left_of_version};

    /// Refused with EINVAL where messages would be shorter than may be.
    pub(crate) fn begin<'m>(message_size: u32, version: &[u8]) -> Result<Next<'m>, Refused>
        ensures { (k : Known) → Leaves (begins message_size version.now) k (left_of_next result) k }
    {
        if message_size < MIN_MESSAGE {
            return Err(Refused::By(Errno::EINVAL));
        }
        Ok(Next::Go(Work::Fid(FidWork::Version(Version {
            message_size: message_size.min(MAX_MESSAGE),
            known: version == b"9P2000.L".as_slice(),
        }))))
    }

    /// The sessions have ended.
    pub(crate) fn hear<'m>(self, knows: &mut Knows, heard: &Heard) -> Next<'m>
        ensures { Leaves (behind (left_of_version self) heard.now) (known_of knows.old) (left_of_next (Ok result)) (known_of knows.new) }
    {
        knows.users.clear();
        knows.fids.clear();
        knows.message_size = self.message_size;
        Next::Done(NinepAnswer::Version {
            message_size: self.message_size,
            known: self.known,
        })
    }
}

/// A user attaches.
#[derive(Clone, Copy)]
pub(crate) enum Attach {
    /// It asks for a session.
    Enter { fid: u32, uid: u16 },
    /// It looks at the root.
    Root { fid: u32, user: User },
}

impl Attach {
    ghost use Rattle.ninep_fids.specs.Knowledge.{known_of};
    ghost use Rattle.ninep_server.specs.Attaching.{attaching};
    ghost use Rattle.ninep_server.specs.Progress.{AsksNext, BeginsAs, Leaves, behind, left_of_attach, left_of_next};

    pub(crate) fn begin<'m>(knows: &mut Knows, fid: u32, uid: u32) -> Result<Next<'m>, Refused>
        ensures { BeginsAs (attaching (known_of knows.old) fid uid) knows.old knows.new result }
    {
        knows.fids.check_new(fid)?;
        let uid = number_of(uid)?;
        knows.users.reserve()?;
        let work = match knows.users.find(uid) {
            Some(user) => Attach::Root { fid, user },
            None => Attach::Enter { fid, uid },
        };
        Ok(Next::Go(Work::Fid(FidWork::Attach(work))))
    }

    pub(crate) fn ask(&self) -> Ask<'_>
        ensures { AsksNext (left_of_attach self.now) result }
    {
        match self {
            Attach::Enter { uid, .. } => Ask::Enter {
                uid: *uid,
                gid: *uid,
            },
            Attach::Root { user, .. } => Ask::Call {
                session: user.session,
                call: Call::Lstat {
                    path: PathFrom::root(b"/"),
                },
            },
        }
    }

    pub(crate) fn hear<'m>(self, knows: &mut Knows, heard: Heard) -> Result<Next<'m>, Refused>
        ensures { Leaves (behind (left_of_attach self) heard) (known_of knows.old) (left_of_next result) (known_of knows.new) }
    {
        match self {
            Attach::Enter { fid, uid } => {
                let session = heard.session()?;
                let user = User { uid, session };
                knows.users.put(user)?;
                Ok(Next::Go(Work::Fid(FidWork::Attach(Attach::Root { fid, user }))))
            }
            Attach::Root { fid, user } => {
                let root = Node::of(&heard.attributes()?);
                let path = Vec::new(knows.alloc);
                knows.fids.put(fid, Fid::closed(user, path, root))?;
                Ok(Next::Done(NinepAnswer::Attach(root.qid())))
            }
        }
    }
}
