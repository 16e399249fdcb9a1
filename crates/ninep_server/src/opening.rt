//! Opening, letting go, and reading a link.

ghost use Rattle.std.specs.Prelude.{◌≡◌, Ok, take};
ghost use Rattle.ninep_fids.specs.Knowledge.{known_of};
ghost use Rattle.ninep_fids.specs.Nodes.{said_of};
ghost use Rattle.ninep_fids.specs.Plans.{closing, letting_go};
ghost use Rattle.ninep_server.specs.Opens.{opens};
ghost use Rattle.ninep_server.specs.Messages.{clunking, following};
ghost use Rattle.ninep_server.specs.Progress.{AsksNext, BeginsAs, GoesOnAs, Leaves, behind, left_of_close, left_of_opening};
ghost use Rattle.ninep_server.specs.Progress.{left_of_readlink, left_of_next};

use crate::work::{DataWork, Next, OpenWork, Work};
use bitflags::Flags;
use ninep_fids::answer::NinepAnswer;
use ninep_fids::checks::check_kind;
use ninep_fids::fid::{Fid, Node};
use ninep_fids::flags::bits_of;
use ninep_fids::knows::Knows;
use ninep_fids::paths::called;
use ninep_fids::users::User;
use talks::ask::{Ask, Leaving};
use talks::heard::Heard;
use talks::refused::Refused;
use talks::target::bytes_of;
use tree::{Call, OpenFlags};

/// A fid is opened.
#[derive(Drop)]
pub(crate) struct Opening {
    fid: u32,
    user: User,
    path: Vec<u8>,
    node: Node,
    flags: OpenFlags,
}

impl Opening {
    /// EINVAL where it is open, ELOOP where it stands on a symbolic link.
    pub(crate) fn begin<'m>(knows: &Knows, fid: u32, flags: u32) -> Result<Next<'m>, Refused>
        ensures { BeginsAs (opens (known_of knows.now) fid flags) knows.now knows.now result }
    {
        let file = knows.fids.unopened(fid)?;
        check_kind(file.node.kind)?;
        let bits = bits_of(flags)?;
        Ok(Next::Go(Work::Open(OpenWork::Open(Opening {
            fid,
            user: file.user,
            path: file.path.to_vec(knows.alloc)?,
            node: file.node,
            flags: OpenFlags::from_bits_retain(bits),
        }))))
    }

    pub(crate) fn ask(&self) -> Ask<'_>
        ensures { AsksNext (left_of_opening self.now) result }
    {
        Ask::Call {
            session: self.user.session,
            call: Call::Open {
                path: called(&self.path),
                flags: self.flags,
                mode: 0,
            },
        }
    }

    pub(crate) fn hear<'m>(self, knows: &mut Knows, heard: Heard) -> Result<Next<'m>, Refused>
        ensures { Leaves (behind (left_of_opening self) heard) (known_of knows.old) (left_of_next result) (known_of knows.new) }
    {
        let fd = heard.descriptor()?;
        let (fid, node) = (self.fid, self.node);
        knows
            .fids
            .replace(fid, Fid::open(self.user, self.path, node, fd));
        Ok(Next::Done(NinepAnswer::Open(node.qid())))
    }
}

/// A descriptor is closed, or a session ends, and then this is answered, whatever the close says.
#[derive(Drop)]
pub(crate) struct Close {
    session: u8,
    /// The descriptor; none: the session ends, which closes all that it has open.
    fd: Option<u32>,
    answer: NinepAnswer,
}

impl Close {
    /// Closes a descriptor, if there is one; then this is answered.
    pub(crate) fn begin<'m>(session: u8, descriptor: Option<u32>, answer: NinepAnswer) -> Next<'m>
        ensures { left_of_next (Ok result) ≡ closing session descriptor (said_of answer) }
    {
        match descriptor {
            Some(_) => Next::Go(Work::Open(OpenWork::Close(Close {
                session,
                fd: descriptor,
                answer,
            }))),
            None => Next::Done(answer),
        }
    }

    /// Behind a fid that was let go: closes its descriptor, if there is one, where its user stays; else that one's session ends.
    pub(crate) fn let_go<'m>(
        stays: bool,
        session: u8,
        descriptor: Option<u32>,
        answer: NinepAnswer,
    ) -> Next<'m>
        ensures { left_of_next (Ok result) ≡ letting_go stays session descriptor (said_of answer) }
    {
        if stays {
            return Close::begin(session, descriptor, answer);
        }
        Next::Go(Work::Open(OpenWork::Close(Close {
            session,
            fd: None,
            answer,
        })))
    }

    /// Lets a fid go.
    pub(crate) fn clunk<'m>(knows: &mut Knows, fid: u32) -> Result<Next<'m>, Refused>
        ensures { BeginsAs (clunking (known_of knows.old) fid) knows.old knows.new result }
    {
        let (gone, stays) = knows.take(fid)?;
        let session = gone.user.session;
        Ok(Close::let_go(stays, session, gone.descriptor, NinepAnswer::Clunk))
    }

    pub(crate) fn ask(&self) -> Ask<'_>
        ensures { AsksNext (left_of_close self.now) result }
    {
        let session = self.session;
        match self.fd {
            Some(fd) => Ask::Call {
                session,
                call: Call::Close { fd },
            },
            None => Ask::Leave(Leaving::One(session)),
        }
    }

    pub(crate) fn hear<'m>(self) -> Next<'m>
        ensures { result ≡ Next.Done self.answer }
    {
        Next::Done(self.answer)
    }
}

/// The target of a symbolic link is read.
#[derive(Drop)]
pub(crate) struct Readlink {
    session: u8,
    path: Vec<u8>,
}

impl Readlink {
    pub(crate) fn begin<'m>(knows: &Knows, fid: u32) -> Result<Next<'m>, Refused>
        ensures { BeginsAs (following (known_of knows.now) fid) knows.now knows.now result }
    {
        let link = knows.fids.named(fid)?;
        Ok(Next::Go(Work::Data(DataWork::Readlink(Readlink {
            session: link.user.session,
            path: link.path.to_vec(knows.alloc)?,
        }))))
    }

    pub(crate) fn ask(&self) -> Ask<'_>
        ensures { AsksNext (left_of_readlink self.now) result }
    {
        Ask::Call {
            session: self.session,
            call: Call::Readlink {
                path: called(&self.path),
            },
        }
    }

    pub(crate) fn hear<'m>(self, knows: &Knows, heard: Heard) -> Result<Next<'m>, Refused>
        ensures { GoesOnAs (left_of_readlink self) heard result }
    {
        let target = heard.target()?;
        let bytes = bytes_of(&target).to_vec(knows.alloc)?;
        Ok(Next::Done(NinepAnswer::Readlink(bytes)))
    }
}
