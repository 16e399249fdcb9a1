//! Making a file, which its directory's fid stands for from then on, open.

ghost use Rattle.std.specs.Prelude.{◌≡◌, Ok, Some};
ghost use Rattle.ninep_fids.specs.Knowledge.{Known, known_of};
ghost use Rattle.ninep_fids.specs.Plans.{closing, error};
ghost use Rattle.ninep_fids.specs.Flags.{group_of};
ghost use Rattle.ninep_server.specs.Opens.{creates, is_taken, made_file};
ghost use Rattle.ninep_server.specs.Progress.{AsksNext, BeginsAs, Leaves, behind, left_of_creation, left_of_next};

use crate::opening::Close;
use crate::work::{Next, OpenWork, Work};
use bitflags::Flags;
use errno::Errno;
use ninep_fids::answer::NinepAnswer;
use ninep_fids::fid::{Fid, Node};
use ninep_fids::flags::{EXCLUSIVE, bits_of, group_of};
use ninep_fids::knows::Knows;
use ninep_fids::paths::{below, called, check_name};
use ninep_fids::users::User;
use talks::ask::Ask;
use talks::flags::{has, mode_of};
use talks::heard::Heard;
use talks::refused::Refused;
use tree::{Call, OpenFlags};

/// The flag of the server's open that makes a file, and the one by which it refuses a name that is taken.
const CREATE: u8 = 8;

const ONLY_NEW: u8 = 16;

/// The new file.
#[derive(Drop)]
pub(crate) struct NewFile {
    fid: u32,
    user: User,
    path: Vec<u8>,
}

/// How far the making is.
#[derive(Drop)]
pub(crate) enum Creation {
    /// It is made, at a new name, and opened.
    Make {
        file: NewFile,
        flags: OpenFlags,
        mode: u16,
        /// By what flags a file is opened that has the name already; none where it isn't.
        taken: Option<OpenFlags>,
        group: Option<u16>,
    },
    /// What has the name already is opened. It is given no group.
    Open {
        file: NewFile,
        flags: OpenFlags,
    },
    /// It is given its group.
    Chown {
        file: NewFile,
        fd: u32,
        gid: u16,
    },
    /// It is looked at.
    Look {
        file: NewFile,
        fd: u32,
    },
}

/// Whether something has the name already.
fn is_taken(refused: Refused) -> bool
    ensures { result ≡ is_taken refused }
{
    matches!(refused, Refused::By(Errno::EEXIST))
}

impl Creation {
    /// Where the name is taken what has it is opened, unless a new file alone is asked for.
    pub(crate) fn begin<'m>(
        knows: &Knows,
        fid: u32,
        name: &[u8],
        flags: u32,
        mode: u32,
        gid: u32,
    ) -> Result<Next<'m>, Refused>
        ensures { BeginsAs (creates (known_of knows.now) fid name.now flags mode gid) knows.now knows.now result }
    {
        let directory = knows.fids.unopened(fid)?;
        check_name(name)?;
        let bits = bits_of(flags)?;
        let taken = if has(flags, EXCLUSIVE) {
            None
        } else {
            Some(OpenFlags::from_bits_retain(bits))
        };
        let user = directory.user;
        let group = group_of(user, gid)?;
        let path = below(knows.alloc, &directory.path, name)?;
        Ok(Next::Go(Work::Open(OpenWork::Create(Creation::Make {
            file: NewFile { fid, user, path },
            flags: OpenFlags::from_bits_retain(bits + (CREATE + ONLY_NEW)),
            mode: mode_of(mode),
            taken,
            group,
        }))))
    }

    pub(crate) fn ask(&self) -> Ask<'_>
        ensures { AsksNext (left_of_creation self.now) result }
    {
        match self {
            Creation::Open { file, flags } => Ask::Call {
                session: file.user.session,
                call: Call::Open {
                    path: called(&file.path),
                    flags: *flags,
                    mode: 0,
                },
            },
            Creation::Make {
                file,
                flags,
                mode,
                ..
            } => Ask::Call {
                session: file.user.session,
                call: Call::Open {
                    path: called(&file.path),
                    flags: *flags,
                    mode: *mode,
                },
            },
            Creation::Chown { file, gid, .. } => Ask::Call {
                session: file.user.session,
                call: Call::Chown {
                    path: called(&file.path),
                    uid: 0,
                    gid: *gid,
                },
            },
            Creation::Look { file, fd } => Ask::Call {
                session: file.user.session,
                call: Call::Fstat { fd: *fd },
            },
        }
    }

    pub(crate) fn hear<'m>(self, knows: &mut Knows, heard: Heard) -> Result<Next<'m>, Refused>
        ensures { Leaves (behind (left_of_creation self) heard) (known_of knows.old) (left_of_next result) (known_of knows.new) }
    {
        match self {
            Creation::Make {
                file,
                taken,
                group,
                ..
            } => match heard.descriptor() {
                Ok(fd) => Ok(file.opened(fd, group)),
                Err(refused) => file.not_made(taken, refused),
            },
            Creation::Open { file, .. } => {
                let fd = heard.descriptor()?;
                Ok(file.opened(fd, None))
            }
            Creation::Chown { file, fd, .. } => match heard.done() {
                Ok(()) => Ok(Next::Go(Work::Open(OpenWork::Create(Creation::Look { file, fd })))),
                Err(refused) => Ok(file.give_up(fd, refused)),
            },
            Creation::Look { file, fd } => match heard.attributes() {
                Ok(attributes) => Ok(file.made(knows, fd, Node::of(&attributes))),
                Err(refused) => Ok(file.give_up(fd, refused)),
            },
        }
    }
}

impl NewFile {
    ghost use Rattle.ninep_server.specs.Opens.{became, not_made};

    /// It wasn't made: where the name is taken, what has it is opened by these flags, if any.
    fn not_made<'m>(self, taken: Option<OpenFlags>, refused: Refused) -> Result<Next<'m>, Refused>
        ensures { left_of_next result ≡ not_made self.fid self.user self.path.items taken refused }
    {
        match taken {
            Some(flags) if is_taken(refused) => {
                Ok(Next::Go(Work::Open(OpenWork::Create(Creation::Open { file: self, flags }))))
            }
            _ => Err(refused),
        }
    }

    /// It was made and opened: it is given its group, where it is given one, or looked at.
    fn opened<'m>(self, fd: u32, group: Option<u16>) -> Next<'m>
        ensures { left_of_next (Ok result) ≡ made_file self.fid self.user self.path.items group fd }
    {
        Next::Go(Work::Open(OpenWork::Create(match group {
            Some(gid) => Creation::Chown {
                file: self,
                fd,
                gid,
            },
            None => Creation::Look { file: self, fd },
        })))
    }

    /// The fid stands for the file from now on.
    fn made<'m>(self, knows: &mut Knows, fd: u32, node: Node) -> Next<'m>
        ensures { Leaves (became self.fid self.user self.path.items node fd) (known_of knows.old) (left_of_next (Ok result))
            (known_of knows.new) }
    {
        let fid = self.fid;
        knows
            .fids
            .replace(fid, Fid::open(self.user, self.path, node, fd));
        Next::Done(NinepAnswer::Create(node.qid()))
    }

    /// The file is closed, and the request is refused.
    fn give_up<'m>(self, fd: u32, refused: Refused) -> Next<'m>
        ensures { (k : Known) → Leaves (closing self.user.session (Some fd) (error refused)) k (left_of_next (Ok result)) k }
    {
        Close::begin(self.user.session, Some(fd), NinepAnswer::Refused(refused))
    }
}
