//! Making a directory or a symbolic link.

ghost use Rattle.ninep_fids.specs.Knowledge.{known_of};
ghost use Rattle.ninep_server.specs.Opens.{makes_directory, makes_link};
ghost use Rattle.ninep_server.specs.Progress.{AsksNext, BeginsAs, GoesOnAs, left_of_making};

use crate::work::{Next, OpenWork, Work};
use ninep_fids::answer::NinepAnswer;
use ninep_fids::fid::Node;
use ninep_fids::flags::group_of;
use ninep_fids::knows::Knows;
use ninep_fids::paths::{below, called};
use talks::ask::Ask;
use talks::flags::mode_of;
use talks::heard::Heard;
use talks::refused::Refused;
use tree::Call;

/// What is made.
#[derive(Clone, Copy)]
pub(crate) enum Made<'m> {
    Directory { mode: u16 },
    Symlink { target: &'m [u8] },
}

/// How far the making is.
#[derive(Clone, Copy)]
enum Stage {
    /// It is made.
    Make,
    /// It is given its group.
    Chown { gid: u16 },
    /// It is looked at.
    Look,
}

/// A directory or a symbolic link is made.
#[derive(Drop)]
pub(crate) struct Making<'m> {
    session: u8,
    path: Vec<u8>,
    made: Made<'m>,
    /// The group that it is given; a symbolic link is given none.
    group: Option<u16>,
    stage: Stage,
}

impl<'m> Making<'m> {
    /// Makes a directory.
    pub(crate) fn mkdir(
        knows: &Knows,
        directory: u32,
        name: &[u8],
        mode: u32,
        gid: u32,
    ) -> Result<Next<'m>, Refused>
        ensures { BeginsAs (makes_directory (known_of knows.now) directory name.now mode gid) knows.now knows.now result }
    {
        let parent = knows.fids.named_for(directory, name)?;
        let group = group_of(parent.user, gid)?;
        Ok(Next::Go(Work::Open(OpenWork::Make(Making {
            session: parent.user.session,
            path: below(knows.alloc, &parent.path, name)?,
            made: Made::Directory {
                mode: mode_of(mode),
            },
            group,
            stage: Stage::Make,
        }))))
    }

    /// Makes a symbolic link.
    pub(crate) fn symlink(
        knows: &Knows,
        directory: u32,
        name: &[u8],
        target: &'m [u8],
    ) -> Result<Next<'m>, Refused>
        ensures { BeginsAs (makes_link (known_of knows.now) directory name.now target.now) knows.now knows.now result }
    {
        let parent = knows.fids.named_for(directory, name)?;
        Ok(Next::Go(Work::Open(OpenWork::Make(Making {
            session: parent.user.session,
            path: below(knows.alloc, &parent.path, name)?,
            made: Made::Symlink { target },
            group: None,
            stage: Stage::Make,
        }))))
    }

    /// The call of its stage.
    fn call(&self) -> Call<'_>
        ensures { AsksNext (left_of_making self.now) (Ask.Call self.now.session result) }
    {
        let path = called(&self.path);
        match self.stage {
            Stage::Make => match self.made {
                Made::Directory { mode } => Call::Mkdir { path, mode },
                Made::Symlink { target } => Call::Symlink { target, path },
            },
            Stage::Chown { gid } => Call::Chown { path, uid: 0, gid },
            Stage::Look => Call::Lstat { path },
        }
    }

    pub(crate) fn ask(&self) -> Ask<'_>
        ensures { AsksNext (left_of_making self.now) result }
    {
        Ask::Call {
            session: self.session,
            call: self.call(),
        }
    }

    pub(crate) fn hear(mut self, heard: Heard) -> Result<Next<'m>, Refused>
        ensures { GoesOnAs (left_of_making self.entry) heard result }
    {
        match self.stage {
            Stage::Make => {
                heard.done()?;
                self.stage = match self.group {
                    Some(gid) => Stage::Chown { gid },
                    None => Stage::Look,
                };
                Ok(Next::Go(Work::Open(OpenWork::Make(self))))
            }
            Stage::Chown { .. } => {
                heard.done()?;
                self.stage = Stage::Look;
                Ok(Next::Go(Work::Open(OpenWork::Make(self))))
            }
            Stage::Look => {
                let qid = Node::of(&heard.attributes()?).qid();
                Ok(Next::Done(match self.made {
                    Made::Directory { .. } => NinepAnswer::Mkdir(qid),
                    Made::Symlink { .. } => NinepAnswer::Symlink(qid),
                }))
            }
        }
    }
}
