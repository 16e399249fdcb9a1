//! Names: further ones, changed ones, and ones that are taken away.

ghost use Rattle.std.specs.Prelude.{◌≡◌};
ghost use Rattle.ninep_fids.specs.Knowledge.{known_of};
ghost use Rattle.ninep_fids.specs.Checks.{is_directory};
ghost use Rattle.talks.specs.Plain.{plain_call};
ghost use Rattle.ninep_server.specs.Naming.{links, renames, renames_at, unlinks, unlink_call, removes};
ghost use Rattle.ninep_server.specs.Progress.{AsksNext, BeginsAs, GoesOnAs, Leaves, behind, left_of_link, left_of_next, left_of_rename};
ghost use Rattle.ninep_server.specs.Progress.{left_of_unlink, left_of_remove};

use crate::opening::Close;
use crate::work::{NameWork, Next, Work};
use ninep_fids::answer::NinepAnswer;
use ninep_fids::checks::is_directory;
use ninep_fids::knows::Knows;
use ninep_fids::paths::{below, called, check_name};
use talks::ask::Ask;
use talks::flags::has;
use talks::heard::Heard;
use talks::refused::Refused;
use tree::Call;

/// A file is given a further name.
#[derive(Drop)]
pub(crate) struct Link {
    session: u8,
    old: Vec<u8>,
    new: Vec<u8>,
}

impl Link {
    pub(crate) fn begin<'m>(
        knows: &Knows,
        directory: u32,
        fid: u32,
        name: &[u8],
    ) -> Result<Next<'m>, Refused>
        ensures { BeginsAs (links (known_of knows.now) directory fid name.now) knows.now knows.now result }
    {
        let parent = knows.fids.named(directory)?;
        let file = knows.fids.named(fid)?;
        check_name(name)?;
        Ok(Next::Go(Work::Name(NameWork::Link(Link {
            session: parent.user.session,
            old: file.path.to_vec(knows.alloc)?,
            new: below(knows.alloc, &parent.path, name)?,
        }))))
    }

    pub(crate) fn ask(&self) -> Ask<'_>
        ensures { AsksNext (left_of_link self.now) result }
    {
        Ask::Call {
            session: self.session,
            call: Call::Link {
                old: called(&self.old),
                new: called(&self.new),
            },
        }
    }

    pub(crate) fn hear<'m>(self, heard: Heard) -> Result<Next<'m>, Refused>
        ensures { GoesOnAs (left_of_link self) heard result }
    {
        heard.done()?;
        Ok(Next::Done(NinepAnswer::Link))
    }
}

/// A name is changed, which one of two requests asks for. Then the old name is looked at: a rename of two names of one file leaves both.
#[derive(Drop)]
pub(crate) struct Rename {
    session: u8,
    old: Vec<u8>,
    new: Vec<u8>,
    /// Whether the rename was done.
    done: bool,
    then: NinepAnswer,
}

impl Rename {
    /// The file of a fid gets another name.
    pub(crate) fn of_fid<'m>(
        knows: &Knows,
        fid: u32,
        directory: u32,
        name: &[u8],
    ) -> Result<Next<'m>, Refused>
        ensures { BeginsAs (renames (known_of knows.now) fid directory name.now) knows.now knows.now result }
    {
        let file = knows.fids.named(fid)?;
        let parent = knows.fids.named_for(directory, name)?;
        Ok(Next::Go(Work::Name(NameWork::Rename(Rename {
            session: parent.user.session,
            old: file.path.to_vec(knows.alloc)?,
            new: below(knows.alloc, &parent.path, name)?,
            done: false,
            then: NinepAnswer::Rename,
        }))))
    }

    /// What has a name in a directory gets another one.
    pub(crate) fn at<'m>(
        knows: &Knows,
        old: (u32, &[u8]),
        new: (u32, &[u8]),
    ) -> Result<Next<'m>, Refused>
        ensures { BeginsAs (renames_at (known_of knows.now) old.entry.0 old.entry.1.now new.entry.0 new.entry.1.now) knows.now knows.now result }
    {
        let from = knows.fids.named(old.0)?;
        let to = knows.fids.named(new.0)?;
        check_name(old.1)?;
        check_name(new.1)?;
        Ok(Next::Go(Work::Name(NameWork::Rename(Rename {
            session: from.user.session,
            old: below(knows.alloc, &from.path, old.1)?,
            new: below(knows.alloc, &to.path, new.1)?,
            done: false,
            then: NinepAnswer::Renameat,
        }))))
    }

    pub(crate) fn ask(&self) -> Ask<'_>
        ensures { AsksNext (left_of_rename self.now) result }
    {
        let old = called(&self.old);
        let call = if self.done {
            Call::Lstat { path: old }
        } else {
            Call::Rename {
                old,
                new: called(&self.new),
            }
        };
        Ask::Call {
            session: self.session,
            call,
        }
    }

    /// Each fid stays on its node.
    pub(crate) fn hear<'m>(self, knows: &mut Knows, heard: Heard) -> Result<Next<'m>, Refused>
        ensures { Leaves (behind (left_of_rename self) heard) (known_of knows.old) (left_of_next result) (known_of knows.new) }
    {
        if !self.done {
            heard.done()?;
            return Ok(Next::Go(Work::Name(NameWork::Rename(Rename { done: true, ..self }))));
        }
        if heard.attributes().is_err() {
            knows.fids.rename(knows.alloc, &self.old, &self.new);
        }
        Ok(Next::Done(self.then))
    }
}

/// The flag by which a directory's name is taken away.
const REMOVE_DIRECTORY: u32 = 0x200;

/// The call that takes a name away.
fn unlinking(path: &[u8], directory: bool) -> Call<'_>
    ensures { plain_call result ≡ unlink_call path.now directory }
{
    let path = called(path);
    if directory {
        Call::Rmdir { path }
    } else {
        Call::Unlink { path }
    }
}

/// A name in a directory is taken away.
#[derive(Drop)]
pub(crate) struct Unlink {
    session: u8,
    path: Vec<u8>,
    directory: bool,
}

impl Unlink {
    pub(crate) fn begin<'m>(
        knows: &Knows,
        directory: u32,
        name: &[u8],
        flags: u32,
    ) -> Result<Next<'m>, Refused>
        ensures { BeginsAs (unlinks (known_of knows.now) directory name.now flags) knows.now knows.now result }
    {
        let parent = knows.fids.named_for(directory, name)?;
        Ok(Next::Go(Work::Name(NameWork::Unlink(Unlink {
            session: parent.user.session,
            path: below(knows.alloc, &parent.path, name)?,
            directory: has(flags, REMOVE_DIRECTORY),
        }))))
    }

    pub(crate) fn ask(&self) -> Ask<'_>
        ensures { AsksNext (left_of_unlink self.now) result }
    {
        Ask::Call {
            session: self.session,
            call: unlinking(&self.path, self.directory),
        }
    }

    pub(crate) fn hear<'m>(self, knows: &mut Knows, heard: Heard) -> Result<Next<'m>, Refused>
        ensures { Leaves (behind (left_of_unlink self) heard) (known_of knows.old) (left_of_next result) (known_of knows.new) }
    {
        heard.done()?;
        knows.fids.unlink(&self.path);
        Ok(Next::Done(NinepAnswer::Unlinkat))
    }
}

/// The name of a fid is taken away, and the fid is let go, whatever the answer.
#[derive(Drop)]
pub(crate) struct Remove {
    session: u8,
    path: Vec<u8>,
    directory: bool,
    /// Whether its user has another fid.
    stays: bool,
    descriptor: Option<u32>,
}

impl Remove {
    pub(crate) fn begin<'m>(knows: &mut Knows, fid: u32) -> Result<Next<'m>, Refused>
        ensures { BeginsAs (removes (known_of knows.old) fid) knows.old knows.new result }
    {
        let (taken, stays) = knows.take(fid)?;
        let session = taken.user.session;
        if taken.gone {
            let stale = NinepAnswer::Refused(Refused::Stale);
            return Ok(Close::let_go(stays, session, taken.descriptor, stale));
        }
        Ok(Next::Go(Work::Name(NameWork::Remove(Remove {
            session,
            directory: is_directory(taken.node.kind),
            path: taken.path,
            stays,
            descriptor: taken.descriptor,
        }))))
    }

    pub(crate) fn ask(&self) -> Ask<'_>
        ensures { AsksNext (left_of_remove self.now) result }
    {
        Ask::Call {
            session: self.session,
            call: unlinking(&self.path, self.directory),
        }
    }

    pub(crate) fn hear<'m>(self, knows: &mut Knows, heard: Heard) -> Result<Next<'m>, Refused>
        ensures { Leaves (behind (left_of_remove self) heard) (known_of knows.old) (left_of_next result) (known_of knows.new) }
    {
        let (stays, session, descriptor) = (self.stays, self.session, self.descriptor);
        match heard.done() {
            Ok(()) => {
                knows.fids.unlink(&self.path);
                Ok(Close::let_go(stays, session, descriptor, NinepAnswer::Remove))
            }
            Err(refused) => {
                let answer = NinepAnswer::Refused(refused);
                Ok(Close::let_go(stays, session, descriptor, answer))
            }
        }
    }
}
