//! Attributes: told, and changed.

ghost use Rattle.std.specs.Prelude.{[], Ok};
ghost use Rattle.ninep_fids.specs.Knowledge.{Known, known_of};
ghost use Rattle.ninep_fids.specs.Paths.{placed};
ghost use Rattle.talks.specs.Changes.{in_order};
ghost use Rattle.ninep_server.specs.Messages.{telling};
ghost use Rattle.ninep_server.specs.Settings.{changing, sets};
ghost use Rattle.ninep_server.specs.Progress.{AsksNext, BeginsAs, GoesOnAs, Leaves, left_of_getattr, left_of_next, left_of_setattr};

use crate::work::{AttributeWork, Next, Work};
use ninep_fids::answer::NinepAnswer;
use ninep_fids::checks::check_changeable;
use ninep_fids::knows::Knows;
use ninep_fids::paths::{called, placed};
use ninep_fids::told::told;
use ninep_fids::users::User;
use talks::ask::Ask;
use talks::changes::{Change, Changes, Wanted};
use talks::heard::Heard;
use talks::refused::Refused;
use tree::{Call, Start};

/// The attributes of a fid are asked for: by its descriptor where it is open, else by its path.
#[derive(Drop)]
pub(crate) struct Getattr {
    session: u8,
    path: Vec<u8>,
    descriptor: Option<u32>,
}

impl Getattr {
    /// ESTALE where the node has lost its name and isn't open.
    pub(crate) fn begin<'m>(knows: &Knows, fid: u32) -> Result<Next<'m>, Refused>
        ensures { BeginsAs (telling (known_of knows.now) fid) knows.now knows.now result }
    {
        let file = knows.fids.get(fid)?;
        if file.gone && file.descriptor.is_none() {
            return Err(Refused::Stale);
        }
        Ok(Next::Go(Work::Attribute(AttributeWork::Getattr(Getattr {
            session: file.user.session,
            path: file.path.to_vec(knows.alloc)?,
            descriptor: file.descriptor,
        }))))
    }

    pub(crate) fn ask(&self) -> Ask<'_>
        ensures { AsksNext (left_of_getattr self.now) result }
    {
        let call = match self.descriptor {
            Some(fd) => Call::Fstat { fd },
            None => Call::Lstat {
                path: called(&self.path),
            },
        };
        Ask::Call {
            session: self.session,
            call,
        }
    }

    pub(crate) fn hear<'m>(self, heard: Heard) -> Result<Next<'m>, Refused>
        ensures { GoesOnAs (left_of_getattr self) heard result }
    {
        Ok(Next::Done(NinepAnswer::Getattr(told(&heard.attributes()?))))
    }
}

/// Attributes of a fid are changed: first it is looked at, and at whether they may be, and then one change is made after the other.
#[derive(Drop)]
pub(crate) struct Setattr {
    user: User,
    start: Start,
    path: Vec<u8>,
    wanted: Wanted,
    /// The change that is made; none at the look.
    change: Option<Change>,
    /// What is left to change behind it.
    left: Changes,
}

impl Setattr {
    /// By the path, or by the inode where the node has lost its name and user 0's fid is open: else it is ESTALE then. EOPNOTSUPP for a
    /// symbolic link.
    pub(crate) fn begin<'m>(knows: &Knows, fid: u32, wanted: Wanted) -> Result<Next<'m>, Refused>
        ensures { BeginsAs (sets (known_of knows.now) fid wanted) knows.now knows.now result }
    {
        let file = knows.fids.get(fid)?;
        let start = file.start()?;
        check_changeable(file.node.kind)?;
        Ok(Next::Go(Work::Attribute(AttributeWork::Setattr(Setattr {
            user: file.user,
            start,
            path: file.path.to_vec(knows.alloc)?,
            wanted,
            change: None,
            left: Changes::none(),
        }))))
    }

    /// The call of its stage.
    #[tactic(auto, using(crate::proofs::ChangeCalls::called_alike))]
    fn call(&self) -> Call<'_>
        ensures { AsksNext (left_of_setattr self.now) (Ask.Call self.now.user.session result) }
    {
        match &self.change {
            Some(change) => change.call(placed(self.start, &self.path)),
            None => Call::Lstat {
                path: placed(self.start, &self.path),
            },
        }
    }

    pub(crate) fn ask(&self) -> Ask<'_>
        ensures { AsksNext (left_of_setattr self.now) result }
    {
        Ask::Call {
            session: self.user.session,
            call: self.call(),
        }
    }

    /// Goes on to what is left to change, or to the end.
    fn onward<'m>(self, left: Changes) -> Next<'m>
        ensures { (k : Known) → Leaves (changing self.user.session (placed self.start self.path.items) (in_order left)) k
            (left_of_next (Ok result)) k }
    {
        match left.split_first() {
            Some((change, left)) => Next::Go(Work::Attribute(AttributeWork::Setattr(Setattr {
                change: Some(change),
                left,
                ..self
            }))),
            None => Next::Done(NinepAnswer::Setattr),
        }
    }

    pub(crate) fn hear<'m>(self, heard: Heard) -> Result<Next<'m>, Refused>
        ensures { GoesOnAs (left_of_setattr self) heard result }
    {
        match self.change {
            None => {
                let was = heard.attributes()?;
                let left = self.wanted.changes(&was)?;
                left.check(self.user.uid, &was)?;
                Ok(self.onward(left))
            }
            Some(_) => {
                heard.done()?;
                let left = self.left;
                Ok(self.onward(left))
            }
        }
    }
}
