//! The entries of a directory: `.`, `..`, and the names in the order of their bytes. An offset counts them, as they were when the first of
//! them was told: so each entry that stays is told once, whatever is made or removed meanwhile.

ghost use Rattle.std.specs.Prelude.{◌<◌, ◌+◌, List};
ghost use Rattle.ninep_fids.specs.Knowledge.{known_of};
ghost use Rattle.ninep_server.specs.Listings.{lists};
ghost use Rattle.ninep_server.specs.Progress.{AsksNext, BeginsAs, Leaves, behind, left_of_listing, left_of_next};

use crate::transfer::least;
use crate::work::{DataWork, Next, Work};
use errno::Errno;
use ninep_fids::answer::NinepAnswer;
use ninep_fids::entries::{ENTRY_HEAD, Listed, entries_from};
use ninep_fids::fid::{Fid, Node};
use ninep_fids::knows::Knows;
use ninep_fids::paths::{called, parent};
use ninep_fids::users::User;
use talks::ask::Ask;
use talks::heard::Heard;
use talks::refused::Refused;
use tree::{Call, MAX_NAME};

/// The names of a directory are asked for, kept with its fid, and told.
#[derive(Drop)]
pub(crate) struct Listing {
    fid: u32,
    user: User,
    path: Vec<u8>,
    node: Node,
    fd: u32,
    /// The number of the directory in which it stands, once it is known.
    above: Option<u16>,
    offset: u64,
    limit: u32,
}

impl Listing {
    /// Tells the entries that the fid keeps; at offset 0, or where it keeps none, they are asked for. EINVAL where not even the longest entry
    /// has room.
    pub(crate) fn begin<'m>(
        knows: &Knows,
        fid: u32,
        offset: u64,
        count: u32,
    ) -> Result<Next<'m>, Refused>
        ensures { BeginsAs (lists (known_of knows.now) fid offset count) knows.now knows.now result }
    {
        let (_, fd) = knows.fids.open(fid)?;
        let directory = knows.fids.named(fid)?;
        let limit = least(count, knows.most());
        if (limit as usize) < ENTRY_HEAD + MAX_NAME {
            return Err(Refused::By(Errno::EINVAL));
        }
        let (user, node) = (directory.user, directory.node);
        if offset > 0 {
            if let Some(Listed { above, names }) = &directory.listed {
                let room = limit as usize;
                let bytes = entries_from(knows.alloc, node.inode, *above, names, offset, room)?;
                return Ok(Next::Done(NinepAnswer::Readdir(bytes)));
            }
        }
        Ok(Next::Go(Work::Data(DataWork::List(Listing {
            fid,
            user,
            path: directory.path.to_vec(knows.alloc)?,
            node,
            fd,
            above: None,
            offset,
            limit,
        }))))
    }

    pub(crate) fn ask(&self) -> Ask<'_>
        ensures { AsksNext (left_of_listing self.now) result }
    {
        let call = match self.above {
            None => Call::Lstat {
                path: called(parent(&self.path)),
            },
            Some(_) => Call::Readdir { fd: self.fd },
        };
        Ask::Call {
            session: self.user.session,
            call,
        }
    }

    pub(crate) fn hear<'m>(mut self, knows: &mut Knows, heard: Heard) -> Result<Next<'m>, Refused>
        ensures { Leaves (behind (left_of_listing self) heard) (known_of knows.old) (left_of_next result) (known_of knows.new) }
    {
        let Some(above) = self.above else {
            self.above = Some(heard.attributes()?.inode);
            return Ok(Next::Go(Work::Data(DataWork::List(self))));
        };
        let names = heard.names()?;
        let (node, room) = (self.node, self.limit as usize);
        let told = entries_from(knows.alloc, node.inode, above, &names, self.offset, room);
        let listed = Listed { above, names };
        let kept = Fid::listed(self.user, self.path, node, self.fd, listed);
        knows.fids.replace(self.fid, kept);
        Ok(Next::Done(NinepAnswer::Readdir(told?)))
    }
}
