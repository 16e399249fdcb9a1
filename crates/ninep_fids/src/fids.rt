//! The fids of a connection.

ghost use Rattle.std.specs.Prelude.{◌≡◌, [], OnOk, OnErr};
ghost use Rattle.std.specs.Result.{result_map_both};
ghost use Rattle.std.specs.Map.{set_value};
ghost use Rattle.std.specs.BTreeMap.{is_at, insert_entry};
ghost use Rattle.std.specs.Ordering.{nat_cmp};

use crate::checks::check_closed;
use crate::fid::Fid;
use crate::paths::check_name;
use errno::Errno;
use std::alloc::{AllocError, Global};
use std::collections::BTreeMap;
use talks::refused::Refused;

/// The most fids of a connection; past them a walk or an attach is refused with ENFILE.
pub const MAX_FIDS: usize = 4096;

/// The fids of a connection, by their numbers.
#[derive(Drop)]
pub struct Fids {
    fids: BTreeMap<u32, Fid>,
}

impl Fids {
    ghost use Rattle.ninep_fids.specs.Knowledge.{table_of, found, named, opened, seen, file_of, new_fid, has_fid, without};
    ghost use Rattle.ninep_fids.specs.Checks.{named_for, unopened};
    ghost use Rattle.ninep_fids.specs.Fids.{EachBecomes, IsRenamed, IsUnlinked};

    /// None.
    pub fn new(alloc: Global) -> Fids
        ensures { table_of result ≡ [] }
    {
        Fids {
            fids: BTreeMap::new(alloc),
        }
    }

    /// What a fid stands for; EBADF where there is none.
    pub fn get(&self, fid: u32) -> Result<&Fid, Refused>
        ensures { seen result ≡ found (table_of self.now) fid }
    {
        match self.fids.get(&fid) {
            Some(found) => Ok(found),
            None => Err(Refused::By(Errno::EBADF)),
        }
    }

    /// What a fid stands for whose node has its name; ESTALE where it has lost it.
    pub fn named(&self, fid: u32) -> Result<&Fid, Refused>
        ensures { seen result ≡ named (table_of self.now) fid }
    {
        let found = self.get(fid)?;
        if found.gone {
            return Err(Refused::Stale);
        }
        Ok(found)
    }

    /// What a fid stands for whose node has its name, where this name may be given besides.
    pub fn named_for(&self, fid: u32, name: &[u8]) -> Result<&Fid, Refused>
        ensures { seen result ≡ named_for (table_of self.now) fid name.now }
    {
        let found = self.named(fid)?;
        check_name(name)?;
        Ok(found)
    }

    /// What a fid stands for that isn't open, and whose node has its name; EINVAL where it is open.
    pub fn unopened(&self, fid: u32) -> Result<&Fid, Refused>
        ensures { seen result ≡ unopened (table_of self.now) fid }
    {
        let found = self.named(fid)?;
        check_closed(found.descriptor)?;
        Ok(found)
    }

    /// The descriptor of an open fid, with its session; EBADF where it isn't open.
    pub fn open(&self, fid: u32) -> Result<(u8, u32), Refused>
        ensures { result ≡ opened (table_of self.now) fid }
    {
        let found = self.get(fid)?;
        match found.descriptor {
            Some(fd) => Ok((found.user.session, fd)),
            None => Err(Refused::By(Errno::EBADF)),
        }
    }

    /// Refuses a number for a new fid: EINVAL where it is used, ENFILE where there are as many fids as may be.
    pub fn check_new(&self, fid: u32) -> Result<(), Refused>
        ensures { result ≡ new_fid (table_of self.now) fid }
    {
        if self.fids.contains_key(&fid) {
            return Err(Refused::By(Errno::EINVAL));
        }
        if self.fids.len() >= MAX_FIDS {
            return Err(Refused::By(Errno::ENFILE));
        }
        Ok(())
    }

    /// The number stands for this from now on.
    pub fn put(&mut self, fid: u32, what: Fid) -> Result<(), AllocError>
        ensures ok { OnOk result (table_of self.new ≡ insert_entry nat_cmp (table_of self.old) fid (file_of what)) }
        ensures err { OnErr result (table_of self.new ≡ table_of self.old) }
    {
        self.fids.insert(fid, what)?;
        Ok(())
    }

    /// A fid stands for this from now on, in place of what it stood for.
    pub fn replace(&mut self, fid: u32, what: Fid)
        ensures { table_of self.new ≡ set_value (is_at (nat_cmp fid)) (table_of self.old) (file_of what) }
    {
        match self.fids.get_mut(&fid) {
            Some(found) => *found = what,
            None => {}
        }
    }

    /// Lets a fid go.
    pub fn take(&mut self, fid: u32) -> Result<Fid, Refused>
        ensures taken { result_map_both file_of (λ e. e) result ≡ found (table_of self.old) fid }
        ensures same { OnErr result (table_of self.new ≡ table_of self.old) }
        ensures left { table_of self.new ≡ without (table_of self.old) fid }
    {
        match self.fids.remove(&fid) {
            Some(taken) => Ok(taken),
            None => Err(Refused::By(Errno::EBADF)),
        }
    }

    /// Whether one of them is this user's.
    pub fn has(&self, uid: u16) -> bool
        ensures { result ≡ has_fid (table_of self.now) uid }
    {
        self.fids.values().any(|fid| fid.user.uid == uid)
    }

    /// A name was changed: each fid stays on its node.
    pub fn rename(&mut self, alloc: Global, old: &[u8], new: &[u8])
        ensures { EachBecomes (IsRenamed old.now new.now) (table_of self.old) (table_of self.new) }
    {
        self.fids.retain(|_, fid| {
            fid.rename(alloc, old, new);
            true
        });
    }

    /// A name was taken away: what had it is gone.
    pub fn unlink(&mut self, path: &[u8])
        ensures { EachBecomes (IsUnlinked path.now) (table_of self.old) (table_of self.new) }
    {
        self.fids.retain(|_, fid| {
            fid.unlink(path);
            true
        });
    }

    /// All go.
    pub fn clear(&mut self)
        ensures { table_of self.new ≡ [] }
    {
        self.fids.clear();
    }
}
