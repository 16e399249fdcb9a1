//! Users and their sessions.

ghost use Rattle.std.specs.Prelude.{◌≡◌, ◌≤◌, ◌<◌, ◌++◌, ◌∷◌, [], false, OnOk, OnErr, IsOk, length, vec_capacity};
ghost use Rattle.ninep_fids.specs.Knowledge.{user_of, users_left};
ghost use Rattle.ninep_fids.specs.Checks.{user_number};

use errno::Errno;
use std::alloc::{AllocError, Global};
use talks::refused::Refused;

/// A user who is attached, and its session.
#[derive(Clone, Copy)]
pub struct User {
    pub uid: u16,
    pub session: u8,
}

/// The users who are attached.
#[derive(Drop)]
pub struct Users {
    pub users: Vec<User>,
}

impl Users {
    /// None.
    pub fn new(alloc: Global) -> Users
        ensures { result.users.items ≡ [] }
    {
        Users {
            users: Vec::new(alloc),
        }
    }

    /// The user with this number, if it is attached.
    pub fn find(&self, uid: u16) -> Option<User>
        ensures { result ≡ user_of self.now.users.items uid }
    {
        let mut left = self.users.as_slice();
        while let Some((user, rest)) = left.split_first() {
            if user.uid == uid {
                return Some(*user);
            }
            left = rest;
        }
        None
    }

    /// Finds the memory for a user more, where there is none yet.
    pub fn reserve(&mut self) -> Result<(), AllocError>
        ensures users { self.new.users.items ≡ self.old.users.items }
        ensures room { OnOk result (length self.new.users.items < vec_capacity self.new.users) }
        ensures full { OnErr result (vec_capacity self.old.users ≤ length self.old.users.items) }
    {
        self.users.reserve(1)
    }

    /// A user more. It fails only where `reserve` has found no room for it.
    pub fn put(&mut self, user: User) -> Result<(), AllocError>
        ensures ok { OnOk result (self.new.users.items ≡ self.old.users.items ++ user ∷ []) }
        ensures err { OnErr result (self.new.users.items ≡ self.old.users.items) }
        ensures room { length self.old.users.items < vec_capacity self.old.users → IsOk result }
    {
        self.users.push(user)?;
        Ok(())
    }

    /// The user with this number goes.
    pub fn leave(&mut self, uid: u16)
        ensures { self.new.users.items ≡ users_left false uid self.old.users.items }
    {
        self.users.retain(|user| user.uid != uid);
    }

    /// All go.
    pub fn clear(&mut self)
        ensures { self.new.users.items ≡ [] }
    {
        self.users.clear();
    }
}

/// The number for no user, which Linux sends where all users of the client share one: it is user 0 here.
const NO_USER: u32 = 0xffff_ffff;

/// The number of a user on a volume; EINVAL where it has none.
pub fn number_of(uid: u32) -> Result<u16, Refused>
    ensures { result ≡ user_number uid }
{
    if uid == NO_USER {
        return Ok(0);
    }
    match u16::try_from(uid) {
        Ok(uid) => Ok(uid),
        Err(_) => Err(Refused::By(Errno::EINVAL)),
    }
}
