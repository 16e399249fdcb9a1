//! Who may do what with a node.

ghost use Rattle.std.specs.Prelude.{◌≡◌, ◌/◌, ◌%◌, ◌==◌, ◌||◌, if◌then◌else◌};
ghost use Rattle.tree.specs.Flags.{has_bit};
ghost use Rattle.tree.specs.Tree.{Node};
ghost use Rattle.tree.specs.Walk.{is_owner, may_access};
ghost use Rattle.path.specs.Wishes.{IsWhose, bit_of};

use tree::User;

/// What a user wishes to do with a node.
#[derive(Clone, Copy, Debug, PartialEq, Eq)]
pub enum Wish {
    /// To read a file, or the names of a directory.
    Read,
    /// To write a file, or to change the names of a directory.
    Write,
    /// To search a directory for a name.
    Search,
}

/// The bit of a wish among three permission bits.
fn bit_of(wish: Wish) -> u16
    ensures { result ≡ bit_of wish }
{
    match wish {
        Wish::Read => 4,
        Wish::Write => 2,
        Wish::Search => 1,
    }
}

/// The three bits that speak for a user: the owner's where it is the owner, else the group's where it is of the group, else the others'.
fn bits_for(user: User, permissions: u16, uid: u16, gid: u16) -> u16
    ensures { result ≡ (if user.uid == uid then permissions / 64 % 8 else if user.gid == gid then permissions / 8 % 8
        else permissions % 8) }
{
    if user.uid == uid {
        permissions / 64 % 8
    } else if user.gid == gid {
        permissions / 8 % 8
    } else {
        permissions % 8
    }
}

/// Whether a user may do what it wishes with a node of these permissions (bits of 0777), this owner and this group. User 0 may do all; else
/// the bits of the owner, of the group or of the others speak, in this order, as in POSIX.
pub fn may(user: User, permissions: u16, uid: u16, gid: u16, wish: Wish) -> bool
    ensures { (node : Node) → IsWhose node permissions uid gid → result ≡ may_access user node (bit_of wish) }
{
    user.uid == 0 || bits_for(user, permissions, uid, gid) / bit_of(wish) % 2 == 1
}

/// Whether a user is the owner of a node, or user 0.
pub fn is_owner(user: User, uid: u16) -> bool
    ensures { (node : Node) → node.uid ≡ uid → result ≡ is_owner user node }
{
    user.uid == 0 || user.uid == uid
}
