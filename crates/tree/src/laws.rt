//! Laws of the definitions: functions without a body, each of which stands for its clause.

ghost use Rattle.std.specs.Prelude.{◌≡◌};
ghost use Rattle.tree.specs.IsCall.{IsBytes, IsCall, IsCaller, IsPath};
ghost use Rattle.tree.specs.Laws.{FreshIsTree, HeldPagesFit, LooksLeave, PagesFit, RefusedLeaves, StartsGoOn, WalkEndsAtNoLink, WalkWithoutLinks};
ghost use Rattle.tree.specs.Names.{most_name};
ghost use Rattle.tree.specs.Tree.{most_bytes, most_descriptors, most_links, most_open_files, most_permissions, most_sessions, most_size};
ghost use Rattle.tree.specs.Tree.{most_target};
ghost use Rattle.tree.specs.Walk.{most_path};
ghost use Rattle.tree.specs.ZonesNeededByPlace.{ZonesNeededIsByPlace};

use super::{
    Call, MAX_DESCRIPTORS, MAX_LINKS, MAX_NAME, MAX_OPEN_FILES, MAX_PATH, MAX_PERMISSIONS,
    MAX_SESSIONS, MAX_SIZE, MAX_TARGET, MAX_TRANSFER, PathFrom, Start, Who,
};
use bitflags::Flags;

/// Every call meets what the laws ask of one, by its types.
pub fn is_call(call: &Call<'_>)
    ensures { IsCall call.now }
{
    match *call {
        Call::Open { path, flags, mode } => {
            is_path(path);
            let _flags = flags.bits();
            let _mode = mode;
        }
        Call::Write { fd, bytes } => {
            are_bytes(bytes);
            let _number = fd;
        }
        Call::Mkdir { path, mode } | Call::Chmod { path, mode } => {
            is_path(path);
            let _number = mode;
        }
        Call::Chown { path, uid, gid } => {
            is_path(path);
            let _uid = uid;
            let _gid = gid;
        }
        Call::Utime { path, atime, mtime } => {
            is_path(path);
            let _atime = atime;
            let _mtime = mtime;
        }
        Call::Truncate { path, size } => {
            is_path(path);
            let _number = size;
        }
        Call::Stat { path }
        | Call::Unlink { path }
        | Call::Rmdir { path }
        | Call::Readlink { path }
        | Call::Lstat { path } => is_path(path),
        Call::Link { old, new } | Call::Rename { old, new } => {
            is_path(old);
            is_path(new);
        }
        Call::Symlink { target, path } => {
            are_bytes(target);
            is_path(path);
        }
        Call::Read { fd, count } => {
            let _fd = fd;
            let _count = count;
        }
        Call::Close { fd } | Call::Dup { fd } | Call::Fstat { fd } | Call::Readdir { fd } => {
            let _number = fd;
        }
        Call::Seek {
            fd,
            whence: _,
            offset: _,
        } => {
            let _number = fd;
        }
        Call::Sync | Call::Statfs => {}
    }
}

/// The elements of a slice of bytes are bytes.
fn are_bytes(bytes: &[u8])
    ensures { IsBytes bytes.now }
{}

/// A path is bytes, and the number of its start fits.
fn is_path(path: PathFrom<'_>)
    ensures { IsPath path.entry }
{
    are_bytes(path.bytes);
    if let Start::Inode(number) = path.start {
        let _number = number;
    }
}

/// Every caller meets what the laws ask of one, by its types.
pub fn is_caller(who: Who)
    ensures { IsCaller who }
{}

/// A refused call leaves the tree.
#[tactic(auto, using(crate::proofs::Leaves::refused_leaves))]
pub fn refused_leaves()
    ensures { RefusedLeaves }
{}

/// Calls that only look leave the tree.
#[tactic(auto, using(crate::proofs::Leaves::looks_leave))]
pub fn looks_leave()
    ensures { LooksLeave }
{}

/// A root alone is a tree.
#[tactic(auto, using(crate::proofs::Fresh::fresh_is_tree))]
pub fn fresh_is_tree()
    ensures { FreshIsTree }
{}

/// Both ways to count the zones of a file agree.
#[tactic(auto, using(crate::proofs::Needs::zones_needed_is_by_place))]
pub fn zones_needed_is_by_place()
    ensures { ZonesNeededIsByPlace }
{}

/// Every page that a file or a directory holds is among those that its inode has room for.
#[tactic(auto, using(crate::proofs::Pages::pages_fit, crate::proofs::Pages::held_pages_fit))]
pub fn pages_fit()
    ensures below { PagesFit }
    ensures held { HeldPagesFit }
{}

/// In a tree without links a walk is one step for each part; in any tree it ends at no link.
pub fn walks_follow_links()
    ensures without { WalkWithoutLinks }
    ensures ends { WalkEndsAtNoLink }
{}

/// In a tree without links, a walk from the node where one from the root ended goes on as that would have.
#[tactic(auto, using(crate::proofs::Walks::starts_go_on))]
pub fn starts_go_on()
    ensures { StartsGoOn }
{}

/// The constants of the code are the limits of the definitions.
pub fn limits_agree()
    ensures sessions { MAX_SESSIONS ≡ most_sessions }
    ensures descriptors { MAX_DESCRIPTORS ≡ most_descriptors }
    ensures open_files { MAX_OPEN_FILES ≡ most_open_files }
    ensures transfer { MAX_TRANSFER ≡ most_bytes }
    ensures size { MAX_SIZE ≡ most_size }
    ensures target { MAX_TARGET ≡ most_target }
    ensures links { MAX_LINKS ≡ most_links }
    ensures permissions { MAX_PERMISSIONS ≡ most_permissions }
    ensures name { MAX_NAME ≡ most_name }
    ensures path { MAX_PATH ≡ most_path }
{}
