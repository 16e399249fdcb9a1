//! Why open refuses: what it asks before it looks at the path, and what it asks of a node that is there.

ghost use Rattle.std.specs.Prelude.{◌≡◌, ◌≢◌, ◌<◌, ◌&&◌, IfErr, IfSome, not};
ghost use Rattle.tree.specs.Flags.{bad_flags, truncates};
ghost use Rattle.tree.specs.Tree.{Node, most_sessions};
ghost use Rattle.volume.specs.Nodes.{is_directory_mode, is_link_mode, permissions_in};
ghost use Rattle.descriptors.specs.Table.{files_of};
ghost use Rattle.path.specs.Wishes.{IsWhose};
ghost use Rattle.calls_names.specs.Asking.{lacks_permission, may_begin, only_makes, why_barred};

use bitflags::Flags;
use calls_attributes::found::{is_directory, is_link};
use descriptors::Descriptors;
use errno::Errno;
use path::{Wish, may};
use tree::{MAX_PERMISSIONS, OpenFlags, User};
use volume::Inode;

/// Whether these are flags that open doesn't take: neither for reading nor for writing, append or truncate without write, exclusive
/// without create, or other bits.
fn are_bad(flags: OpenFlags) -> bool
    ensures { result ≡ bad_flags flags.0 }
{
    !(flags.reads() || flags.writes())
        || (flags.appends() || flags.truncates()) && !flags.writes()
        || flags.is_exclusive() && !flags.creates()
        || flags.bits() > 63
}

/// Whether open may look at its path: EINVAL of flags or of a mode that it doesn't take, else EMFILE where the session has no free
/// descriptor, else ENFILE where as many files are open as may be.
pub(crate) fn may_begin(
    opens: &Descriptors,
    session: u8,
    flags: OpenFlags,
    mode: u16,
) -> Result<(), Errno>
    requires { session < most_sessions }
    ensures asked { result ≡ may_begin (files_of opens.now) session flags.0 mode }
    ensures proper { IfErr result (λ e. e ≢ Errno.EIO) }
{
    if are_bad(flags) || mode > MAX_PERMISSIONS {
        return Err(Errno::EINVAL);
    }
    opens.can_put(session)
}

/// Whether the user lacks a permission that the flags ask for: to read or to write the node of an inode.
fn lacks(user: User, inode: &Inode, flags: OpenFlags) -> bool
    ensures { (node : Node) → IsWhose node (permissions_in inode.now.mode) inode.now.uid inode.now.gid
        → result ≡ lacks_permission user node flags.0 }
{
    let permissions = inode.mode % 512;
    let may_read = may(user, permissions, inode.uid, inode.gid, Wish::Read);
    let may_write = may(user, permissions, inode.uid, inode.gid, Wish::Write);
    flags.reads() && !may_read || flags.writes() && !may_write
}

/// Why a node that is there can't be opened, if it can't: EEXIST where the call makes files and takes no others, else ELOOP of a symbolic
/// link, else EISDIR of a directory to be written, else EACCES where the user lacks a permission.
fn why_barred(is_link: bool, is_directory: bool, lacks: bool, flags: OpenFlags) -> Option<Errno>
    ensures { result ≡ why_barred is_link is_directory lacks flags.0 }
{
    if flags.creates() && flags.is_exclusive() {
        return Some(Errno::EEXIST);
    }
    if is_link {
        return Some(Errno::ELOOP);
    }
    if is_directory && flags.writes() {
        return Some(Errno::EISDIR);
    }
    if lacks {
        return Some(Errno::EACCES);
    }
    None
}

/// Why the node of an inode can't be opened, if it can't.
pub(crate) fn refusal(user: User, inode: &Inode, flags: OpenFlags) -> Option<Errno>
    ensures barred { (node : Node) → IsWhose node (permissions_in inode.now.mode) inode.now.uid inode.now.gid
        → result ≡ why_barred (is_link_mode inode.now.mode) (is_directory_mode inode.now.mode) (lacks_permission user node flags.0) flags.0 }
    ensures proper { IfSome result (λ e. e ≢ Errno.EIO) }
{
    why_barred(
        is_link(inode),
        is_directory(inode),
        lacks(user, inode, flags),
        flags,
    )
}

/// Whether the node of an inode is emptied: that of a file, with the truncate flag.
pub(crate) fn is_emptied(inode: &Inode, flags: OpenFlags) -> bool
    ensures { result ≡ (truncates flags.0 && not (is_directory_mode inode.now.mode)) }
{
    flags.truncates() && !is_directory(inode)
}

/// Whether the call opens only what it makes: no node that is there, a symbolic link among them.
pub(crate) fn only_makes(flags: OpenFlags) -> bool
    ensures { result ≡ only_makes flags.0 }
{
    flags.creates() && flags.is_exclusive()
}
