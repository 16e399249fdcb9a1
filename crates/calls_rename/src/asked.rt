//! What a rename is asked to move, and where.

ghost use Rattle.std.specs.Prelude.{◌≡◌, ◌≢◌, IfErr, IfOk, true};
ghost use Rattle.tree.specs.Walk.{has_last_name};
ghost use Rattle.block_store.specs.World.{Reads};
ghost use Rattle.block_store.specs.Volume.{IsOn};
ghost use Rattle.block_store.specs.Halts.{Ends, IsHalt};
ghost use Rattle.calls_names.specs.Names.{IsVolume};
ghost use Rattle.calls_rename.specs.Asked.{FindsAsked, FindsBoth, IsBetween, IsNamed};

use block_store::{Blocks, Halt};
use calls_attributes::found::is_directory;
use calls_names::named::{are_bytes, may_write, place_of};
use errno::Errno;
use inode::inode_table::load;
use inode_operations::Move;
use layout::Geometry;
use path::{NameCache, Path};
use tree::{PathFrom, User};
use volume::Inode;

/// What a rename is asked to move, once both places are found.
#[derive(Drop)]
pub struct Asked<'a> {
    /// What moves, from where to where.
    pub what: Move<'a>,
    /// The inode of the directory that has it.
    pub from: Inode,
    /// The inode of the directory that shall have it.
    pub to: Inode,
    /// The number of the node at the new name, if there is one.
    pub there: Option<u32>,
}

/// The places of two paths that have last names. In this order: the refusals of the walk to the old one, ENOENT where no such name is
/// there, those of the walk to the new one, EACCES of an old directory that the user may not write, EACCES of a new one.
fn find_both<'a, B: Blocks>(
    blocks: &mut B,
    names: &mut NameCache,
    geometry: &Geometry,
    user: User,
    now: u32,
    from: &Path<'a>,
    to: &Path<'a>,
) -> Result<Result<Asked<'a>, Errno>, Halt>
    requires on { IsOn B.world geometry.now blocks.old }
    requires old { has_last_name from.now ≡ true }
    requires new { has_last_name to.now ≡ true }
    ensures reads { Reads B.world blocks.old blocks.new (λ d. Ends result
        (λ r. FindsBoth geometry.now d user from.now to.now r) (IsVolume geometry.now d)) }
    ensures between { IfOk result (λ r. IfOk r (λ x. IsBetween now from.now to.now x.what)) }
    ensures proper { IfOk result (λ r. IfErr r (λ e. e ≢ Errno.EIO)) }
    ensures halt { IfErr result (λ h. IsHalt B.world blocks.new h) }
{
    let old = match place_of(blocks, names, geometry, user, from)? {
        Ok(place) => place,
        Err(errno) => return Ok(Err(errno)),
    };
    let Some(number) = old.there else {
        return Ok(Err(Errno::ENOENT));
    };
    let new = match place_of(blocks, names, geometry, user, to)? {
        Ok(place) => place,
        Err(errno) => return Ok(Err(errno)),
    };
    if !may_write(user, &old.inode) {
        return Ok(Err(Errno::EACCES));
    }
    if !may_write(user, &new.inode) {
        return Ok(Err(Errno::EACCES));
    }
    let inode = load(blocks, geometry, number)?;
    Ok(Ok(Asked {
        what: Move {
            number,
            is_directory: is_directory(&inode),
            from: old.directory,
            old: from.last(),
            to: new.directory,
            new: to.last(),
            now,
        },
        from: old.inode,
        to: new.inode,
        there: new.there,
    }))
}

/// What a rename is asked to move. In this order: the refusals of the old path and of the new, EINVAL where one of them has no last name,
/// those of the walk to the old place, ENOENT where no such name is there, those of the walk to the new place, EACCES of an old directory
/// that the user may not write, EACCES of a new one.
pub fn find_asked<'a, B: Blocks>(
    blocks: &mut B,
    names: &mut NameCache,
    geometry: &Geometry,
    user: User,
    now: u32,
    old: PathFrom<'a>,
    new: PathFrom<'a>,
) -> Result<Result<Asked<'a>, Errno>, Halt>
    requires on { IsOn B.world geometry.now blocks.old }
    ensures reads { Reads B.world blocks.old blocks.new (λ d. Ends result
        (λ r. FindsAsked geometry.now d user old.entry new.entry r) (IsVolume geometry.now d)) }
    ensures named { IfOk result (λ r. IfOk r (λ x. IsNamed now x.what)) }
    ensures proper { IfOk result (λ r. IfErr r (λ e. e ≢ Errno.EIO)) }
    ensures halt { IfErr result (λ h. IsHalt B.world blocks.new h) }
{
    are_bytes(old.bytes);
    are_bytes(new.bytes);
    let from = match Path::parse(old) {
        Ok(path) => path,
        Err(errno) => return Ok(Err(errno)),
    };
    let to = match Path::parse(new) {
        Ok(path) => path,
        Err(errno) => return Ok(Err(errno)),
    };
    if !from.has_last_name() {
        return Ok(Err(Errno::EINVAL));
    }
    if !to.has_last_name() {
        return Ok(Err(Errno::EINVAL));
    }
    find_both(blocks, names, geometry, user, now, &from, &to)
}
