//! How the answer to a message begins.

ghost use Rattle.ninep_fids.specs.Knowledge.{known_of};
ghost use Rattle.ninep_server.specs.Turns.{IsPlain};
ghost use Rattle.ninep_server.specs.Messages.{of_fid, of_node, of_name, of_file, plan_of};
ghost use Rattle.ninep_server.specs.Progress.{BeginsAs, Leaves, left_of_turn};

use crate::attach::{Attach, Version};
use crate::attributes::{Getattr, Setattr};
use crate::creation::Creation;
use crate::listing::Listing;
use crate::making::Making;
use crate::naming::{Link, Remove, Rename, Unlink};
use crate::opening::{Close, Opening, Readlink};
use crate::transfer::Transfer;
use crate::turn::Turn;
use crate::walk::Walk;
use crate::work::{AttributeWork, Next, Work};
use ninep::request::Request;
use ninep_fids::answer::{NinepAnswer, Said};
use ninep_fids::knows::Knows;
use talks::changes::Wanted;
use talks::refused::Refused;

/// How the answer to a message begins, at this time.
pub(crate) fn begin<'m>(knows: &mut Knows, now: u32, request: &Request<'m>) -> Turn<'m>
    ensures plain { IsPlain result }
    ensures begun { Leaves (plan_of (known_of knows.old) now request.now) (known_of knows.old) (left_of_turn result) (known_of knows.new) }
{
    match *request {
        Request::Fsync { fid, .. } => match knows.fids.get(fid) {
            Ok(file) => Turn::Sync(file.user.session),
            Err(refused) => Turn::Said(Said::Plain(NinepAnswer::Refused(refused))),
        },
        _ => Turn::of(on_fid(knows, now, request)),
    }
}

/// Of a request that makes fids or lets them go, or is none of those below.
fn on_fid<'m>(knows: &mut Knows, now: u32, request: &Request<'m>) -> Result<Next<'m>, Refused>
    ensures { BeginsAs (of_fid (known_of knows.old) now request.now) knows.old knows.new result }
{
    match *request {
        Request::Version {
            message_size,
            version,
        } => Version::begin(message_size, version),
        Request::Attach { fid, uid, .. } => Attach::begin(knows, fid, uid),
        Request::Walk {
            fid,
            new_fid,
            names,
        } => Walk::begin(knows, fid, new_fid, names),
        Request::Clunk { fid } => Close::clunk(knows, fid),
        Request::Remove { fid } => Remove::begin(knows, fid),
        Request::Flush { .. } => Ok(Next::Done(NinepAnswer::Flush)),
        _ => on_node(knows, now, request),
    }
}

/// Of a request about a node or a name.
fn on_node<'m>(knows: &Knows, now: u32, request: &Request<'m>) -> Result<Next<'m>, Refused>
    ensures { BeginsAs (of_node (known_of knows.now) now request.now) knows.now knows.now result }
{
    match *request {
        Request::Getattr { fid, .. } => Getattr::begin(knows, fid),
        Request::Setattr {
            fid,
            valid,
            mode,
            uid,
            gid,
            size,
            atime,
            mtime,
        } => {
            let wanted = Wanted {
                valid,
                mode,
                uid,
                gid,
                size,
                atime: atime.0,
                mtime: mtime.0,
                now,
            };
            Setattr::begin(knows, fid, wanted)
        }
        Request::Readlink { fid } => Readlink::begin(knows, fid),
        Request::Statfs { fid } => {
            let session = knows.fids.get(fid)?.user.session;
            Ok(Next::Go(Work::Attribute(AttributeWork::Statfs(session))))
        }
        _ => on_name(knows, request),
    }
}

/// Of a request about a name.
fn on_name<'m>(knows: &Knows, request: &Request<'m>) -> Result<Next<'m>, Refused>
    ensures { BeginsAs (of_name (known_of knows.now) request.now) knows.now knows.now result }
{
    match *request {
        Request::Symlink {
            directory,
            name,
            target,
            ..
        } => Making::symlink(knows, directory, name, target),
        Request::Mkdir {
            directory,
            name,
            mode,
            gid,
        } => Making::mkdir(knows, directory, name, mode, gid),
        Request::Link {
            directory,
            fid,
            name,
        } => Link::begin(knows, directory, fid, name),
        Request::Rename {
            fid,
            directory,
            name,
        } => Rename::of_fid(knows, fid, directory, name),
        Request::Renameat {
            old_directory,
            old_name,
            new_directory,
            new_name,
        } => Rename::at(knows, (old_directory, old_name), (new_directory, new_name)),
        Request::Unlinkat {
            directory,
            name,
            flags,
        } => Unlink::begin(knows, directory, name, flags),
        _ => on_file(knows, request),
    }
}

/// Of a request about an open file, or one that is opened.
fn on_file<'m>(knows: &Knows, request: &Request<'m>) -> Result<Next<'m>, Refused>
    ensures { BeginsAs (of_file (known_of knows.now) request.now) knows.now knows.now result }
{
    match *request {
        Request::Open { fid, flags } => Opening::begin(knows, fid, flags),
        Request::Create {
            fid,
            name,
            flags,
            mode,
            gid,
        } => Creation::begin(knows, fid, name, flags, mode, gid),
        Request::Read { fid, offset, count } => Transfer::read(knows, fid, offset, count),
        Request::Write { fid, offset, bytes } => Transfer::write(knows, fid, offset, bytes),
        Request::Readdir { fid, offset, count } => Listing::begin(knows, fid, offset, count),
        Request::Lock { fid, .. } => {
            knows.fids.open(fid)?;
            Ok(Next::Done(NinepAnswer::Lock))
        }
        Request::Getlock {
            fid,
            start,
            length,
            process,
            ..
        } => {
            knows.fids.open(fid)?;
            Ok(Next::Done(NinepAnswer::Getlock {
                start,
                length,
                process,
            }))
        }
        _ => Err(Refused::Unsupported),
    }
}
