//! Calls by the sessions of user 0, by whom all calls are made: the kernel has looked at who may do what.
#![tactic(auto, using(crate::proofs::Asking::goes_on, crate::proofs::Asking::stays, crate::proofs::Asking::none_asked))]

ghost use Rattle.std.specs.Prelude.{◌≡◌, false, Some, [], IfOk, OnOk, OnErr};
ghost use Rattle.tree.specs.declared.Reply.TheVariants as reply;
ghost use Rattle.tree.specs.declared.Outcome.TheVariants as outcome;
ghost use Rattle.talks.specs.Talks.{MayHear};
ghost use Rattle.talks.specs.declared.ask.Ask.TheVariants as ask;
ghost use Rattle.talks.specs.declared.heard.Heard.TheVariants as heard_of;
ghost use Rattle.fuse_server.specs.Losing.{takes_name};
ghost use Rattle.fuse_server.specs.Asking.{Talked, TalkedBy, TalkedTo, TalkedFor, LookedAt};
ghost use Rattle.fuse_server.specs.Reach.{AsksFrom, CalledFrom, IsNamed};
ghost use Rattle.fuse_server.specs.Plans.{May, kind_of};
ghost use Rattle.fuse_server.specs.Plans.Kind.{Lstat};

use crate::work::Work;
use errno::Errno;
use std::alloc::Global;
use talks::ask::Ask;
use talks::heard::Heard;
use talks::refused::Refused;
use talks::sessions::{Sessions, heard};
use tree::{Attributes, Call, PathFrom};

/// A call of a session.
pub(crate) fn calling<S: Sessions>(
    sessions: &mut S,
    work: Work,
    session: u8,
    call: &Call<'_>,
) -> Heard
    requires named { AsksFrom work.reach call.now }
    requires quiet { takes_name call.now ≡ false }
    requires planned { May work.reach.plan (kind_of call.now) }
    ensures asked { Talked (CalledFrom work.reach S.called) S.entered S.left work.now sessions.old sessions.new }
    ensures heard { MayHear (CalledFrom work.reach S.called) S.entered S.left work.now sessions.old (ask.Call session call.now) result
        sessions.new }
{
    heard(
        sessions,
        work.now,
        &Ask::Call {
            session,
            call: *call,
        },
    )
}

/// A call of a session that takes a name away.
fn taking<S: Sessions>(
    sessions: &mut S,
    work: Work,
    session: u8,
    call: &Call<'_>,
) -> Result<(), Refused>
    requires named { AsksFrom work.reach call.now }
    requires planned { May work.reach.plan (kind_of call.now) }
    ensures asked { OnErr result (Talked (CalledFrom work.reach S.called) S.entered S.left work.now sessions.old sessions.new) }
    ensures done { OnOk result (MayHear (CalledFrom work.reach S.called) S.entered S.left work.now sessions.old (ask.Call session
        call.now) (heard_of.Outcome (outcome.Reply reply.Done)) sessions.new) }
{
    heard(
        sessions,
        work.now,
        &Ask::Call {
            session,
            call: *call,
        },
    )
    .done()
}

/// A new session of user 0.
fn entering<S: Sessions>(sessions: &mut S, work: Work) -> Result<u8, Refused>
    ensures { TalkedBy (CalledFrom work.reach S.called) S.entered S.left work.now sessions.old [] sessions.new }
{
    heard(sessions, work.now, &Ask::Enter { uid: 0, gid: 0 }).session()
}

/// The sessions of user 0 that have begun.
#[derive(Drop)]
pub(crate) struct Seats {
    begun: Vec<u8>,
}

impl Seats {
    /// None.
    pub(crate) fn new(alloc: Global) -> Seats {
        Seats {
            begun: Vec::new(alloc),
        }
    }

    /// The session of user 0 at this place, which begins where there are no more than so many yet.
    pub(crate) fn session<S: Sessions>(
        &mut self,
        sessions: &mut S,
        work: Work,
        at: usize,
    ) -> Result<u8, Refused>
        ensures asked { Talked (CalledFrom work.reach S.called) S.entered S.left work.now sessions.old sessions.new }
        ensures none { TalkedBy (CalledFrom work.reach S.called) S.entered S.left work.now sessions.old [] sessions.new }
    {
        if let Some(session) = self.begun.get(at) {
            return Ok(*session);
        }
        self.begun.reserve(1)?;
        let session = entering(sessions, work)?;
        match self.begun.push(session) {
            Ok(()) => Ok(session),
            Err(_) => Err(Refused::By(Errno::ENOMEM)),
        }
    }

    /// A call by the first session.
    pub(crate) fn ask<S: Sessions>(
        &mut self,
        sessions: &mut S,
        work: Work,
        call: &Call<'_>,
    ) -> Result<Heard, Refused>
        requires named { AsksFrom work.reach call.now }
        requires quiet { takes_name call.now ≡ false }
        requires planned { May work.reach.plan (kind_of call.now) }
        ensures asked { Talked (CalledFrom work.reach S.called) S.entered S.left work.now sessions.old sessions.new }
        ensures heard { IfOk result (λ h. TalkedTo (CalledFrom work.reach S.called) S.entered S.left work.now sessions.old call.now h
            sessions.new) }
    {
        let session = self.session(sessions, work, 0)?;
        Ok(calling(sessions, work, session, call))
    }

    /// A call that has nothing to tell.
    pub(crate) fn ask_done<S: Sessions>(
        &mut self,
        sessions: &mut S,
        work: Work,
        call: &Call<'_>,
    ) -> Result<(), Refused>
        requires named { AsksFrom work.reach call.now }
        requires quiet { takes_name call.now ≡ false }
        requires planned { May work.reach.plan (kind_of call.now) }
        ensures asked { Talked (CalledFrom work.reach S.called) S.entered S.left work.now sessions.old sessions.new }
        ensures done { OnOk result (TalkedFor (CalledFrom work.reach S.called) S.entered S.left work.now sessions.old call.now reply.Done
            sessions.new) }
    {
        let heard = self.ask(sessions, work, call)?;
        heard.done()
    }

    /// A call that takes a name away.
    pub(crate) fn take<S: Sessions>(
        &mut self,
        sessions: &mut S,
        work: Work,
        call: &Call<'_>,
    ) -> Result<(), Refused>
        requires named { AsksFrom work.reach call.now }
        requires planned { May work.reach.plan (kind_of call.now) }
        ensures asked { OnErr result (Talked (CalledFrom work.reach S.called) S.entered S.left work.now sessions.old sessions.new) }
        ensures done { OnOk result (TalkedFor (CalledFrom work.reach S.called) S.entered S.left work.now sessions.old call.now reply.Done
            sessions.new) }
    {
        let session = self.session(sessions, work, 0)?;
        taking(sessions, work, session, call)
    }

    /// The attributes of what a path names.
    pub(crate) fn look<S: Sessions>(
        &mut self,
        sessions: &mut S,
        work: Work,
        path: PathFrom<'_>,
    ) -> Result<Attributes, Refused>
        requires named { IsNamed work.reach path }
        requires looks { May work.reach.plan Lstat }
        ensures asked { Talked (CalledFrom work.reach S.called) S.entered S.left work.now sessions.old sessions.new }
        ensures seen { IfOk result (λ was. LookedAt (CalledFrom work.reach S.called) S.entered S.left work.now sessions.old path.entry
            (Some was) sessions.new) }
    {
        let heard = self.ask(sessions, work, &Call::Lstat { path })?;
        heard.attributes()
    }

    /// The attributes of what a path names, if it names anything.
    pub(crate) fn look_for<S: Sessions>(
        &mut self,
        sessions: &mut S,
        work: Work,
        path: PathFrom<'_>,
    ) -> Result<Option<Attributes>, Refused>
        requires named { IsNamed work.reach path }
        requires looks { May work.reach.plan Lstat }
        ensures asked { Talked (CalledFrom work.reach S.called) S.entered S.left work.now sessions.old sessions.new }
        ensures seen { IfOk result (λ found. LookedAt (CalledFrom work.reach S.called) S.entered S.left work.now sessions.old path.entry
            found sessions.new) }
    {
        let heard = self.ask(sessions, work, &Call::Lstat { path })?;
        match heard.attributes() {
            Ok(attributes) => Ok(Some(attributes)),
            Err(Refused::By(Errno::ENOENT)) => Ok(None),
            Err(refused) => Err(refused),
        }
    }
}
