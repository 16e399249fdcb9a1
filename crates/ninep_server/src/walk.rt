//! Walks: a new fid for what names lead to.

ghost use Rattle.std.specs.Prelude.{◌≡◌, ◌++◌, ◌∷◌, [], Ok, OnOk};
ghost use Rattle.ninep.specs.Requests.{names_in};
ghost use Rattle.ninep_fids.specs.Knowledge.{Known, known_of};
ghost use Rattle.ninep_fids.specs.Checks.{enters};
ghost use Rattle.ninep_server.specs.Walks.{walks, walking, stops};
ghost use Rattle.ninep_server.specs.Progress.{AsksNext, BeginsAs, Leaves, behind, left_of_next, left_of_walk};

use crate::work::{FidWork, Next, Work};
use ninep::names::Names;
use ninep::reply::Qid;
use ninep_fids::answer::NinepAnswer;
use ninep_fids::checks::{check_place, enters};
use ninep_fids::fid::{Fid, Node};
use ninep_fids::knows::Knows;
use ninep_fids::paths::{called, step};
use ninep_fids::users::User;
use std::alloc::AllocError;
use talks::ask::Ask;
use talks::heard::Heard;
use talks::refused::Refused;
use tree::Call;

/// A walk, which looks at what one name after the other leads to.
#[derive(Drop)]
pub(crate) struct Walk<'m> {
    new_fid: u32,
    user: User,
    /// The path that is looked at.
    path: Vec<u8>,
    /// The names behind it.
    left: Names<'m>,
    /// What the names before it lead to.
    qids: Vec<Qid>,
}

impl<'m> Walk<'m> {
    pub(crate) fn begin(
        knows: &mut Knows,
        fid: u32,
        new_fid: u32,
        names: Names<'m>,
    ) -> Result<Next<'m>, Refused>
        ensures { BeginsAs (walks (known_of knows.old) fid new_fid (names_in names.entry)) knows.old knows.new result }
    {
        let from = knows.fids.named(fid)?;
        check_place(knows, fid, new_fid, from.descriptor)?;
        let walk = Walk {
            new_fid,
            user: from.user,
            path: from.path.to_vec(knows.alloc)?,
            left: names,
            qids: Vec::new(knows.alloc),
        };
        let node = from.node;
        walk.onward(knows, node)
    }

    /// Goes on from the node at its path: to the next name, or to the end.
    fn onward(self, knows: &mut Knows, node: Node) -> Result<Next<'m>, Refused>
        ensures { BeginsAs (walking self.entry.new_fid self.entry.user (names_in self.entry.left) self.entry.path.items node self.entry.qids.items) knows.old knows.new
            result }
    {
        let Some((name, left)) = self.left.split_first() else {
            return self.arrive(knows, node);
        };
        if let Err(refused) = enters(node.kind, name) {
            return Ok(self.stop(refused));
        }
        let path = step(knows.alloc, &self.path, name)?;
        Ok(Next::Go(Work::Fid(FidWork::Walk(Walk { path, left, ..self }))))
    }

    /// A name more is walked.
    fn note(&mut self, qid: Qid) -> Result<(), AllocError>
        ensures qids { OnOk result (self.new.qids.items ≡ self.old.qids.items ++ qid ∷ []) }
        ensures rest { self.new ≡ record self.old { qids = self.new.qids } }
    {
        self.qids.push(qid)?;
        Ok(())
    }

    /// All names are walked: the new fid stands on the node.
    fn arrive(self, knows: &mut Knows, node: Node) -> Result<Next<'m>, Refused>
        ensures { BeginsAs (walking self.entry.new_fid self.entry.user [] self.entry.path.items node self.entry.qids.items) knows.old knows.new result }
    {
        let Walk {
            new_fid,
            user,
            path,
            left: _,
            qids,
        } = self;
        knows.fids.put(new_fid, Fid::closed(user, path, node))?;
        Ok(Next::Done(NinepAnswer::Walk(qids)))
    }

    /// A name leads nowhere: the answer is what those before it lead to, or why the first one leads nowhere.
    fn stop(self, refused: Refused) -> Next<'m>
        ensures { (k : Known) → Leaves (stops self.entry.qids.items refused) k (left_of_next (Ok result)) k }
    {
        if self.qids.is_empty() {
            Next::Done(NinepAnswer::Refused(refused))
        } else {
            Next::Done(NinepAnswer::Walk(self.qids))
        }
    }

    pub(crate) fn ask(&self) -> Ask<'_>
        ensures { AsksNext (left_of_walk self.now) result }
    {
        Ask::Call {
            session: self.user.session,
            call: Call::Lstat {
                path: called(&self.path),
            },
        }
    }

    pub(crate) fn hear(mut self, knows: &mut Knows, heard: Heard) -> Result<Next<'m>, Refused>
        ensures { Leaves (behind (left_of_walk self.entry) heard) (known_of knows.old) (left_of_next result) (known_of knows.new) }
    {
        match heard.attributes() {
            Ok(attributes) => {
                let node = Node::of(&attributes);
                self.note(node.qid())?;
                self.onward(knows, node)
            }
            Err(refused) => Ok(self.stop(refused)),
        }
    }
}
