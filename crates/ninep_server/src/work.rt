//! What the answer to a message waits for.

ghost use Rattle.ninep_fids.specs.Knowledge.{known_of};
ghost use Rattle.ninep_server.specs.Messages.{measuring};
ghost use Rattle.ninep_server.specs.Progress.{AsksNext, Leaves, GoesOnAs, behind, left_of, left_of_next, left_of_fid_work};
ghost use Rattle.ninep_server.specs.Progress.{left_of_open_work, left_of_data_work, left_of_attribute_work, left_of_name_work};

use crate::attach::{Attach, Version};
use crate::attributes::{Getattr, Setattr};
use crate::creation::Creation;
use crate::listing::Listing;
use crate::making::Making;
use crate::naming::{Link, Remove, Rename, Unlink};
use crate::opening::{Close, Opening, Readlink};
use crate::transfer::Transfer;
use crate::walk::Walk;
use ninep_fids::answer::NinepAnswer;
use ninep_fids::knows::Knows;
use ninep_fids::told::room_of;
use talks::ask::{Ask, Leaving};
use talks::heard::Heard;
use talks::refused::Refused;
use tree::Call;

/// What the answer to a message waits for: what it asks next of the sessions, and how it goes on.
#[derive(Drop)]
pub(crate) enum Work<'m> {
    Fid(FidWork<'m>),
    Open(OpenWork<'m>),
    Data(DataWork<'m>),
    Attribute(AttributeWork),
    Name(NameWork),
}

/// Of a message that makes fids, or lets all of them go.
#[derive(Drop)]
pub(crate) enum FidWork<'m> {
    Version(Version),
    Attach(Attach),
    Walk(Walk<'m>),
}

/// Of one that opens, makes or closes.
#[derive(Drop)]
pub(crate) enum OpenWork<'m> {
    Open(Opening),
    Create(Creation),
    Make(Making<'m>),
    Close(Close),
}

/// Of one that moves bytes.
#[derive(Drop)]
pub(crate) enum DataWork<'m> {
    Transfer(Transfer<'m>),
    List(Listing),
    Readlink(Readlink),
}

/// Of one about attributes.
#[derive(Drop)]
pub(crate) enum AttributeWork {
    Getattr(Getattr),
    Setattr(Setattr),
    /// The room of the volume, as this session is told it.
    Statfs(u8),
}

/// Of one that changes names.
#[derive(Drop)]
pub(crate) enum NameWork {
    Link(Link),
    Rename(Rename),
    Unlink(Unlink),
    Remove(Remove),
}

/// How the answer to a message goes on, where that isn't a sync done.
#[derive(Drop)]
pub(crate) enum Next<'m> {
    /// It asks something more.
    Go(Work<'m>),
    /// It is known.
    Done(NinepAnswer),
}

impl<'m> Work<'m> {
    /// What it asks of the sessions.
    pub(crate) fn ask(&self) -> Ask<'_>
        ensures { AsksNext (left_of self.now) result }
    {
        match self {
            Work::Fid(work) => work.ask(),
            Work::Open(work) => work.ask(),
            Work::Data(work) => work.ask(),
            Work::Attribute(work) => work.ask(),
            Work::Name(work) => work.ask(),
        }
    }

    /// How it goes on once that was answered.
    pub(crate) fn hear(self, knows: &mut Knows, heard: Heard) -> Result<Next<'m>, Refused>
        ensures { Leaves (behind (left_of self.entry) heard) (known_of knows.old) (left_of_next result) (known_of knows.new) }
    {
        match self {
            Work::Fid(work) => work.hear(knows, heard),
            Work::Open(work) => work.hear(knows, heard),
            Work::Data(work) => work.hear(knows, heard),
            Work::Attribute(work) => work.hear(heard),
            Work::Name(work) => work.hear(knows, heard),
        }
    }
}

impl<'m> FidWork<'m> {
    fn ask(&self) -> Ask<'_>
        ensures { AsksNext (left_of_fid_work self.now) result }
    {
        match self {
            FidWork::Version(_) => Ask::Leave(Leaving::All),
            FidWork::Attach(work) => work.ask(),
            FidWork::Walk(work) => work.ask(),
        }
    }

    fn hear(self, knows: &mut Knows, heard: Heard) -> Result<Next<'m>, Refused>
        ensures { Leaves (behind (left_of_fid_work self.entry) heard) (known_of knows.old) (left_of_next result) (known_of knows.new) }
    {
        match self {
            FidWork::Version(work) => Ok(work.hear(knows, &heard)),
            FidWork::Attach(work) => work.hear(knows, heard),
            FidWork::Walk(work) => work.hear(knows, heard),
        }
    }
}

impl<'m> OpenWork<'m> {
    fn ask(&self) -> Ask<'_>
        ensures { AsksNext (left_of_open_work self.now) result }
    {
        match self {
            OpenWork::Open(work) => work.ask(),
            OpenWork::Create(work) => work.ask(),
            OpenWork::Make(work) => work.ask(),
            OpenWork::Close(work) => work.ask(),
        }
    }

    fn hear(self, knows: &mut Knows, heard: Heard) -> Result<Next<'m>, Refused>
        ensures { Leaves (behind (left_of_open_work self.entry) heard) (known_of knows.old) (left_of_next result) (known_of knows.new) }
    {
        match self {
            OpenWork::Open(work) => work.hear(knows, heard),
            OpenWork::Create(work) => work.hear(knows, heard),
            OpenWork::Make(work) => work.hear(heard),
            OpenWork::Close(work) => Ok(work.hear()),
        }
    }
}

impl<'m> DataWork<'m> {
    fn ask(&self) -> Ask<'_>
        ensures { AsksNext (left_of_data_work self.now) result }
    {
        match self {
            DataWork::Transfer(work) => work.ask(),
            DataWork::List(work) => work.ask(),
            DataWork::Readlink(work) => work.ask(),
        }
    }

    fn hear(self, knows: &mut Knows, heard: Heard) -> Result<Next<'m>, Refused>
        ensures { Leaves (behind (left_of_data_work self.entry) heard) (known_of knows.old) (left_of_next result) (known_of knows.new) }
    {
        match self {
            DataWork::Transfer(work) => work.hear(heard),
            DataWork::List(work) => work.hear(knows, heard),
            DataWork::Readlink(work) => work.hear(knows, heard),
        }
    }
}

impl AttributeWork {
    fn ask(&self) -> Ask<'_>
        ensures { AsksNext (left_of_attribute_work self.now) result }
    {
        match self {
            AttributeWork::Getattr(work) => work.ask(),
            AttributeWork::Setattr(work) => work.ask(),
            AttributeWork::Statfs(session) => Ask::Call {
                session: *session,
                call: Call::Statfs,
            },
        }
    }

    fn hear<'m>(self, heard: Heard) -> Result<Next<'m>, Refused>
        ensures { GoesOnAs (left_of_attribute_work self) heard result }
    {
        match self {
            AttributeWork::Getattr(work) => work.hear(heard),
            AttributeWork::Setattr(work) => work.hear(heard),
            AttributeWork::Statfs(session) => room_told(session, heard),
        }
    }
}

impl NameWork {
    fn ask(&self) -> Ask<'_>
        ensures { AsksNext (left_of_name_work self.now) result }
    {
        match self {
            NameWork::Link(work) => work.ask(),
            NameWork::Rename(work) => work.ask(),
            NameWork::Unlink(work) => work.ask(),
            NameWork::Remove(work) => work.ask(),
        }
    }

    fn hear<'m>(self, knows: &mut Knows, heard: Heard) -> Result<Next<'m>, Refused>
        ensures { Leaves (behind (left_of_name_work self) heard) (known_of knows.old) (left_of_next result) (known_of knows.new) }
    {
        match self {
            NameWork::Link(work) => work.hear(heard),
            NameWork::Rename(work) => work.hear(knows, heard),
            NameWork::Unlink(work) => work.hear(knows, heard),
            NameWork::Remove(work) => work.hear(knows, heard),
        }
    }
}

/// The answer to a statfs.
fn room_told<'m>(session: u8, heard: Heard) -> Result<Next<'m>, Refused>
    ensures { GoesOnAs (measuring session) heard result }
{
    let room = heard.space()?;
    Ok(Next::Done(NinepAnswer::Statfs(room_of(&room))))
}
