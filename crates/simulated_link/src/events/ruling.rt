//! What the reincarnation server rules at a fault.

ghost use Rattle.std.specs.Prelude.{◌≡◌, ◌<◌, ◌^◌};
ghost use Rattle.reincarnate.specs.declared.policy.Event.TheVariants.{Exit, Complaint};
ghost use Rattle.reincarnate.specs.Watch.{on};
ghost use Rattle.simulated_link.specs.Ruling.{ruling_of};

use message::endpoint::Endpoint;
use reincarnate::policy::Event;
use reincarnate::{Action, Reincarnation};

/// What follows an exit or a complaint.
#[derive(Clone, Copy, PartialEq, Eq)]
pub enum Ruling {
    /// It isn't of the driver that runs.
    Ignored,
    /// A fault, after which a start is awaited.
    Fault,
    /// A fault that gives the device up.
    GivesUp,
}

impl Ruling {
    ghost use Rattle.simulated_link.specs.Ruling.{is_fault, gives_up};

    /// Whether it is a fault.
    pub fn is_fault(self) -> bool
        ensures { result ≡ is_fault self }
    {
        match self {
            Ruling::Ignored => false,
            Ruling::Fault => true,
            Ruling::GivesUp => true,
        }
    }

    /// Whether it is a fault that gives the device up.
    pub fn gives_up(self) -> bool
        ensures { result ≡ gives_up self }
    {
        match self {
            Ruling::Ignored => false,
            Ruling::Fault => false,
            Ruling::GivesUp => true,
        }
    }
}

/// A driver exits.
#[tactic(auto, using(crate::proofs::Decided::after_exit, crate::proofs::Decided::never_starts))]
pub(crate) fn exit<D: Drop>(server: &mut Reincarnation<D>, about: Endpoint, tick: u64) -> Ruling
    requires { tick < 2 ^ 48 }
    ensures ruling { result ≡ ruling_of (on server.old.policy server.old.watch (Exit about tick)).1 }
    ensures after { server.new ≡ record (server.old) { watch = (on server.old.policy server.old.watch (Exit about tick)).0 } }
{
    match server.on(Event::Exit(about, tick)) {
        Action::GiveUp => Ruling::GivesUp,
        Action::WaitUntil(_) => Ruling::Fault,
        Action::Start(_, _) => unreachable!(),
        Action::Nothing => Ruling::Ignored,
    }
}

/// The server complains of a driver.
#[tactic(auto, using(crate::proofs::Decided::after_complaint, crate::proofs::Decided::complaint_never_starts))]
pub fn complain<D: Drop>(server: &mut Reincarnation<D>, about: Endpoint, tick: u64) -> Ruling
    requires { tick < 2 ^ 48 }
    ensures ruling { result ≡ ruling_of (on server.old.policy server.old.watch (Complaint about tick)).1 }
    ensures after { server.new ≡ record (server.old) { watch = (on server.old.policy server.old.watch (Complaint about tick)).0 } }
{
    match server.on(Event::Complaint(about, tick)) {
        Action::GiveUp => Ruling::GivesUp,
        Action::WaitUntil(_) => Ruling::Fault,
        Action::Start(_, _) => unreachable!(),
        Action::Nothing => Ruling::Ignored,
    }
}
