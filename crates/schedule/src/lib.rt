//! Schedules: the events that a run of the server and its drivers goes through, and what a run over them must show.
//!
//! A run starts driver 1 at tick 0, opens the server, and runs the events one by one; a call runs events itself while it waits. A driver
//! is live from its start until it dies or fails; a post to one that isn't is refused, and so is one to a line that holds 32. A start is
//! taken by the server at once, and so is giving up, but for one that a complaint caused: that is taken by the call's next take, or right
//! after the call or the message, always before the next event. After the last event nothing comes any more. An event that names nothing
//! has no effect. The server finishes a call or issues a request only where it was handed something: a call, a flush, a reply, a start,
//! or giving up.
//!
//! All that the server's link was told and gave is noted in one list, with the events, their faults and the calls that were answered: the
//! link's history, and which marks each event led to, are read off it. A call that waits stands behind those that arrived before it.
#![tactic(auto)]

pub mod arrived;
pub mod entry_ref;
pub mod faultless;
mod kept;
pub mod log;
pub mod mark;
pub mod queue;

ghost use Rattle.schedule.specs.Laws.{BeginningKeeps, GroupsStay, RefusedForOne, RefusedOrAccepted, RepliesStay};

pub use arrived::Arrived;
pub use entry_ref::LogEntryRef;
pub use log::{Log, LogEntry};
pub use mark::RunMark;
use message::BlockReply;
use tree::{Call, Who};

/// An event of a schedule.
#[derive(Clone, Copy)]
pub enum Event<'a> {
    /// A client's call, with the time, arrives. Outside a call it begins; inside one it is queued, and begins, first in first
    /// out, before the next event is run.
    Arrive(Who, u32, Call<'a>),
    /// The server takes Flush: dirty frames are to be written.
    Flush,
    /// The tick rises by one. A live current driver that isn't hung beats, and the reincarnation server is told of the tick.
    Tick,
    /// A live driver of this generation that is idle is handed the front of its line; then it steps once. A reply that it
    /// sends gets the next number, from 0 on. A step that fails is an exit.
    Step(u32),
    /// The driver of this generation dies. With bytes, the sector that it was writing is torn to them, if its generation is
    /// the media's current one.
    Die(u32, Option<[u8; 512]>),
    /// The driver of this generation beats no more; steps still move it.
    Hang(u32),
    /// The server takes the reply with this number, however often it was taken before.
    Deliver(u32),
    /// The request that was posted with this number (from 0 on) goes once more to the line of its driver, if that one lives
    /// and its line holds fewer than 16.
    Repeat(u32),
}

/// A reply that a driver sent.
#[derive(Clone, Copy)]
pub struct Sent {
    /// The reply, with the endpoint of its driver.
    pub reply: BlockReply,
    /// The number, from 0 on, of the event at whose step it was sent.
    pub place: u32,
}

/// What a run keeps at each of its events it keeps over each beginning of its schedule.
#[tactic(auto, using(crate::proofs::Beginnings::beginning_keeps))]
pub fn beginning_keeps()
    ensures { BeginningKeeps }
{}

/// What a run kept at its events so far it keeps while it goes on.
pub fn run_goes_on()
    ensures groups { GroupsStay }
    ensures replies { RepliesStay }
{}

/// A run is refused for one reason alone, and one that is refused isn't accepted.
#[tactic(auto, using(crate::proofs::OneRefusal::refused_for_one, crate::proofs::OneRefusal::refused_or_accepted))]
pub fn one_refusal()
    ensures refused { RefusedForOne }
    ensures accepted { RefusedOrAccepted }
{}
