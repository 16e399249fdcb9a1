//! A note, as it is read.

use crate::Event;
use compact_message::{IncomingRef, RequestRef};
use message::endpoint::Endpoint;
use records::marks::Cause;
use tree::{Call, Reply, Who};

/// One note, borrowed: what the variants say, [`LogEntry`](crate::log::LogEntry) has.
#[derive(Clone, Copy)]
pub enum LogEntryRef<'l> {
    Begun(&'l Event<'l>),
    Posted(Endpoint, RequestRef<'l>, bool),
    Complained(Endpoint, bool),
    Received(IncomingRef<'l>),
    Handed(IncomingRef<'l>),
    Faulted(Endpoint, Cause),
    Took(Who, u32, &'l Call<'l>, &'l Reply),
}
