//! The link over channels.

ghost use Rattle.std.specs.Prelude.{◌≡◌, ◌≤◌, ◌<◌, ◌+◌, ◌^◌, ◌∷◌, List, [], length, refl, IfNone, IfOk, IfSome, IsTrue, is_ok, true};
ghost use Rattle.channel_link.specs.News.{incoming_of};
ghost use Rattle.records.specs.Marks.{Mark, Took, Flush};
ghost use Rattle.records.specs.Opening.{Opening};
ghost use Rattle.records.specs.Told.{Told, heard, received, took_end};
ghost use Rattle.channel_link.specs.Received.{AreReceived, Other};
ghost use Rattle.board.specs.Steady.{IsAside, enough_room};

use crate::channel::{NotSent, Sender};
use crate::messages::{Exchange, News, Report};
use crate::order_line::OrderLine;
use crate::server_line::{NewsReceiver, put_message};
use board::History;
use board::counting::steady::{Steady, Supplied};
use message::endpoint::Endpoint;
use message::{BlockRequest, Incoming};
use reissue::link::{Link, LinkRefusal};
use std::alloc::{AllocError, Global};
use std::sync::Wait;

/// How many messages a link gives at most (own).
const BUDGET: u64 = 1099511627776;

/// The link of a server to drivers that run in threads of their own: the receiving end of the server's line, the channel of the driver that
/// was started last, and an end of the reincarnation server's line.
///
/// - `post` hands a request to the driver that was started last: `DeadEndpoint` where the endpoint isn't that one's or the driver has
///   ended, else `Full` where as many requests are under way to it as may be. It doesn't wait.
/// - `complain` tells the reincarnation server. It doesn't wait: where its line is full, the complaint is made at the next message.
/// - `take` waits for the next message. It costs one of the budget, 2^40 at first; once that is spent, and not before, it gives End.
/// - `aside` gives the next message where it has come, at the same cost. It doesn't wait. A giving up it keeps for `take`.
///
/// What it guarantees of a record is that each start, each answer and each giving up in it is a message that it received, unchanged and in
/// their order. Of what drivers answer it guarantees nothing. It takes memory when it is made, and none from then on.
pub struct ChannelLink<R: Wait + Copy> {
    rt: R,
    pub(crate) line: NewsReceiver,
    orders: Option<(Endpoint, OrderLine)>,
    reports: Sender<Report>,
    // A complaint that the reincarnation server's line had no room for. A later one takes its place: it is about the same driver or a later
    // one.
    due: Option<Endpoint>,
    pub(crate) budget: u64,
    pub(crate) history: History,
    ghost paid: { budget + length line ≡ 1099511627776 },
    ghost ended: { took_end history ≡ true → budget ≡ 0 },
}

impl<R: Wait + Copy> Drop for ChannelLink<R> {
    fn drop(self) {
        let Self {
            rt: _,
            line: _,
            orders: _,
            reports: _,
            due: _,
            budget: _,
            history: _,
        } = self;
    }
}

impl<R: Wait + Copy> ChannelLink<R> {
    /// A link on the server's line, on which nothing was received yet.
    pub fn new(
        alloc: Global,
        rt: R,
        line: NewsReceiver,
        reports: Sender<Report>,
    ) -> Result<ChannelLink<R>, AllocError>
        requires { line ≡ [] }
        ensures history { IfOk result (λ l. ⟦<ChannelLink<R> as Link>⟧.history l ≡ []) }
        ensures budget { IfOk result (λ l. ⟦<ChannelLink<R> as Link>⟧.budget_left l ≡ 1099511627776) }
        ensures truth { IfOk result (λ l. (v : Opening) → ⟦<ChannelLink<R> as Link>⟧.truth l v []) }
    {
        let history = History::new(alloc)?;
        Ok(ChannelLink {
            rt,
            line,
            orders: None,
            reports,
            due: None,
            budget: BUDGET,
            history,
        })
    }

    // Hands a request to the driver of this endpoint, if it is the one of the last Started.
    fn hand_over(&mut self, to: Endpoint, request: &BlockRequest) -> Result<(), LinkRefusal>
        ensures { (self.new.line ≡ self.old.line) × (self.new.budget ≡ self.old.budget) × (self.new.history ≡ self.old.history) }
    {
        let rt = self.rt;
        match &mut self.orders {
            Some((endpoint, line)) if *endpoint == to => {
                match line.post(&rt, request) {
                    Ok(()) => Ok(()),
                    Err(NotSent::Full(())) => Err(LinkRefusal::Full),
                    Err(NotSent::Gone) => Err(LinkRefusal::DeadEndpoint),
                }
            }
            _ => Err(LinkRefusal::DeadEndpoint),
        }
    }

    // Makes the complaint that is due. Where the reincarnation server's line is full, it stays due until the next message.
    fn report(&mut self)
        ensures { (self.new.line ≡ self.old.line) × (self.new.budget ≡ self.old.budget) × (self.new.history ≡ self.old.history) }
    {
        let Some(about) = self.due else {
            return;
        };
        let rt = self.rt;
        if !matches!(
            self.reports.try_send(&rt, Report::Complaint(about)),
            Err(NotSent::Full(_))
        ) {
            self.due = None;
        }
    }

    // One message is received, which costs one of the budget.
    fn receive(&mut self, message: &mut Incoming)
        requires { 0 < self.old.budget }
        ensures budget { self.new.budget + 1 ≡ self.old.budget }
        ensures history { self.new.history ≡ self.old.history }
        ensures live { (told : List Told) → took_end (heard message.new told) ≡ took_end told }
        ensures truth { (marks : List Mark) → AreReceived marks self.old.line
            → AreReceived (received message.new marks) self.new.line }
    {
        let rt = self.rt;
        self.budget -= 1;
        let news = self.line.next(&rt);
        put_message(&news, message);
        self.keep(news);
    }

    // One message is received, if it has come already and is for a server between two calls; it costs one of the budget.
    fn receive_aside(&mut self) -> Option<Incoming>
        requires { 0 < self.old.budget }
        ensures budget { self.new.budget ≤ self.old.budget }
        ensures history { self.new.history ≡ self.old.history }
        ensures message { IfSome result IsAside }
        ensures some { IfSome result (λ m. (marks : List Mark) → AreReceived marks self.old.line
            → AreReceived (received m marks) self.new.line) }
        ensures none { IfNone result (self.new.line ≡ self.old.line) }
    {
        let rt = self.rt;
        let news = self.line.next_aside(&rt)?;
        self.budget -= 1;
        let mut message = Incoming::End;
        put_message(&news, &mut message);
        self.keep(news);
        Some(message)
    }

    // Keeps what came with news: the line of a driver that was started, and the exchange of an answer, if it is one of that line's.
    fn keep(&mut self, news: News)
        ensures { (self.new.line ≡ self.old.line) × (self.new.budget ≡ self.old.budget) × (self.new.history ≡ self.old.history) }
    {
        match news {
            News::Started(endpoint, line) => self.orders = Some((endpoint, line)),
            News::Answer(exchange) => self.put_back(exchange),
            News::GaveUp => {}
        }
    }

    // Keeps the exchange of an answer, if it is one of the present driver's line.
    fn put_back(&mut self, exchange: Box<Exchange>)
        ensures { (self.new.line ≡ self.old.line) × (self.new.budget ≡ self.old.budget) × (self.new.history ≡ self.old.history) }
    {
        match &mut self.orders {
            Some((endpoint, line)) if *endpoint == exchange.reply.from => line.keep(exchange),
            _ => {}
        }
    }
}

/// A link gives End once its budget is spent, and not before; and its budget is 2^40 less the messages that it received.
pub fn ends_when_spent<R: Wait + Copy>(link: &ChannelLink<R>)
    ensures ended { took_end (⟦<ChannelLink<R> as Link>⟧.history link.now) ≡ true → ⟦<ChannelLink<R> as Link>⟧.budget_left link.now ≡ 0 }
    ensures paid { ⟦<ChannelLink<R> as Link>⟧.budget_left link.now + length link.now.line ≡ 1099511627776 }
{}

impl<R: Wait + Copy> Link for ChannelLink<R> {
    ghost history = { λ l. l.history };

    ghost budget_left = { λ l. l.budget };

    ghost room = { λ l. 34 };

    ghost truth = { λ l v marks. AreReceived marks l.line };

    ghost goes_on = { λ l m. Unit {0} };

    fn post(&mut self, to: Endpoint, request: &BlockRequest) -> Result<(), LinkRefusal> {
        let posted = self.hand_over(to, request);
        self.history.posted(to, request, posted.is_ok());
        posted
    }

    fn complain(&mut self, about: Endpoint) {
        self.due = Some(about);
        self.report();
        self.history.complained(about);
    }

    #[tactic(auto, using(crate::proofs::Receives::still_live))]
    fn take_into(&mut self, message: &mut Incoming) {
        self.report();
        if self.budget == 0 {
            *message = Incoming::End;
        } else {
            self.receive(message);
        }
        self.history.heard(message);
    }

    fn take(&mut self) -> Incoming {
        let mut message = Incoming::End;
        self.take_into(&mut message);
        message
    }

    fn budget(&self) -> u64 {
        self.budget
    }

    ghost stays = { λ l. tt };

    ghost joins = { λ l m n first next. tt };
}

impl<R: Wait + Copy> Steady for ChannelLink<R> {
    fn aside(&mut self) -> Option<Incoming> {
        self.report();
        if self.budget > 0 {
            return self.receive_aside();
        }
        None
    }

    ghost rests = { λ l v marks who now call answer kept. Other marks l.line (Took who now call answer) refl kept };

    ghost flushes = { λ l v marks kept. Other marks l.line Flush refl kept };

    ghost has_room = { λ l. enough_room };
}

// Of drivers in threads of their own nothing is known.
impl<R: Wait + Copy> Supplied for ChannelLink<R> {
    ghost runs_on = { λ l policy supply. Unit {0} };

    ghost keeps_on = { λ l m policy supply goes runs. tt };
}
