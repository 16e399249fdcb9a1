//! The server's line: each answer on it bears the endpoint of the driver whose end it was sent by.
ghost use Rattle.std.specs.Prelude.{◌≡◌, ◌≢◌, ◌<◌, [], ◌∷◌, IfOk, IfSome, IfNone, OnErr, true};
ghost use Rattle.crossbeam_channel.specs.Claims.{view, IsSeatAt};
ghost use Rattle.crossbeam_channel.specs.Ends.{sends_on};
ghost use Rattle.channel_link.specs.News.{reader, driver, Bears, incoming_of};

use crate::channel::LOOKS;
use crate::messages::{Exchange, News, NewsView};
use crate::order_line::OrderLine;
use crossbeam_channel::protocol::{Lesson, Outcome, Protocol, Split};
use crossbeam_channel::{Pass, RuledReceiver, RuledSender, bounded_with};
use message::endpoint::Endpoint;
use message::{BlockReply, Incoming};
use std::alloc::{AllocError, Global};
use std::marker::{Brand, Model, PhantomData};
use std::sync::Wait;
use std::thread;

/// The rule of the server's line.
pub struct LineLaw;

impl Protocol<News, NewsView> for LineLaw {
    ghost use Rattle.std.specs.Prelude.{[]};
    ghost use Rattle.channel_link.specs.News.{Borne, reader};

    ghost holds = { Borne };

    ghost first = { reader [] };
}

// An end sends.
struct Sending;

impl Outcome<News, NewsView> for Sending {
    ghost use Rattle.std.specs.Prelude.{◌≡◌};
    ghost use Rattle.channel_link.specs.News.{sent_by};

    ghost then = { λ v x w. w ≡ sent_by v x };
}

impl Lesson<News, NewsView> for Sending {
    ghost fact = { λ v items. Unit {0} };
}

// The server's link receives.
struct Getting;

impl Outcome<News, NewsView> for Getting {
    ghost use Rattle.std.specs.Prelude.{◌≡◌};
    ghost use Rattle.channel_link.specs.News.{got_by};

    ghost then = { λ v x w. w ≡ got_by v x };
}

impl Lesson<News, NewsView> for Getting {
    ghost fact = { λ v items. Unit {0} };
}

// The endpoint of a new end's pass.
trait Named {
    ghost use Rattle.message.specs.declared.endpoint.Endpoint.{Endpoint};

    ghost endpoint: { Endpoint };
}

impl Named for Brand {
    ghost endpoint = { record { slot = 0; generation = 0 } };
}

struct Fresh<K> {
    of: PhantomData<K>,
}

impl<K: Named> Split<NewsView> for Fresh<K> {
    ghost use Rattle.std.specs.Prelude.{[]};
    ghost use Rattle.channel_link.specs.News.{driver};

    ghost left = { λ v. v };

    ghost right = { λ v. driver K.endpoint [] };
}

/// The receiving end of the server's line, with the pass that knows what was received. Contracts see what it received, the newest first.
#[derive(Drop)]
struct NewsEnd {
    receiver: RuledReceiver<News, NewsView, LineLaw>,
    pass: Pass<News, NewsView>,
}

impl Model for NewsEnd {
    ghost use Rattle.std.specs.Prelude.{◌≡◌, List, true};
    ghost use Rattle.crossbeam_channel.specs.Claims.{view as known, IsSeatAt};
    ghost use Rattle.crossbeam_channel.specs.Ends.{receives_on};
    ghost use Rattle.channel_link.specs.declared.messages.News.{News};

    ghost Value = { List News };

    ghost view = { λ r. (known r.pass).got };

    ghost invariant = { λ r. IsSeatAt (receives_on r.receiver) r.pass × ((known r.pass).gets ≡ true) };
}

/// The receiving end of the server's line, as its link has it. Contracts see what it gave, the newest first.
#[derive(Drop)]
pub struct NewsReceiver {
    end: NewsEnd,
    // That the device was given up was received between two calls, and isn't given yet.
    holds_back: bool,
}

impl Model for NewsReceiver {
    ghost use Rattle.std.specs.Prelude.{◌≡◌, ◌∷◌, List, true};
    ghost use Rattle.channel_link.specs.News.{given};
    ghost use Rattle.channel_link.specs.declared.messages.News.{News};
    ghost use Rattle.channel_link.specs.declared.messages.News.TheVariants.{GaveUp};

    ghost Value = { List News };

    ghost view = { λ r. given r.holds_back r.end };

    ghost invariant = { λ r. r.holds_back ≡ true → r.end ≡ GaveUp ∷ given r.holds_back r.end };
}

/// A sending end of the server's line, for a driver or for the reincarnation server. The answers that it sends bear its endpoint.
#[derive(Drop)]
pub struct NewsSender {
    endpoint: Endpoint,
    sender: RuledSender<News, NewsView, LineLaw>,
    pass: Pass<News, NewsView>,
    ghost tied: { IsSeatAt (sends_on sender) pass },
    ghost drives: { (view pass).drives ≡ true },
    ghost own: { (view pass).endpoint ≡ endpoint },
}

/// The server's line, which holds so many news, with a sending end for this endpoint. It takes memory here, and none from then on.
pub fn open_line(
    alloc: Global,
    room: usize,
    endpoint: Endpoint,
) -> Result<(NewsSender, NewsReceiver), AllocError>
    requires { 0 < room }
    ensures { IfOk result (λ r. r.1 ≡ []) }
{
    let (sender, receiver, mut pass) = bounded_with::<News, NewsView, LineLaw, Global>(
        alloc, room,
    )?;
    let other = spare(&sender, &mut pass, endpoint);
    Ok((
        NewsSender {
            endpoint,
            sender,
            pass: other,
        },
        NewsReceiver {
            end: NewsEnd { receiver, pass },
            holds_back: false,
        },
    ))
}

fn another_said<K: Named>(
    sender: &RuledSender<News, NewsView, LineLaw>,
    pass: &mut Pass<News, NewsView>,
    _endpoint: Endpoint,
) -> Pass<News, NewsView>
    requires { IsSeatAt (sends_on sender.now) pass.old }
    ensures pass { IsSeatAt (sends_on sender.now) pass.new × (view pass.new ≡ view pass.old) }
    ensures new { IsSeatAt (sends_on sender.now) result × (view result ≡ driver K.endpoint []) }
{
    sender.another::<Fresh<K>>(pass)
}

// A pass of a new endpoint.
fn spare(
    sender: &RuledSender<News, NewsView, LineLaw>,
    pass: &mut Pass<News, NewsView>,
    endpoint: Endpoint,
) -> Pass<News, NewsView>
    requires { IsSeatAt (sends_on sender.now) pass.old }
    ensures pass { IsSeatAt (sends_on sender.now) pass.new × (view pass.new ≡ view pass.old) }
    ensures new { IsSeatAt (sends_on sender.now) result × (view result ≡ driver endpoint []) }
{
    another_said::<Brand>(sender, pass, endpoint)
}

impl NewsSender {
    /// An end for this endpoint. This one stays as it is: what it sent, and the endpoint that its answers bear. An error: no memory was
    /// found.
    pub fn another(&mut self, endpoint: Endpoint) -> Result<NewsSender, AllocError>
        ensures made { IfOk result (λ d. (d.endpoint ≡ endpoint) × (view d.pass ≡ driver endpoint [])) }
        ensures stays { (self.new.endpoint ≡ self.old.endpoint) × (view self.new.pass ≡ view self.old.pass) }
        ensures refused { OnErr result (self.new ≡ self.old) }
    {
        let sender = self.sender.try_clone()?;
        let pass = spare(&self.sender, &mut self.pass, endpoint);
        Ok(NewsSender {
            endpoint,
            sender,
            pass,
        })
    }

    /// The endpoint that it is for.
    pub fn endpoint(&self) -> Endpoint
        ensures { result ≡ self.now.endpoint }
    {
        self.endpoint
    }

    fn send<R: Wait>(&mut self, rt: &R, news: News) -> bool
        requires { Bears self.old.endpoint news }
        ensures { self.new.endpoint ≡ self.old.endpoint }
    {
        self.sender
            .send_as::<Sending, R>(rt, &mut self.pass, news)
            .is_ok()
    }

    /// Sends an exchange whose answer bears this endpoint, and waits for room. False where the server has left.
    pub fn answer<R: Wait>(&mut self, rt: &R, exchange: Box<Exchange>) -> bool
        requires { exchange.value.reply.from ≡ self.old.endpoint }
        ensures { self.new.endpoint ≡ self.old.endpoint }
    {
        self.send(rt, News::Answer(exchange))
    }

    /// Tells of a start, and waits for room. False where the server has left.
    pub fn started<R: Wait>(&mut self, rt: &R, endpoint: Endpoint, line: OrderLine) -> bool
        ensures { self.new.endpoint ≡ self.old.endpoint }
    {
        self.send(rt, News::Started(endpoint, line))
    }

    /// Tells that the device was given up, and waits for room. False where the server has left.
    pub fn gave_up<R: Wait>(&mut self, rt: &R) -> bool
        ensures { self.new.endpoint ≡ self.old.endpoint }
    {
        self.send(rt, News::GaveUp)
    }
}

impl NewsEnd {
    fn receive<R: Wait>(&mut self, rt: &R) -> Option<News>
        ensures some { IfSome result (λ news. self.new ≡ news ∷ self.old) }
        ensures none { IfNone result (self.new ≡ self.old) }
    {
        self.receiver.recv_as::<Getting, R>(rt, &mut self.pass).ok()
    }

    // The next of what is sent, if there is something.
    fn try_receive<R: Wait>(&mut self, rt: &R) -> Option<News>
        ensures some { IfSome result (λ news. self.new ≡ news ∷ self.old) }
        ensures none { IfNone result (self.new ≡ self.old) }
    {
        self.receiver
            .try_recv_as::<Getting, R>(rt, &mut self.pass)
            .ok()
    }

    // The next of what is sent, if it comes while it is looked for some times. Other threads may run between two looks.
    fn look<R: Wait>(&mut self, rt: &R) -> Option<News>
        ensures some { IfSome result (λ news. self.new ≡ news ∷ self.old) }
        ensures none { IfNone result (self.new ≡ self.old) }
    {
        for _ in 0..LOOKS {
            if let Some(news) = self.try_receive(rt) {
                return Some(news);
            }
            thread::yield_now();
        }
        None
    }

    // The next of what is sent, for which it waits; it looks for it some times before it sleeps. A failed receive is tried again: where no
    // sending end is left, for ever.
    fn next<R: Wait>(&mut self, rt: &R) -> News
        ensures { self.new ≡ result ∷ self.old }
    {
        if let Some(news) = self.look(rt) {
            return news;
        }
        for _ in rt.forever() {
            if let Some(news) = self.receive(rt) {
                return news;
            }
            thread::yield_now();
        }
        unreachable!()
    }
}

impl NewsReceiver {
    /// The next of what is sent, for which it waits; it looks for it some times before it sleeps. Where no sending end is left, it waits
    /// for ever.
    pub fn next<R: Wait>(&mut self, rt: &R) -> News
        ensures { self.new ≡ result ∷ self.old }
    {
        if self.holds_back {
            self.holds_back = false;
            return News::GaveUp;
        }
        self.end.next(rt)
    }

    /// The next of what is sent, if it has come already: an answer or a start. That the device was given up is held back for `next`, and
    /// nothing comes before it. It waits for none.
    pub fn next_aside<R: Wait>(&mut self, rt: &R) -> Option<News>
        ensures some { IfSome result (λ news. (news ≢ News.GaveUp) × (self.new ≡ news ∷ self.old)) }
        ensures none { IfNone result (self.new ≡ self.old) }
    {
        if self.holds_back {
            return None;
        }
        let news = self.end.try_receive(rt)?;
        if matches!(news, News::GaveUp) {
            self.holds_back = true;
            return None;
        }
        Some(news)
    }
}

// Puts a driver's reply where a message was.
fn put_reply(reply: &BlockReply, message: &mut Incoming)
    ensures { message.new ≡ Incoming.Reply reply.now }
{
    match message {
        Incoming::Reply(former) => *former = *reply,
        _ => *message = Incoming::Reply(*reply),
    }
}

/// Puts the message that news are to a server where the caller has room for it.
pub fn put_message(news: &News, message: &mut Incoming)
    ensures { message.new ≡ incoming_of news.now }
{
    match news {
        News::Answer(exchange) => put_reply(&exchange.reply, message),
        News::Started(endpoint, _) => *message = Incoming::Started(*endpoint),
        News::GaveUp => *message = Incoming::GaveUp,
    }
}
