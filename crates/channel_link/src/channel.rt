//! Bounded channels. Their rule says nothing of the messages; it lets them do without a lock, and without memory once they are made.
ghost use Rattle.std.specs.Prelude.{◌≡◌, ◌<◌, IfErr, OnErr};
ghost use Rattle.channel_link.specs.declared.channel.NotSent.TheVariants as not_sent;
ghost use Rattle.crossbeam_channel.specs.Claims.{IsSeatAt};
ghost use Rattle.crossbeam_channel.specs.Ends.{sends_on, receives_on};

use crossbeam_channel::protocol::{Free, Split};
use crossbeam_channel::{Pass, RuledReceiver, RuledSender, TrySendError, bounded_with};
use std::alloc::{AllocError, Global};
use std::sync::Wait;
use std::thread;

/// How often a receiver looks for a message that is about to come before it sleeps (own). A look and a turn for other threads take some
/// tenths of a microsecond. All of them take about as long as it takes to wake a sleeping thread, and longer than a driver's request.
pub(crate) const LOOKS: u32 = 160;

/// Why a message wasn't sent.
#[derive(Drop)]
pub enum NotSent<T> {
    /// The channel was full: the message comes back.
    Full(T),
    /// Nobody receives from it any more. The message is let go.
    Gone,
}

// Both passes know as much.
struct Same;

impl Split<()> for Same {
    ghost left = { λ v. v };

    ghost right = { λ v. v };
}

/// A sending end of a channel.
#[derive(Drop)]
pub struct Sender<T: Drop> {
    sender: RuledSender<T, (), Free>,
    pass: Pass<T, ()>,
    ghost tied: { IsSeatAt (sends_on sender) pass },
}

/// The receiving end of a channel.
#[derive(Drop)]
pub struct Receiver<T: Drop> {
    receiver: RuledReceiver<T, (), Free>,
    pass: Pass<T, ()>,
    ghost tied: { IsSeatAt (receives_on receiver) pass },
}

/// A channel that holds so many messages. It takes memory here, and none from then on.
pub fn bounded<T: Drop>(alloc: Global, room: usize) -> Result<(Sender<T>, Receiver<T>), AllocError>
    requires { 0 < room }
{
    let (sender, receiver, mut pass) = bounded_with::<T, (), Free, Global>(alloc, room)?;
    let other = sender.another::<Same>(&mut pass);
    Ok((
        Sender {
            sender,
            pass: other,
        },
        Receiver { receiver, pass },
    ))
}

impl<T: Drop> Sender<T> {
    /// A further sending end. An error: no memory was found, and this one is as it was.
    pub fn another(&mut self) -> Result<Sender<T>, AllocError>
        ensures { OnErr result (self.new ≡ self.old) }
    {
        let sender = self.sender.try_clone()?;
        let pass = self.sender.another::<Same>(&mut self.pass);
        Ok(Sender { sender, pass })
    }

    /// Sends a message, unless the channel is full or nobody receives from it. It doesn't wait for room.
    pub fn try_send<R: Wait>(&mut self, rt: &R, message: T) -> Result<(), NotSent<T>>
        ensures { IfErr result (λ why. (back : T) → why ≡ not_sent.Full back → back ≡ message) }
    {
        match self
            .sender
            .try_send_as::<Free, R>(rt, &mut self.pass, message)
        {
            Ok(()) => Ok(()),
            Err(TrySendError::Full(message)) => Err(NotSent::Full(message)),
            Err(_) => Err(NotSent::Gone),
        }
    }

    /// Sends a message, and waits for room. False where nobody receives any more: the message is let go.
    pub fn send<R: Wait>(&mut self, rt: &R, message: T) -> bool {
        self.sender
            .send_as::<Free, R>(rt, &mut self.pass, message)
            .is_ok()
    }
}

impl<T: Drop> Receiver<T> {
    /// The next message, for which it waits; none where nobody sends any more.
    pub fn receive<R: Wait>(&mut self, rt: &R) -> Option<T> {
        self.receiver.recv_as::<Free, R>(rt, &mut self.pass).ok()
    }

    /// The next message, which is about to come; none where nobody sends any more. It looks for it some times, and lets other threads run
    /// between two looks, before it sleeps.
    pub fn receive_soon<R: Wait>(&mut self, rt: &R) -> Option<T> {
        for _ in 0..LOOKS {
            let message = self.try_receive(rt);
            if message.is_some() {
                return message;
            }
            thread::yield_now();
        }
        self.receive(rt)
    }

    /// The next message, if there is one.
    pub fn try_receive<R: Wait>(&mut self, rt: &R) -> Option<T> {
        self.receiver
            .try_recv_as::<Free, R>(rt, &mut self.pass)
            .ok()
    }
}
