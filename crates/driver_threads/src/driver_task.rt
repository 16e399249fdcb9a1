//! What a driver's thread does, which is made before its driver is started and waits for that.

ghost use Rattle.std.specs.Prelude.{◌≡◌};
ghost use Rattle.std.specs.Arc.{arc_value};

use crate::shared::Shared;
use bdev::{BlockDriver, Stepped};
use board::Seat;
use board::counting::parameters::ServiceParameters;
use channel_link::channel::{Receiver, Sender};
use channel_link::messages::{Exchange, Order, Report};
use channel_link::server_line::NewsSender;
use gate::{Gate, Point};
use message::BlockReply;
use std::sync::atomic::{AtomicBool, Ordering};
use std::sync::{Arc, Wait};
use std::thread;
use std::thread::{JoinHandle, Threads};

/// What a driver's thread has but its driver: the ends of channels that it uses, and what it shares with the others.
#[derive(Drop)]
pub(crate) struct DriverTask<N: ServiceParameters, G: Gate> {
    orders: Receiver<Order>,
    news: NewsSender,
    reports: Sender<Report>,
    // Set while a ping is on its way to the driver.
    pinged: Arc<AtomicBool>,
    shared: Shared<N, G>,
    seat: Seat,
    beats: u32,
    // Whether the last order was a request.
    has_served: bool,
    ghost seated: { seat.table ≡ arc_value shared.board },
}

impl<N: ServiceParameters, G: Gate> DriverTask<N, G> {
    /// For a driver that takes these orders, and sends by this end of the server's line.
    pub(crate) fn new(
        orders: Receiver<Order>,
        news: NewsSender,
        reports: Sender<Report>,
        pinged: Arc<AtomicBool>,
        shared: Shared<N, G>,
        seat: Seat,
    ) -> DriverTask<N, G>
        requires { seat.table ≡ arc_value shared.board }
    {
        DriverTask {
            orders,
            news,
            reports,
            pinged,
            shared,
            seat,
            beats: 0,
            has_served: false,
        }
    }

    // A beat, under the driver's generation.
    fn beat(&mut self) {
        self.beats = self.beats.saturating_add(1);
        let generation = self.news.endpoint().generation;
        self.shared
            .board
            .beat(&mut self.seat, generation, self.beats);
    }

    // One step, under the lock of the media, which puts an answer into the reply; none where all is to end. It doesn't ask whether a later
    // driver was started: then the media refuse the step.
    fn step<R: Wait, D: BlockDriver>(
        &mut self,
        rt: &R,
        driver: &mut D,
        reply: &mut BlockReply,
    ) -> Option<Stepped> {
        let generation = self.news.endpoint().generation;
        self.shared.gate.pass(Point::DriverStep(generation));
        if self.shared.ending.is_rung() {
            return None;
        }
        let mut media = self.shared.media.lock(rt);
        Some((&mut *media).step(driver, generation, reply))
    }

    // Sends an answer, stamped with the driver's endpoint. Whether the driver goes on: it ends where the server has left.
    fn answer<R: Wait>(&mut self, rt: &R, exchange: Box<Exchange>) -> bool {
        self.beat();
        let mut exchange = exchange;
        exchange.reply.from = self.news.endpoint();
        self.news.answer(rt, exchange)
    }

    // Works on a request until it is answered. Whether the driver goes on: a failed one ends.
    fn serve<R: Wait, D: BlockDriver>(
        &mut self,
        rt: &R,
        driver: &mut D,
        exchange: Box<Exchange>,
    ) -> bool {
        let mut exchange = exchange;
        let _ = driver.accept(exchange.request);
        for _ in rt.forever() {
            match self.step(rt, driver, &mut exchange.reply) {
                Some(Stepped::Working) => self.beat(),
                Some(Stepped::Idle) => return true,
                Some(Stepped::Done(_)) => return self.answer(rt, exchange),
                Some(Stepped::Failed) => {
                    let _ = self.reports.send(rt, Report::Exit(self.news.endpoint()));
                    return false;
                }
                None => return false,
            }
        }
        unreachable!()
    }

    // The next order. One often follows right behind a request, so it is looked for before the thread sleeps.
    fn order<R: Wait>(&mut self, rt: &R) -> Option<Order> {
        if self.has_served {
            self.orders.receive_soon(rt)
        } else {
            self.orders.receive(rt)
        }
    }

    // Takes one order, and does it. Whether the driver goes on.
    fn turn<R: Wait, D: BlockDriver>(&mut self, rt: &R, driver: &mut D) -> bool {
        let order = self.order(rt);
        self.has_served = matches!(order, Some(Order::Ask(_)));
        match order {
            None | Some(Order::Stop) => false,
            Some(Order::Ping) => {
                self.pinged.store(false, Ordering::SeqCst);
                self.beat();
                true
            }
            Some(Order::Ask(exchange)) => self.serve(rt, driver, exchange),
        }
    }

    // Waits for its driver, and takes orders to the last; then the driver is dropped. Nothing where no driver comes any more.
    fn run_to_end<R: Wait, D: BlockDriver>(mut self, rt: &R, drivers: Receiver<D>) {
        let mut drivers = drivers;
        if let Some(mut driver) = drivers.receive(rt) {
            self.run(rt, &mut driver);
        }
    }

    // Takes orders until it is told to end, nobody sends it any, the server has left or a step fails.
    fn run<R: Wait, D: BlockDriver>(&mut self, rt: &R, driver: &mut D) {
        for _ in rt.forever() {
            if !self.turn(rt, driver) {
                return;
            }
        }
    }
}

/// Makes a driver's thread, which takes its driver from this channel. None where no thread could be made.
pub(crate) fn start_driver<
    N: ServiceParameters + Send + Sync + 'static,
    D: BlockDriver + 'static,
    G: Gate + 'static,
    R: Threads + Wait + Copy + Send + 'static,
>(rt: &R, task: DriverTask<N, G>, drivers: Receiver<D>) -> Option<JoinHandle<()>> {
    let mine = *rt;
    thread::spawn(rt, move || task.run_to_end(&mine, drivers)).ok()
}
