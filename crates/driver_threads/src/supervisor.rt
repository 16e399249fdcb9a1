//! What the reincarnation server's thread does.

ghost use Rattle.std.specs.Prelude.{◌≡◌, ◌<◌, ◌≤◌, ◌^◌};
ghost use Rattle.std.specs.Arc.{arc_value};
ghost use Rattle.reincarnate.specs.Laws.{tick_of};

use crate::driver_task::{DriverTask, start_driver};
use crate::shared::Shared;
use bdev::BlockDriver;
use board::Seat;
use board::counting::parameters::ServiceParameters;
use channel_link::channel::{Receiver, Sender, bounded};
use channel_link::messages::{Order, Report};
use channel_link::order_line::OrderLine;
use channel_link::server_line::NewsSender;
use gate::{Gate, Point};
use message::endpoint::Endpoint;
use reincarnate::policy::Event;
use reincarnate::{Action, Reincarnation};
use std::alloc::{AllocError, Global};
use std::sync::atomic::{AtomicBool, Ordering};
use std::sync::{Arc, Wait};
use std::thread;
use std::thread::{JoinHandle, Threads};

/// The last tick that there is (own).
const LAST_TICK: u64 = 281474976710655;

/// How many requests may be under way to a driver: posted, and their answers not yet taken (own).
const REQUESTS: usize = 32;

/// How many orders the channel of a driver holds: so many requests, a ping and a stop.
const ORDERS: usize = 34;

/// The thread of the driver of an endpoint, and an end of the channel of its orders.
#[derive(Drop)]
pub(crate) struct Worker {
    endpoint: Endpoint,
    handle: JoinHandle<()>,
    orders: Sender<Order>,
}

impl Worker {
    /// Tells the driver to end, and joins its thread.
    pub(crate) fn end<R: Threads + Wait>(self, rt: &R) {
        let Worker {
            endpoint: _,
            handle,
            mut orders,
        } = self;
        let _ = orders.send(rt, Order::Stop);
        handle.join(rt);
    }
}

/// Joins the thread of a driver that has reported its exit, which is its last act: so a driver that has ended takes no memory.
fn join_ended<R: Threads + Wait>(rt: &R, endpoint: Endpoint, workers: &mut Vec<Worker>) {
    for at in 0..workers.len() {
        if workers[at].endpoint == endpoint {
            workers.swap_remove(at).end(rt);
            return;
        }
    }
}

// The driver that was started last: an end of the channel of its orders, and whether a ping is on its way to it.
#[derive(Drop)]
struct Pinging {
    orders: Sender<Order>,
    pinged: Arc<AtomicBool>,
}

// A thread that waits for the driver of an endpoint: how the driver comes to it, the line for the server's link and an end for pings.
#[derive(Drop)]
struct Ready<D: BlockDriver> {
    endpoint: Endpoint,
    drivers: Sender<D>,
    orders: OrderLine,
    pinging: Pinging,
}

/// The ends of channels that the reincarnation server has.
#[derive(Drop)]
pub(crate) struct Lines {
    /// What drivers and the server report.
    pub(crate) heard: Receiver<Report>,
    /// From which the drivers' ends are made.
    pub(crate) report_end: Sender<Report>,
    /// The server's line.
    pub(crate) news: NewsSender,
}

// A channel of orders: the driver's end, and three for those who send some.
#[derive(Drop)]
struct OrderEnds {
    taken: Receiver<Order>,
    for_pings: Sender<Order>,
    for_end: Sender<Order>,
    orders: OrderLine,
}

impl OrderEnds {
    fn new(alloc: Global) -> Result<OrderEnds, AllocError> {
        let (mut orders, taken) = bounded::<Order>(alloc, ORDERS)?;
        let for_pings = orders.another()?;
        let for_end = orders.another()?;
        let orders = OrderLine::new(alloc, orders, REQUESTS)?;
        Ok(OrderEnds {
            taken,
            for_pings,
            for_end,
            orders,
        })
    }
}

/// The reincarnation server, with the ends of channels that its thread uses, and what it shares with the drivers.
#[derive(Drop)]
pub(crate) struct Supervisor<N: ServiceParameters, D: BlockDriver, G: Gate> {
    alloc: Global,
    reincarnation: Reincarnation<D>,
    lines: Lines,
    shared: Shared<N, G>,
    seat: Seat,
    // The number of the next tick, and of the last one that passed, which is 0 before the first.
    ticks: u64,
    last: u64,
    running: Option<Pinging>,
    // The thread that waits for its driver, if one does.
    ready: Option<Ready<D>>,
    ghost seated: { seat.table ≡ arc_value shared.board },
    ghost low: { ticks < 2 ^ 48 },
    ghost passed: { last ≤ ticks },
}

impl<
    N: ServiceParameters + Send + Sync + 'static,
    D: BlockDriver + 'static,
    G: Gate + 'static,
> Supervisor<N, D, G> {
    /// The reincarnation server, which was told nothing yet.
    pub(crate) fn new(
        alloc: Global,
        reincarnation: Reincarnation<D>,
        lines: Lines,
        shared: Shared<N, G>,
        seat: Seat,
    ) -> Supervisor<N, D, G>
        requires { seat.table ≡ arc_value shared.board }
    {
        Supervisor {
            alloc,
            reincarnation,
            lines,
            shared,
            seat,
            ticks: 0,
            last: 0,
            running: None,
            ready: None,
        }
    }

    // What a driver's thread works with. Refused where no memory was found.
    fn task(
        &mut self,
        endpoint: Endpoint,
        orders: Receiver<Order>,
        pinged: Arc<AtomicBool>,
    ) -> Result<DriverTask<N, G>, AllocError> {
        let news = self.lines.news.another(endpoint)?;
        let reports = self.lines.report_end.another()?;
        let shared = self.shared.another()?;
        let seat = self.shared.board.split(&mut self.seat, None)?;
        Ok(DriverTask::new(orders, news, reports, pinged, shared, seat))
    }

    // A thread for the driver of this endpoint, with all that it needs. Refused where no memory or no thread was found.
    fn spawn<R: Threads + Wait + Copy + Send + 'static>(
        &mut self,
        rt: &R,
        endpoint: Endpoint,
    ) -> Result<(Worker, Ready<D>), AllocError> {
        let pinged = Arc::new(self.alloc, AtomicBool::new(false))?;
        let theirs = Arc::try_clone(&pinged)?;
        let OrderEnds {
            taken,
            for_pings,
            for_end,
            orders,
        } = OrderEnds::new(self.alloc)?;
        let (drivers, theirs_to_take) = bounded::<D>(self.alloc, 1)?;
        let task = self.task(endpoint, taken, theirs)?;
        let handle = start_driver(rt, task, theirs_to_take).ok_or(AllocError)?;
        let worker = Worker {
            endpoint,
            handle,
            orders: for_end,
        };
        Ok((
            worker,
            Ready {
                endpoint,
                drivers,
                orders,
                pinging: Pinging {
                    orders: for_pings,
                    pinged,
                },
            },
        ))
    }

    /// Makes the thread for the driver of this endpoint, which waits for it. Refused where no memory or no thread was found.
    pub(crate) fn make_ready<R: Threads + Wait + Copy + Send + 'static>(
        &mut self,
        rt: &R,
        endpoint: Endpoint,
    ) -> Result<Worker, AllocError> {
        let (worker, ready) = self.spawn(rt, endpoint)?;
        self.ready = Some(ready);
        Ok(worker)
    }

    // Hands a driver to its thread, which is made where none waits for this endpoint, and tells the server. Refused where no memory or no
    // thread was found: the driver is dropped then.
    fn hand_over<R: Threads + Wait + Copy + Send + 'static>(
        &mut self,
        rt: &R,
        endpoint: Endpoint,
        driver: D,
        workers: &mut Vec<Worker>,
    ) -> Result<(), AllocError> {
        if !self.is_ready(endpoint) {
            workers.reserve(1)?;
            let worker = self.make_ready(rt, endpoint)?;
            workers.push_reserved(worker);
        }
        let ready = self.ready.take().ok_or(AllocError)?;
        let Ready {
            endpoint: _,
            mut drivers,
            orders,
            pinging,
        } = ready;
        let _ = drivers.send(rt, driver);
        self.running = Some(pinging);
        let _ = self.lines.news.started(rt, endpoint, orders);
        Ok(())
    }

    // Whether a thread waits for the driver of this endpoint.
    fn is_ready(&self, endpoint: Endpoint) -> bool {
        matches!(&self.ready, Some(ready) if ready.endpoint == endpoint)
    }

    // Starts a driver: its generation is adopted first, then the server is told. Where no thread is made, that is an exit of the driver.
    fn start<R: Threads + Wait + Copy + Send + 'static>(
        &mut self,
        rt: &R,
        endpoint: Endpoint,
        driver: D,
        workers: &mut Vec<Worker>,
    ) {
        (&mut *self.shared.media.lock(rt)).adopt(endpoint.generation);
        self.shared
            .board
            .started(&mut self.seat, endpoint.generation);
        if self.hand_over(rt, endpoint, driver, workers).is_err() {
            self.fault(rt, Event::Exit(endpoint, self.last));
        }
    }

    // An exit or a complaint, at which no driver is started.
    fn fault<R: Wait>(&mut self, rt: &R, event: Event)
        requires { tick_of event < 2 ^ 48 }
    {
        if let Action::GiveUp = self.reincarnation.on(event) {
            let _ = self.lines.news.gave_up(rt);
        }
    }

    // One report, if there is one.
    fn hear_one<R: Threads + Wait>(&mut self, rt: &R, workers: &mut Vec<Worker>) -> bool {
        let Some(report) = self.lines.heard.try_receive(rt) else {
            return false;
        };
        let tick = self.last;
        let event = match report {
            Report::Exit(endpoint) => {
                join_ended(rt, endpoint, workers);
                Event::Exit(endpoint, tick)
            }
            Report::Complaint(endpoint) => Event::Complaint(endpoint, tick),
        };
        self.fault(rt, event);
        true
    }

    // All that was reported since the last tick.
    fn hear<R: Threads + Wait>(&mut self, rt: &R, workers: &mut Vec<Worker>) {
        for _ in rt.forever() {
            if !self.hear_one(rt, workers) {
                return;
            }
        }
        unreachable!()
    }

    // Pings the driver that was started last, unless a ping is still on its way to it.
    fn ping<R: Wait>(&mut self, rt: &R) {
        let Some(running) = &mut self.running else {
            return;
        };
        if running.pinged.swap(true, Ordering::SeqCst) {
            return;
        }
        if running.orders.try_send(rt, Order::Ping).is_err() {
            running.pinged.store(false, Ordering::SeqCst);
        }
    }

    // One tick passes.
    fn tick<R: Threads + Wait + Copy + Send + 'static>(
        &mut self,
        rt: &R,
        workers: &mut Vec<Worker>,
    ) {
        self.hear(rt, workers);
        let pulse = self.shared.board.pulse(&mut self.seat);
        let tick = self.ticks;
        self.last = tick;
        self.ticks = (tick + 1).min(LAST_TICK);
        match self.reincarnation.on(Event::Tick(tick, pulse)) {
            Action::Start(endpoint, driver) => self.start(rt, endpoint, driver, workers),
            Action::GiveUp => {
                let _ = self.lines.news.gave_up(rt);
            }
            Action::Nothing => self.ping(rt),
            Action::WaitUntil(_) => {}
        }
    }

    // Passes the gate, and lets a tick pass. Whether the reincarnation server goes on.
    fn turn<R: Threads + Wait + Copy + Send + 'static>(
        &mut self,
        rt: &R,
        workers: &mut Vec<Worker>,
    ) -> bool {
        let ending = &*self.shared.ending;
        self.shared.gate.pass_or_end(Point::Tick, ending);
        if ending.is_rung() {
            return false;
        }
        self.tick(rt, workers);
        true
    }

    // Lets ticks pass, as the gate does, until all is to end; then the drivers whose threads are left are told, and joined. By
    // then it has let its ends go.
    fn run<R: Threads + Wait + Copy + Send + 'static>(mut self, rt: &R) {
        let mut workers: Vec<Worker> = Vec::new(self.alloc);
        for _ in rt.forever() {
            if !self.turn(rt, &mut workers) {
                break;
            }
        }
        drop(self);
        for worker in workers {
            worker.end(rt);
        }
    }
}

/// Starts the thread of the reincarnation server. None where no thread could be made: all its drivers are dropped then.
pub(crate) fn start_supervisor<
    N: ServiceParameters + Send + Sync + 'static,
    D: BlockDriver + 'static,
    G: Gate + 'static,
    R: Threads + Wait + Copy + Send + 'static,
>(rt: &R, supervisor: Supervisor<N, D, G>) -> Option<JoinHandle<()>> {
    let mine = *rt;
    thread::spawn(rt, move || supervisor.run(&mine)).ok()
}
