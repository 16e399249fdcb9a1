//! The link's end of a driver's channel.

use crate::channel::{NotSent, Sender};
use crate::messages::{Exchange, Order};
use message::BlockRequest;
use std::alloc::{AllocError, Global};
use std::sync::Wait;

/// The link's end of a driver's channel, with the exchanges that are on no way. It takes its memory when it is made, and none from then on.
#[derive(Drop)]
pub struct OrderLine {
    orders: Sender<Order>,
    idle: Vec<Box<Exchange>>,
}

impl OrderLine {
    /// A line to a driver, on which so many requests may be under way at a time: posted, and not yet answered.
    pub fn new(alloc: Global, orders: Sender<Order>, room: usize) -> Result<OrderLine, AllocError> {
        let mut idle = Vec::with_capacity(alloc, room)?;
        for _ in 0..room {
            idle.push(Box::new(alloc, Exchange::new())?)?;
        }
        Ok(OrderLine { orders, idle })
    }

    /// Sends a request, unless as many as may be are under way, the channel is full, or the driver takes none any more. It doesn't wait.
    pub fn post<R: Wait>(&mut self, rt: &R, request: &BlockRequest) -> Result<(), NotSent<()>> {
        let Some(mut exchange) = self.idle.pop() else {
            return Err(NotSent::Full(()));
        };
        exchange.ask(request);
        match self.orders.try_send(rt, Order::Ask(exchange)) {
            Ok(()) => Ok(()),
            Err(NotSent::Full(order)) => {
                self.take_back(order);
                Err(NotSent::Full(()))
            }
            Err(NotSent::Gone) => Err(NotSent::Gone),
        }
    }

    // Keeps the exchange of an order that wasn't sent.
    fn take_back(&mut self, order: Order) {
        if let Order::Ask(exchange) = order {
            self.keep(exchange);
        }
    }

    /// Keeps an exchange of this line, which has come back, for a later request.
    pub fn keep(&mut self, exchange: Box<Exchange>) {
        // There is room: no more exchanges come back than there were.
        let _ = self.idle.push(exchange);
    }
}
