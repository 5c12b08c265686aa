//! What tells the moment: to a hub of a thread and to a queueing transport, and to a worker when it is to tick.

/// Tells the moment.
pub trait Clock {
    /// The moment, in nanoseconds since the epoch. It may come before an earlier answer.
    fn now(&mut self) -> u64;
}

/// A clock in a box.
pub type BoxedClock = Box<dyn Clock + Send + Sync + Drop>;

/// Forwards the call.
impl Clock for BoxedClock {
    fn now(&mut self) -> u64 {
        Clock::now(&mut **self)
    }
}

/// Tells when a client is to be ticked.
pub trait TickClock {
    /// Waits for the moment of the next tick, in nanoseconds since the epoch. `None` ends the ticks.
    fn next(&mut self) -> Option<u64>;
}

/// A tick clock in a box.
pub type BoxedTickClock = Box<dyn TickClock + Send + Sync + Drop>;

/// Forwards the call.
impl TickClock for BoxedTickClock {
    fn next(&mut self) -> Option<u64> {
        TickClock::next(&mut **self)
    }
}
