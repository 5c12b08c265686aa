//! The clocks of the examples.
use sentry_core::{Clock, TickClock};
use std::sync::Arc;
use std::sync::atomic::{AtomicU64, Ordering};
use std::time::Duration;
use std::{thread, time};

/// Nanoseconds in a second.
pub const SECOND: u64 = 1_000_000_000;

/// A clock that is so many seconds further each time that it is asked. A real one asks the system.
#[derive(Drop)]
pub struct Steps {
    seconds: u64,
    moment: u64,
}

impl Steps {
    /// Begins at zero.
    pub fn of_seconds(seconds: u64) -> Steps {
        Steps { seconds, moment: 0 }
    }
}

impl Clock for Steps {
    fn now(&mut self) -> u64 {
        let now = self.moment;
        let step = self.seconds.saturating_mul(SECOND);
        self.moment = now.saturating_add(step);
        now
    }
}

/// Tells the moment that the program set last.
#[derive(Drop)]
pub struct SetMoment(pub Arc<AtomicU64>);

impl Clock for SetMoment {
    fn now(&mut self) -> u64 {
        self.0.load(Ordering::SeqCst)
    }
}

/// Ticks each five seconds, which go by in a millisecond. They have no end, so the worker is stopped.
#[derive(Drop)]
pub struct Ticks<R> {
    rt: R,
    moment: u64,
}

impl<R> Ticks<R> {
    /// Begins at zero.
    pub fn new(rt: R) -> Ticks<R> {
        Ticks { rt, moment: 0 }
    }
}

impl<R: time::Clock> TickClock for Ticks<R> {
    fn next(&mut self) -> Option<u64> {
        thread::sleep(&self.rt, Duration::from_millis(1));
        self.moment = self.moment.saturating_add(5 * SECOND);
        Some(self.moment)
    }
}
