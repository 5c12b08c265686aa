//! A transport during whose calls another thread makes a call on the same client: the lock is free then.
use crate::workshop::{Held, capture_event, capture_log, options};
use sentry_base::protocol::{Envelope, Refusal};
use sentry_lock::{Client, CoreLock};
use sentry_transport::Transport;
use std::alloc::Global;
use std::sync::{Arc, Mutex, Wait};
use std::test::Fail;
use std::thread::{Threads, join, yield_now};

/// How many calls of a transport began, how many of them were answered, and whether no more come.
#[derive(Clone, Copy)]
struct Turns {
    begun: u64,
    answered: u64,
    is_over: bool,
}

/// Waits in each call until another thread has answered it. Where that thread waits for a lock which is held meanwhile,
/// neither ends, and the test is stopped.
#[derive(Drop)]
pub(crate) struct Asks<R: Wait + Drop> {
    pub(crate) rt: R,
    turns: Mutex<Turns>,
}

impl<R: Wait + Drop> Asks<R> {
    pub(crate) fn new(rt: R) -> Asks<R> {
        Asks {
            rt,
            turns: Mutex::new(Turns {
                begun: 0,
                answered: 0,
                is_over: false,
            }),
        }
    }

    fn turns(&self) -> Turns {
        *self.turns.lock(&self.rt)
    }

    fn begin(&self) -> u64 {
        let mut turns = self.turns.lock(&self.rt);
        turns.begun = turns.begun.wrapping_add(1);
        turns.begun
    }

    pub(crate) fn answer(&self) {
        let mut turns = self.turns.lock(&self.rt);
        turns.answered = turns.answered.wrapping_add(1);
    }

    pub(crate) fn end(&self) {
        self.turns.lock(&self.rt).is_over = true;
    }

    /// How many calls began.
    pub(crate) fn begun(&self) -> u64 {
        self.turns().begun
    }

    /// Whether a call waits for an answer.
    pub(crate) fn is_asking(&self) -> bool {
        let turns = self.turns();
        turns.answered < turns.begun
    }

    /// Whether no more calls come.
    pub(crate) fn is_over(&self) -> bool {
        self.turns().is_over
    }

    fn ask(&self) {
        let begun = self.begin();
        for _ in self.rt.forever() {
            if self.turns().answered >= begun {
                return;
            }
            yield_now();
        }
    }
}

impl<R: Wait + Drop> Transport for Asks<R> {
    fn send_envelope(&self, _envelope: Envelope) {
        self.ask();
    }

    fn flush(&self, _timeout: u64) -> bool {
        self.ask();
        true
    }

    fn shutdown(&self, _timeout: u64) -> bool {
        self.ask();
        true
    }
}

/// Captures a log on the client for each call of its transport, until no more come.
fn answer_all<R: Wait + Drop, L: CoreLock>(
    client: &Client<L>,
    asks: &Asks<R>,
) -> Result<(), Refusal> {
    for _ in asks.rt.forever() {
        let turns = asks.turns();
        if turns.answered < turns.begun {
            capture_log(client)?;
            asks.answer();
        } else if turns.is_over {
            return Ok(());
        }
        yield_now();
    }
    Ok(())
}

/// Sends an event, flushes and closes.
fn call_all<R: Wait + Drop, L: CoreLock>(
    client: &Client<L>,
    asks: &Asks<R>,
) -> Result<[bool; 2], Refusal> {
    capture_event(client, 1)?;
    let is_flushed = client.flush(Some(1))?;
    let is_closed = client.close(Some(1))?;
    asks.end();
    Ok([is_flushed, is_closed])
}

/// Does so while another thread answers.
fn call_in_two_threads<R: Threads + Wait + Sync + Drop, L: CoreLock + Send + Sync + 'static>(
    rt: &R,
    client: &Client<L>,
    asks: &Asks<R>,
) -> Result<[bool; 2], Refusal>
where
    L::Processor: Send + Sync + 'static,
    L::Callbacks: Send + Sync + 'static,
    L::Transport: Send + Sync + 'static,
{
    let (ended, answered) = join(rt, || call_all(client, asks), || answer_all(client, asks));
    answered?;
    ended
}

#[test]
fn a_transport_is_called_without_the_lock(rt: HostRuntime) -> Result<(), Fail> {
    let alloc: Global = rt.alloc();
    let asks = Arc::new(alloc, Asks::new(rt))?;
    let transport = Some(asks.clone()?);
    let held = Held::new(rt, alloc, options(alloc, false)?, transport)?;
    let answers = call_in_two_threads(&rt, &held.client, &asks)?;
    assert!(rt; answers == [true; 2]);
    // an event, the log that came meanwhile, a flush, the log of that, and a shutdown
    assert!(rt; asks.turns().answered == 5);
    Ok(())
}
