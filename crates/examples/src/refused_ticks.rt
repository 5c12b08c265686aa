//! A worker makes three ticks of a client, each of which sends a log. `tests/ticks` refuses the requests for memory of
//! `examples refused_ticks` in turn: a tick that is refused its memory sends nothing, and the next one sends both logs.
use crate::clocks::Steps;
use crate::printing::Printer;
use crate::setup::{SEED, options};
use anyhow::Result;
use sentry_core::protocol::{Log, LogLevel, Refusal};
use sentry_core::{BoxedClock, BoxedGate, BoxedTransport, TickClock, Worker, start};
use sentry_hub::Hub;
use sentry_lock::{Client, CoreLock};
use std::alloc::{AllocError, Global};
use std::sync::atomic::{AtomicU64, Ordering};
use std::sync::{Arc, Wait};
use std::thread::{Threads, yield_now};

/// How many moments the clock tells.
const MOMENTS: u64 = 3;

/// The turn is the main thread's: the clock was asked for a moment, so the tick before it is over.
const MAIN: u64 = 0;

/// The turn is the worker's: the clock may tell a moment.
const WORKER: u64 = 1;

/// The worker has ended, so no one hands the turn back.
const ENDED: u64 = 2;

/// How often a thread looks whether the turn was handed on.
const LOOKS: u64 = 10_000_000;

/// Nanoseconds from one moment to the next: after them a tick sends logs that wait.
const FIVE_SECONDS: u64 = 5_000_000_000;

/// Runs the example.
pub fn run<R: Threads + Wait + Print + Copy + Send + 'static>(
    rt: R,
    host: HostRuntime,
    wait: BoxedGate,
) -> Result<()> {
    let alloc = host.alloc();
    let transport: BoxedTransport = Box::new(alloc, Printer(host))?;
    let clock: BoxedClock = Box::new(alloc, Steps::of_seconds(1))?;
    let (sentry, thread) = start(alloc, wait, options(alloc)?, transport, clock, SEED)?;
    let moments = tick_in_turn(rt, sentry.client(), &thread.main)?;
    println!(rt; "the worker has ended after {moments} moments")?;
    sentry.close()?;
    println!(rt; "the client is flushed")?;
    Ok(())
}

// Logs between the ticks of a worker. Answers how many moments there were when it ended.
fn tick_in_turn<
    R: Threads + Wait + Print + Copy + Send + 'static,
    L: CoreLock + Send + Sync + 'static,
>(rt: R, client: &Client<L>, hub: &Hub<L>) -> Result<u64>
where
    L::Processor: Send + Sync + 'static,
    L::Callbacks: Send + Sync + 'static,
    L::Transport: Send + Sync + 'static,
{
    let turn = first_turn(hub.allocator())?;
    let (copy, word) = (client.clone()?, turn.clone()?);
    let worker = Worker::start(rt, copy, TicksInTurn::new(word))?;
    let moments = play(&rt, hub, &turn);
    worker.stop(&rt);
    moments
}

// The log that the next tick is to send.
fn capture<L: CoreLock>(hub: &Hub<L>, moment: u64) -> Result<(), Refusal> {
    let alloc = hub.allocator();
    let body = format!(in alloc; "log {moment}")?;
    let log = Log::new(alloc, LogLevel::Info, body.as_str(), 0)?;
    hub.capture_log(log)
}

// Captures a log before each moment, and waits until the tick of the moment is over. Answers how many moments there
// were when the worker ended.
fn play<R: Print, L: CoreLock>(rt: &R, hub: &Hub<L>, turn: &AtomicU64) -> Result<u64> {
    for told in 0..MOMENTS {
        if !is_handed_back(turn) {
            return Ok(told);
        }
        let moment = told.saturating_add(1);
        println!(rt; "moment {moment}")?;
        // what finds no memory is tried once more
        if capture(hub, moment).is_err() {
            capture(hub, moment)?;
        }
        hand_over(turn);
    }
    // after its last moment the clock doesn't hand the turn back
    is_handed_back(turn);
    Ok(MOMENTS)
}

/// Tells each of its moments when the main thread hands it the turn, and hands the turn back when it is asked for the
/// next one. When it is dropped, the worker has ended.
struct TicksInTurn {
    told: u64,
    turn: Arc<AtomicU64>,
}

impl Drop for TicksInTurn {
    fn drop(self) {
        let TicksInTurn { told: _, turn } = self;
        turn.store(ENDED, Ordering::SeqCst);
    }
}

impl TicksInTurn {
    // Tells its first moment next. The word says whose turn it is.
    fn new(turn: Arc<AtomicU64>) -> TicksInTurn {
        TicksInTurn { told: 0, turn }
    }
}

impl TickClock for TicksInTurn {
    fn next(&mut self) -> Option<u64> {
        if self.told >= MOMENTS {
            return None;
        }
        self.turn.store(MAIN, Ordering::SeqCst);
        if wait_while(&self.turn, MAIN) != WORKER {
            return None;
        }
        self.told = self.told.saturating_add(1);
        Some(self.told.saturating_mul(FIVE_SECONDS))
    }
}

// Waits until the turn is another one, and answers that; the same one at the limit.
fn wait_while(word: &AtomicU64, turn: u64) -> u64 {
    for _ in 0..LOOKS {
        let found = word.load(Ordering::SeqCst);
        if found != turn {
            return found;
        }
        yield_now();
    }
    turn
}

// A word by which the worker has the first turn.
fn first_turn(alloc: Global) -> Result<Arc<AtomicU64>, AllocError> {
    Ok(Arc::new(alloc, AtomicU64::new(WORKER))?)
}

// Hands the worker the turn.
fn hand_over(turn: &AtomicU64) {
    turn.store(WORKER, Ordering::SeqCst);
}

// Waits until the worker hands the turn back or has ended, and answers whether it is the main thread's.
fn is_handed_back(turn: &AtomicU64) -> bool {
    wait_while(turn, WORKER) == MAIN
}
