//! A thread that sleeps at the gate of a lock: it is woken once the lock is free.
use crate::quiet::{Passes, Quiet};
use crate::workshop::{Held, options};
use sentry_base::protocol::Refusal;
use sentry_lock::{Client, CoreLock, Gate, Locked, SharedCore, Waiting};
use sentry_transport::NoOpTransport;
use std::alloc::{AllocError, Global};
use std::convert::Infallible;
use std::sync::{Arc, Mutex, MutexGuard, Wait};
use std::test::Fail;
use std::thread::{Threads, join, sleep, yield_now};
use std::time::{Clock, Duration};

/// Whether a thread holds the lock, and how many began to sleep at its gate.
#[derive(Clone, Copy)]
struct Notes {
    is_held: bool,
    asleep: u64,
}

/// What two threads tell each other.
#[derive(Drop)]
struct Board<R: Wait + Drop> {
    rt: R,
    notes: Mutex<Notes>,
}

impl<R: Wait + Drop> Board<R> {
    fn new(rt: R, alloc: Global) -> Result<Arc<Board<R>>, AllocError> {
        let notes = Mutex::new(Notes {
            is_held: false,
            asleep: 0,
        });
        Ok(Arc::new(alloc, Board { rt, notes })?)
    }

    fn notes(&self) -> Notes {
        *self.notes.lock(&self.rt)
    }

    fn note_holder(&self) {
        self.notes.lock(&self.rt).is_held = true;
    }

    fn count_sleeper(&self) {
        let mut notes = self.notes.lock(&self.rt);
        notes.asleep = notes.asleep.wrapping_add(1);
    }

    fn wait_for_holder(&self) {
        for _ in self.rt.forever() {
            if self.notes().is_held {
                return;
            }
            yield_now();
        }
    }

    fn wait_for_sleeper(&self) {
        for _ in self.rt.forever() {
            if self.notes().asleep != 0 {
                return;
            }
            yield_now();
        }
    }
}

/// Counts each thread that is to sleep.
#[derive(Drop)]
struct Counting<R: Wait + Drop> {
    waiting: Waiting<R>,
    board: Arc<Board<R>>,
}

impl<R: Wait + Drop> Gate for Counting<R> {
    fn enter<'a>(&self, gate: &'a Mutex<()>) -> MutexGuard<'a, ()> {
        self.board.count_sleeper();
        self.waiting.enter(gate)
    }

    fn never(&self) -> Infallible {
        self.waiting.never()
    }
}

/// Holds the lock until another thread sleeps, and somewhat longer: it counts as asleep shortly before it is.
fn hold<R: Wait + Clock + Drop, L: CoreLock>(client: &Client<L>, board: &Board<R>) {
    let guard = client.core().lock();
    board.note_holder();
    board.wait_for_sleeper();
    sleep(&board.rt, Duration::from_millis(10));
    drop(guard);
}

/// Makes a call while the lock is held.
fn call<R: Wait + Drop, L: CoreLock>(
    client: &Client<L>,
    board: &Board<R>,
) -> Result<bool, Refusal> {
    board.wait_for_holder();
    client.is_enabled()
}

/// Does both at once. Where the thread that sleeps is not woken this never ends, and the test is stopped.
fn call_while_held<R: Threads + Wait + Clock + Sync + Drop, L: CoreLock + Send + Sync + 'static>(
    rt: &R,
    client: &Client<L>,
    board: &Board<R>,
) -> Result<bool, Refusal>
where
    L::Processor: Send + Sync + 'static,
    L::Callbacks: Send + Sync + 'static,
    L::Transport: Send + Sync + 'static,
{
    let ((), answer) = join(rt, || hold(client, board), || call(client, board));
    answer
}

type WatchedLock<R> = Locked<Passes, Quiet, NoOpTransport, Counting<R>>;

#[test]
fn a_thread_that_sleeps_at_the_gate_is_woken(rt: HostRuntime) -> Result<(), Fail> {
    let alloc: Global = rt.alloc();
    let board = Board::new(rt, alloc)?;
    let wait = Counting {
        waiting: Waiting(rt),
        board: board.clone()?,
    };
    let core: SharedCore<WatchedLock<HostRuntime>> = SharedCore::new(wait, alloc, 1)?;
    let held = Held::on(&core, options(alloc, false)?, Some(NoOpTransport))?;
    let is_enabled = call_while_held(&rt, &held.client, &board)?;
    assert!(rt; is_enabled && board.notes().asleep == 1);
    Ok(())
}
