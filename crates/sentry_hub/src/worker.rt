//! A thread that ticks a client.
pub use sentry_base::clock::{BoxedTickClock, TickClock};
use sentry_base::protocol::Refusal;
use sentry_lock::{Client, CoreLock};
use std::alloc::AllocError;
use std::sync::atomic::{AtomicU64, Ordering};
use std::sync::{Arc, Wait};
use std::thread;
use std::thread::{JoinHandle, Threads};

/// Waits until the thread of a worker has ended, by a runtime that it keeps.
pub trait Joiner {
    /// Asks the thread to end before its next tick, and waits until it has ended.
    fn join(&self, worker: Worker);
}

/// Waits by a runtime.
#[derive(Drop)]
pub struct Joining<R>(pub R);

impl<R: Threads> Joiner for Joining<R> {
    fn join(&self, worker: Worker) {
        worker.stop(&self.0);
    }
}

/// What waits for a worker, in a box, which hides the runtime.
pub type BoxedJoiner = Box<dyn Joiner + Drop>;

/// A thread that ticks a client at the moments of a clock. It ends when the clock has no more of them, and when a tick is
/// refused for anything but want of memory. A worker that is dropped and not stopped runs on.
#[derive(Drop)]
pub struct Worker {
    stop: Arc<AtomicU64>,
    thread: JoinHandle<()>,
}

impl Worker {
    /// Starts the thread. `rt` is a handle that is copied into it.
    ///
    /// `OutOfMemory`, also where the system has no thread.
    pub fn start<
        R: Threads + Wait + Copy + Send + 'static,
        L: CoreLock + Send + Sync + 'static,
        K: TickClock + Drop + Send + 'static,
    >(rt: R, client: Client<L>, clock: K) -> Result<Worker, Refusal>
    where
        L::Processor: Send + Sync + 'static,
        L::Callbacks: Send + Sync + 'static,
        L::Transport: Send + Sync + 'static,
    {
        Ok(start_thread(rt, client, clock)?)
    }

    /// Asks the thread to end before its next tick, and waits until it has ended.
    pub fn stop<R: Threads>(self, rt: &R) {
        let Worker { stop, thread } = self;
        stop.store(1, Ordering::SeqCst);
        thread.join(rt);
    }
}

// Starts the thread.
fn start_thread<
    R: Threads + Wait + Copy + Send + 'static,
    L: CoreLock + Send + Sync + 'static,
    K: TickClock + Drop + Send + 'static,
>(rt: R, client: Client<L>, clock: K) -> Result<Worker, AllocError>
where
    L::Processor: Send + Sync + 'static,
    L::Callbacks: Send + Sync + 'static,
    L::Transport: Send + Sync + 'static,
{
    let stop = Arc::new(client.core().allocator(), AtomicU64::new(0))?;
    let theirs = stop.clone()?;
    let thread = thread::spawn(&rt, move || tick_all(&rt, &theirs, &client, clock))?;
    Ok(Worker { stop, thread })
}

fn is_set(word: &AtomicU64) -> bool {
    word.load(Ordering::SeqCst) != 0
}

// Ticks the client until the word is set, the clock ends, or a tick is refused for anything but want of memory.
fn tick_all<R: Wait, L: CoreLock, K: TickClock + Drop>(
    rt: &R,
    stop: &AtomicU64,
    client: &Client<L>,
    clock: K,
) {
    let mut clock = clock;
    for _ in rt.forever() {
        if is_set(stop) {
            return;
        }
        let Some(moment) = clock.next() else {
            return;
        };
        if is_set(stop) {
            return;
        }
        match client.tick(moment) {
            Ok(()) | Err(Refusal::OutOfMemory) => {}
            Err(_) => return,
        }
    }
}
