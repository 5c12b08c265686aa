//! A thread that passes on what waits in a queue.
use crate::queue_transport::QueueTransport;
use crate::transport::Transport;
use sentry_base::clock::Clock;
use std::alloc::{AllocError, Global};
use std::sync::atomic::{AtomicU64, Ordering};
use std::sync::{Arc, Wait};
use std::thread::{JoinHandle, Threads};
use std::time::Duration;
use std::{thread, time};

/// How many milliseconds a pump sleeps where nothing waits.
const PAUSE: u64 = 1;

/// A thread that passes on what waits in a `QueueTransport`, which it looks at each millisecond. A pump that is dropped and
/// not stopped runs on.
#[derive(Drop)]
pub struct Pump {
    stop: Arc<AtomicU64>,
    thread: JoinHandle<()>,
}

impl Pump {
    /// Starts the thread. `rt` is a handle that is copied into it.
    ///
    /// `AllocError`: out of memory, also where the system has no thread.
    pub fn start<
        R: Threads + Wait + time::Clock + Copy + Drop + Send + Sync + 'static,
        T: Transport + Drop + Send + Sync + 'static,
        K: Clock + Drop + Send + 'static,
    >(rt: R, alloc: Global, queue: Arc<QueueTransport<R, T, K>>) -> Result<Pump, AllocError> {
        let stop = Arc::new(alloc, AtomicU64::new(0))?;
        let theirs = stop.clone()?;
        let thread = thread::spawn(&rt, move || pump_until(&rt, &theirs, &queue))?;
        Ok(Pump { stop, thread })
    }

    /// Asks the thread to end, and waits until it has passed on what waits then, and has ended.
    pub fn stop<R: Threads>(self, rt: &R) {
        let Pump { stop, thread } = self;
        stop.store(1, Ordering::SeqCst);
        thread.join(rt);
    }
}

// Pumps until the word is set, and then once more what waits.
fn pump_until<R: Wait + time::Clock + Drop, T: Transport + Drop, K: Clock + Drop>(
    rt: &R,
    stop: &AtomicU64,
    queue: &QueueTransport<R, T, K>,
) {
    for _ in rt.forever() {
        if stop.load(Ordering::SeqCst) != 0 {
            queue.pump_waiting();
            return;
        }
        if !queue.pump() {
            thread::sleep(rt, Duration::from_millis(PAUSE));
        }
    }
}
