//! Hubs in threads, and a worker.
use crate::workshop::{Collector, LOOKS, add_client, add_hub, at, fresh, new_sink};
use sentry_core::protocol::{Log, LogLevel, Refusal};
use sentry_core::{Envelope, Level, TickClock, Worker};
use sentry_hub::Hub;
use sentry_lock::{Client, CoreLock};
use std::alloc::{AllocError, Global};
use std::sync::atomic::{AtomicU64, Ordering};
use std::sync::{Arc, Wait};
use std::test::Fail;
use std::thread::{Threads, map_vec, yield_now};

/// A hundred messages on a hub, with the ids of the numbers from the first on.
#[derive(Drop)]
struct Job<L> {
    first: u8,
    hub: Hub<L>,
}

fn send_hundred<L: CoreLock>(job: Job<L>) -> Result<(), Refusal> {
    for offset in 0..100u8 {
        let fresh = fresh(job.first.wrapping_add(offset));
        drop(job.hub.capture_message("told", Level::Info, fresh)?);
    }
    Ok(())
}

// The messages 1 to 100 on a hub, and the messages 101 to 200 on another.
fn make_jobs<L: Drop>(
    alloc: Global,
    hub: Hub<L>,
    other: Hub<L>,
) -> Result<Vec<Job<L>>, AllocError> {
    let mut jobs = Vec::new(alloc);
    jobs.push(Job { first: 1, hub })?;
    jobs.push(Job {
        first: 101,
        hub: other,
    })?;
    Ok(jobs)
}

// Sends these messages on a hub of a client and on one from its top, each in a thread, until all are sent.
fn send_two_hundred<R: Threads + Sync, L: CoreLock + Send + Sync + 'static>(
    rt: &R,
    client: &Client<L>,
) -> Result<(), Refusal>
where
    L::Processor: Send + Sync + 'static,
    L::Callbacks: Send + Sync + 'static,
    L::Transport: Send + Sync + 'static,
{
    let hub = add_hub(client)?;
    let other = Hub::new_from_top(&hub)?;
    let jobs = make_jobs(client.core().allocator(), hub, other)?;
    for done in map_vec(rt, jobs, &|job: Job<L>| send_hundred(job))? {
        done?;
    }
    Ok(())
}

// Whether each id from 1 to 200 is that of an envelope.
fn has_each_id(envelopes: &[Envelope]) -> bool {
    let mut is_seen = [false; 256];
    for envelope in envelopes {
        if let Some(id) = envelope.header.event_id {
            let number = u8::try_from(id.as_u128()).unwrap_or(0);
            is_seen[usize::from(number)] = true;
        }
    }
    !is_seen[1..201].contains(&false)
}

#[test]
fn two_threads_hand_over_each_message_once(rt: HostRuntime) -> Result<(), Fail> {
    let alloc: Global = rt.alloc();
    let sink = new_sink(alloc)?;
    send_two_hundred(&rt, &add_client(rt, alloc, &sink)?)?;
    let envelopes = sink.take(alloc);
    assert_eq!(rt; envelopes.len(), 200);
    assert!(rt; has_each_id(envelopes.as_slice()));
    Ok(())
}

// Looks at a word until it is set, and lets other threads run in between. Answers the word; 0 at the limit.
fn wait_for(word: &AtomicU64) -> u64 {
    for _ in 0..LOOKS {
        let found = word.load(Ordering::SeqCst);
        if found != 0 {
            return found;
        }
        yield_now();
    }
    0
}

/// Tells three moments. When it is dropped, a word tells how many of them it told, and one more.
struct CountedTicks {
    told: u64,
    ended: Arc<AtomicU64>,
}

impl Drop for CountedTicks {
    fn drop(self) {
        let CountedTicks { told, ended } = self;
        ended.store(told.saturating_add(1), Ordering::SeqCst);
    }
}

impl TickClock for CountedTicks {
    fn next(&mut self) -> Option<u64> {
        if self.told >= 3 {
            return None;
        }
        self.told = self.told.saturating_add(1);
        Some(at(6))
    }
}

// A word that isn't set.
fn unset_word(alloc: Global) -> Result<Arc<AtomicU64>, AllocError> {
    Ok(Arc::new(alloc, AtomicU64::new(0))?)
}

// How many moments a worker of the client is told until it ends by itself.
fn count_moments<R: Threads + Wait + Copy + Send + 'static, L: CoreLock + Send + Sync + 'static>(
    rt: R,
    client: Client<L>,
) -> Result<u64, Refusal>
where
    L::Processor: Send + Sync + 'static,
    L::Callbacks: Send + Sync + 'static,
    L::Transport: Send + Sync + 'static,
{
    let ended = unset_word(client.core().allocator())?;
    let clock = CountedTicks {
        told: 0,
        ended: ended.clone()?,
    };
    let worker = Worker::start(rt, client, clock)?;
    let told = wait_for(&ended).saturating_sub(1);
    worker.stop(&rt);
    Ok(told)
}

// The same of a client that is held, and then of it once it is dropped.
fn count_twice<R: Threads + Wait + Copy + Send + 'static, L: CoreLock + Send + Sync + 'static>(
    rt: R,
    client: Client<L>,
) -> Result<(u64, u64), Refusal>
where
    L::Processor: Send + Sync + 'static,
    L::Callbacks: Send + Sync + 'static,
    L::Transport: Send + Sync + 'static,
{
    let held = count_moments(rt, client.clone()?)?;
    client.drop_client()?;
    let gone = count_moments(rt, client)?;
    Ok((held, gone))
}

#[test]
fn a_worker_ends_at_the_first_tick_of_a_client_that_is_gone(rt: HostRuntime) -> Result<(), Fail> {
    let client = add_client(rt, rt.alloc(), &new_sink(rt.alloc())?)?;
    assert_eq!(rt; count_twice(rt, client)?, (3, 1));
    Ok(())
}

/// Tells one moment, five seconds after the client came, once it may; then that it ended.
#[derive(Drop)]
struct HeldTick {
    is_told: bool,
    may_tell: Arc<AtomicU64>,
    ended: Arc<AtomicU64>,
}

impl TickClock for HeldTick {
    fn next(&mut self) -> Option<u64> {
        if self.is_told {
            self.ended.store(1, Ordering::SeqCst);
            return None;
        }
        self.is_told = true;
        wait_for(&self.may_tell);
        Some(at(6))
    }
}

// How many envelopes are sent of a log that waits before a worker starts: while its first tick is held, in which time a
// call is answered, and by the end of that tick.
fn hold_tick<R: Threads + Wait + Copy + Send + 'static, L: CoreLock + Send + Sync + 'static>(
    rt: R,
    client: &Client<L>,
    sink: &Collector,
) -> Result<[usize; 2], Refusal>
where
    L::Processor: Send + Sync + 'static,
    L::Callbacks: Send + Sync + 'static,
    L::Transport: Send + Sync + 'static,
{
    let alloc = client.core().allocator();
    let hub = add_hub(client)?;
    hub.capture_log(Log::new(alloc, LogLevel::Info, "it waits", at(1))?)?;
    let (may_tell, ended) = (unset_word(alloc)?, unset_word(alloc)?);
    let clock = HeldTick {
        is_told: false,
        may_tell: may_tell.clone()?,
        ended: ended.clone()?,
    };
    let worker = Worker::start(rt, client.clone()?, clock)?;
    hub.is_active()?;
    let before = sink.take(alloc).len();
    may_tell.store(1, Ordering::SeqCst);
    wait_for(&ended);
    let after = sink.take(alloc).len();
    worker.stop(&rt);
    Ok([before, after])
}

#[test]
fn a_worker_ticks_beside_the_calls_of_others(rt: HostRuntime) -> Result<(), Fail> {
    let sink = new_sink(rt.alloc())?;
    let client = add_client(rt, rt.alloc(), &sink)?;
    let sent = hold_tick(rt, &client, &sink)?;
    assert_eq!(rt; sent, [0, 1]);
    Ok(())
}
