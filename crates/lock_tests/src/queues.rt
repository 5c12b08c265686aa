//! A client over a queue that is pumped, limited and flushed while threads send: what came, what reports told and what was
//! still to be told is what was sent.
use crate::workshop::{
    Held, Lock, Notebook, add_report, capture_event, capture_log, options, what_came,
};
use sentry_base::clock::Clock;
use sentry_base::protocol::{Category, Losses, Reason, Refusal};
use sentry_lock::{Client, CoreLock, SharedCore, Waiting};
use sentry_transport::QueueTransport;
use std::alloc::{AllocError, Global};
use std::num::NonZeroUsize;
use std::sync::atomic::{AtomicBool, Ordering};
use std::sync::{Arc, Wait};
use std::test::Fail;
use std::thread::{Threads, join, yield_now};

/// How often a queue is pumped at most.
const PUMPS: u64 = 10_000_000;

/// Tells the moments from 0 to 9, again and again.
#[derive(Drop)]
struct Cycle(u64);

impl Clock for Cycle {
    fn now(&mut self) -> u64 {
        let now = self.0;
        self.0 = if now < 9 { now + 1 } else { 0 };
        now
    }
}

type Queue<R> = QueueTransport<R, Arc<Notebook<R>>, Cycle>;

fn shared<R: Wait + Drop>(alloc: Global, queue: Queue<R>) -> Result<Arc<Queue<R>>, AllocError> {
    Ok(Arc::new(alloc, queue)?)
}

/// A client on a new core, and its queue, which has room for two envelopes.
fn over_queue<R: Wait + Drop + Copy>(
    rt: R,
    alloc: Global,
) -> Result<(Held<Lock<Queue<R>, R>>, Arc<Queue<R>>), Refusal> {
    let core: SharedCore<Lock<Queue<R>, R>> = SharedCore::new(Waiting(rt), alloc, 1)?;
    let mut setup = core.client_setup(options(alloc, false)?.max_batch_items(3))?;
    let label = setup.label();
    let Some(mut made) = setup.transport_options()? else {
        return Err(Refusal::Stale);
    };
    made.transport_channel_capacity = NonZeroUsize::new(2);
    let notebook = Notebook::new(rt, alloc, true)?;
    let queue = shared(
        alloc,
        QueueTransport::new(rt, alloc, made, notebook, Cycle(0))?,
    )?;
    let client = Client::with_options(setup, Some(queue.clone()?), 0)?;
    let held = Held {
        client,
        label,
        recorder: None,
    };
    Ok((held, queue))
}

/// Captures an event and a log of each number from the first one to the end, and flushes now and then.
fn send<L: CoreLock>(client: &Client<L>, first: u64, end: u64) -> Result<(), Refusal> {
    for number in first..end {
        capture_event(client, number)?;
        capture_log(client)?;
        if number % 16 == 0 {
            client.flush(Some(1))?;
        }
    }
    Ok(())
}

/// Sends in two threads, and notes when both are done.
fn send_in_two_threads<R: Threads + Sync, L: CoreLock + Send + Sync + 'static>(
    rt: &R,
    client: &Client<L>,
    is_over: &AtomicBool,
) -> Result<(), Refusal>
where
    L::Processor: Send + Sync + 'static,
    L::Callbacks: Send + Sync + 'static,
    L::Transport: Send + Sync + 'static,
{
    let (first, second) = join(rt, || send(client, 11, 111), || send(client, 111, 211));
    is_over.store(true, Ordering::SeqCst);
    first?;
    second
}

/// Pumps until all is sent, and limits events meanwhile at ever more of the moments from 0 to 5.
fn pump_and_limit<R: Wait + Drop>(queue: &Queue<R>, is_over: &AtomicBool) {
    for turn in 0..PUMPS {
        if is_over.load(Ordering::SeqCst) {
            return;
        }
        queue.limit(Some(Category::Error), turn % 7);
        if !queue.pump() {
            yield_now();
        }
    }
}

/// What is still to be told after a flush.
fn flush_and_take<L: CoreLock>(held: &Held<L>) -> Result<Losses, Refusal> {
    held.client.flush(None)?;
    held.drain()?;
    let mut rest = Losses::none();
    if let Some(report) = held.take_report()? {
        add_report(&mut rest, &report);
    }
    Ok(rest)
}

/// How many events were limited, and for how many events and logs there was no room; none if anything else was lost.
fn lost(losses: &Losses) -> Option<(u64, u64, u64)> {
    let limited = losses.get(Category::Error, Reason::RatelimitBackoff);
    let turned_away = losses.get(Category::Error, Reason::QueueOverflow);
    let logs = losses.get(Category::LogItem, Reason::QueueOverflow);
    let mut all = Losses::of(Category::Error, Reason::RatelimitBackoff, limited);
    all.add(&Losses::of(Category::Error, Reason::QueueOverflow, turned_away));
    all.add(&Losses::of(Category::LogItem, Reason::QueueOverflow, logs));
    if all == *losses {
        Some((limited, turned_away, logs))
    } else {
        None
    }
}

#[test]
fn what_a_queue_loses_is_told(rt: HostRuntime) -> Result<(), Fail> {
    let alloc: Global = rt.alloc();
    let (held, queue) = over_queue(rt, alloc)?;
    queue.limit(Some(Category::Error), 1);
    // the first event is limited, and the queue is full after the third
    send(&held.client, 1, 11)?;
    let is_over = AtomicBool::new(false);
    let (sent, ()) = join(
        &rt,
        || send_in_two_threads(&rt, &held.client, &is_over),
        || pump_and_limit(&queue, &is_over),
    );
    sent?;
    let mut told = flush_and_take(&held)?;
    let notes = queue.inner().take(alloc);
    let reported = notes.told;
    told.add(&reported);
    let came = what_came(alloc, notes.asked.as_slice())?;
    let Some((limited, turned_away, logs)) = lost(&told) else {
        panic!(rt; "other losses")
    };
    assert!(rt; limited > 0 && turned_away > 0 && logs > 0);
    assert_eq!(rt; (came.events, queue.len()), (came.different, 0));
    let events = came.events.wrapping_add(limited).wrapping_add(turned_away);
    assert_eq!(rt; (events, came.logs.wrapping_add(logs)), (210, 210));
    Ok(())
}
