//! A transport that queues envelopes in front of another one.
ghost use Rattle.std.specs.Prelude.{◌≡◌, IfErr, option_map, unwrap_or};
ghost use Rattle.std.specs.Int.NonZero.{non_zero_usize_get};
ghost use Rattle.sentry_base.specs.declared.protocol.refusal.Refusal.TheVariants.{OutOfMemory};

use crate::send_queue::SendQueue;
use crate::timed_queue::TimedQueue;
use crate::transport::{Transport, TransportOptions};
use sentry_base::clock::Clock;
use sentry_base::protocol::{Category, Envelope, Refusal};
use std::alloc::Global;
use std::num::NonZeroUsize;
use std::sync::{Mutex, MutexGuard, Wait};

/// How many envelopes can wait, unless the options say so.
pub const DEFAULT_CAPACITY: usize = 30;

/// A transport that queues what it is handed, in a queue whose memory is all taken when it is made, until `pump` passes
/// it to an inner transport. Items of limited categories, and envelopes for which the queue has no room, are recorded as
/// lost, and make the next `flush` answer false. The queue has a lock of its own, which is never held while a call of the
/// inner transport runs. A `Pump` is a thread that pumps it.
#[derive(Drop)]
pub struct QueueTransport<R: Wait + Drop, T, K> {
    rt: R,
    queue: Mutex<SendQueue<K>>,
    inner: T,
}

impl<R: Wait + Drop, T: Transport + Drop, K: Clock + Drop> QueueTransport<R, T, K> {
    /// A transport with an empty queue, which has the capacity of the options, else `DEFAULT_CAPACITY`, and their
    /// recorder; without one, losses are not counted. The clock tells the moment at which an envelope is queued. `rt` is
    /// what the lock waits with. No later call takes memory, other than by the inner transport.
    ///
    /// `OutOfMemory`.
    pub fn new(
        rt: R,
        alloc: Global,
        options: TransportOptions,
        inner: T,
        clock: K,
    ) -> Result<QueueTransport<R, T, K>, Refusal>
        ensures { IfErr result (λ refusal. refusal ≡ OutOfMemory) }
    {
        let capacity = capacity_of(options.transport_channel_capacity);
        let queue = TimedQueue::new(alloc, capacity, options.client_report_recorder, clock)?;
        Ok(QueueTransport {
            rt,
            queue: Mutex::new(SendQueue::new(queue)),
            inner,
        })
    }

    // While the guard is held every other call on this queue waits. A `&` to what it guards shows no field.
    fn lock(&self) -> MutexGuard<'_, SendQueue<K>> {
        self.queue.lock(&self.rt)
    }

    /// The inner transport.
    pub fn inner(&self) -> &T {
        &self.inner
    }

    // The lock is free again when it returns, as when each of the next does.
    fn take(&self) -> Option<Envelope> {
        self.lock().queue.take()
    }

    /// Passes the first envelope that waits to the inner transport, and answers whether one waited. The lock is free
    /// while the inner transport sends.
    pub fn pump(&self) -> bool {
        match self.take() {
            None => false,
            Some(envelope) => {
                self.inner.send_envelope(envelope);
                true
            }
        }
    }

    // Passes on at most as many envelopes as wait when it begins.
    pub(crate) fn pump_waiting(&self) {
        for _ in 0..self.len() {
            if !self.pump() {
                return;
            }
        }
    }

    // Whether all that was handed over since the last such question was passed on.
    fn settle(&self) -> bool {
        self.lock().queue.settle()
    }

    /// Limits a category, or without one each category, until this moment (nanoseconds since the epoch), as a server
    /// asked. A category that is limited for longer stays so. Envelopes that wait already are not looked at.
    pub fn limit(&self, category: Option<Category>, until: u64) {
        self.lock().queue.limit(category, until);
    }

    /// How many envelopes wait.
    pub fn len(&self) -> usize {
        let mut guard = self.lock();
        let queue = &mut guard.queue;
        queue.len()
    }

    /// How many envelopes can wait.
    pub fn capacity(&self) -> usize {
        let mut guard = self.lock();
        let queue = &mut guard.queue;
        queue.capacity()
    }
}

// The capacity of the options, else the default one.
fn capacity_of(option: Option<NonZeroUsize>) -> usize
    ensures { result ≡ unwrap_or (option_map non_zero_usize_get option) DEFAULT_CAPACITY }
{
    match option {
        None => DEFAULT_CAPACITY,
        Some(capacity) => capacity.get(),
    }
}

/// Queues what it is handed.
impl<R: Wait + Drop, T: Transport + Drop, K: Clock + Drop> Transport for QueueTransport<R, T, K> {
    /// Offers the envelope to the queue, at the clock's moment.
    fn send_envelope(&self, envelope: Envelope) {
        self.lock().queue.offer(envelope);
    }

    /// Passes on at most as many envelopes as wait when it begins, and then calls the `flush` of the inner transport, with
    /// the timeout, in nanoseconds. Answers true if that did, no envelope or item was lost here since the last flush or
    /// shutdown, and nothing waits any more.
    fn flush(&self, timeout: u64) -> bool {
        self.pump_waiting();
        let is_flushed = self.inner.flush(timeout);
        self.settle() && is_flushed
    }

    /// The same with the `shutdown` of the inner transport. What is handed over later is queued as before: the next pump
    /// or flush passes it on, and what has no room is recorded as lost.
    fn shutdown(&self, timeout: u64) -> bool {
        self.pump_waiting();
        let is_shut = self.inner.shutdown(timeout);
        self.settle() && is_shut
    }
}
