//! What is captured on a hub, and transactions that start on it.
ghost use Rattle.std.specs.Prelude.{◌≡◌, ◌⊎◌, IfErr, IfOk};
ghost use Rattle.sentry_calls.specs.Hubs as hubs;
ghost use Rattle.sentry_calls.specs.Telemetry as telemetry;
ghost use Rattle.sentry_events.specs.Captures as captures;
ghost use Rattle.sentry_spans.specs.Spans as spans;
ghost use Rattle.sentry_lock.specs.Answers.{LockAnswers, LockDrainsAndAnswers, LockRefuses};

use crate::hub::Hub;
use crate::performance::Transaction;
use sentry_base::protocol::{ErrorLink, Event, Fresh, Level, Log, Refusal, Uuid};
use sentry_batches::metrics::IntoProtocolMetric;
use sentry_lock::CoreLock;
use sentry_trace::performance::TransactionContext;

impl<L: CoreLock> Hub<L> {
    /// Captures an event under the top layer. Its id is the answer; the nil id if it was not sent.
    ///
    /// `Stale`: the hub isn't held. `OutOfMemory`.
    pub fn capture_event(&self, event: Event, fresh: Fresh) -> Result<Uuid, Refusal>
        ensures { IfOk result (λ reply. LockDrainsAndAnswers L.Processor L.Callbacks L.Transport
            reply (captures.capture_event L.Processor.gives L.Callbacks.meanings self.now event fresh)) }
    {
        self.lock().capture_event(event, fresh)
    }

    /// Captures a message under the top layer, as `capture_event` does.
    ///
    /// `Stale`: the hub isn't held. `OutOfMemory`.
    pub fn capture_message(
        &self,
        message: &str,
        level: Level,
        fresh: Fresh,
    ) -> Result<Uuid, Refusal>
        ensures { IfOk result (λ reply. LockDrainsAndAnswers L.Processor L.Callbacks L.Transport
            reply (hubs.capture_message L.Processor.gives L.Callbacks.meanings self.now message.now level fresh)) }
    {
        self.lock().capture_message(message, level, fresh)
    }

    /// Captures an error under the top layer, as `capture_event` does: the event that `event_from_error` makes of its
    /// links, which are given outermost first.
    ///
    /// `Stale`: the hub isn't held. `OutOfMemory`.
    pub fn capture_error(&self, links: &[ErrorLink], fresh: Fresh) -> Result<Uuid, Refusal>
        ensures { IfOk result (λ reply. LockDrainsAndAnswers L.Processor L.Callbacks L.Transport
            reply (hubs.capture_error L.Processor.gives L.Callbacks.meanings self.now links.now fresh)) }
    {
        self.lock().capture_error(links, fresh)
    }

    /// Captures a log under the top layer. It is sent with the batch that it waits in.
    ///
    /// `Stale`: the hub isn't held. `OutOfMemory`.
    pub fn capture_log(&self, log: Log) -> Result<(), Refusal>
        ensures { IfOk result (λ reply. LockDrainsAndAnswers L.Processor L.Callbacks L.Transport
            reply (telemetry.capture_log L.Callbacks.meanings self.now log)) }
    {
        self.lock().capture_log(log)
    }

    /// Captures a metric under the top layer. It is sent with the batch that it waits in. `now` is its moment in
    /// nanoseconds since the epoch.
    ///
    /// `Stale`: the hub isn't held. `OutOfMemory`.
    pub fn capture_metric<M: IntoProtocolMetric>(&self, metric: M, now: u64) -> Result<(), Refusal>
        ensures { IfOk result (λ reply. LockDrainsAndAnswers L.Processor L.Callbacks L.Transport
            reply (telemetry.capture_metric L.Callbacks.meanings self.now (M.draft_of metric) now)) }
    {
        let draft = metric.into_draft();
        self.lock().capture_metric(draft, now)
    }

    /// Starts a transaction under the client of the top layer. Without a client it is finished from the start. A program
    /// that forgets to discard it leaves it in the core for as long as that lasts, also once it is finished:
    /// `in_transaction` discards it.
    ///
    /// `Stale`: the hub isn't held. `Full`: the numbers are used up. `OutOfMemory`.
    pub fn start_transaction(
        &self,
        context: TransactionContext,
        fresh: Fresh,
    ) -> Result<Transaction<L>, Refusal>
        ensures done { IfOk result (λ transaction. LockAnswers L.Processor L.Callbacks L.Transport
            transaction.0 (spans.start_transaction L.Callbacks.meanings self.now context fresh)) }
        ensures refused { IfErr result (λ refusal. (refusal ≡ Refusal.OutOfMemory)
            ⊎ LockRefuses L.Processor L.Callbacks L.Transport
            refusal (spans.start_transaction L.Callbacks.meanings self.now context fresh)) }
    {
        let share = self.core.clone()?;
        match self.lock().start_transaction(context, fresh) {
            Ok(key) => Ok(Transaction::of_key(share, key)),
            Err(refusal) => Err(refusal),
        }
    }

    /// The same as `start_transaction`, with a start in nanoseconds since the epoch.
    ///
    /// `Stale`: the hub isn't held. `Full`: the numbers are used up. `OutOfMemory`.
    pub fn start_transaction_with_timestamp(
        &self,
        context: TransactionContext,
        start: u64,
        fresh: Fresh,
    ) -> Result<Transaction<L>, Refusal>
        ensures done { IfOk result (λ transaction. LockAnswers L.Processor L.Callbacks L.Transport
            transaction.0 (spans.start_transaction_with_timestamp L.Callbacks.meanings self.now context start fresh)) }
        ensures refused { IfErr result (λ refusal. (refusal ≡ Refusal.OutOfMemory)
            ⊎ LockRefuses L.Processor L.Callbacks L.Transport
            refusal (spans.start_transaction_with_timestamp L.Callbacks.meanings self.now context start fresh)) }
    {
        let share = self.core.clone()?;
        match self
            .lock()
            .start_transaction_with_timestamp(context, start, fresh)
        {
            Ok(key) => Ok(Transaction::of_key(share, key)),
            Err(refusal) => Err(refusal),
        }
    }
}
