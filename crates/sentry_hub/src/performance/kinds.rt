//! What transactions, spans, and what is either have of their own.
ghost use Rattle.std.specs.Prelude.{◌≡◌, ◌⊎◌, IfErr, IfOk, OnOk, false, replicate};
ghost use Rattle.sentry_lock.specs.Answers.{LockAnswers, LockAnswersWithoutMemory, LockDrainsAndAnswers, LockRefuses, LockRefusesWithoutMemory};
ghost use Rattle.sentry_span_edits.specs.Reads as reads;
ghost use Rattle.sentry_span_edits.specs.Setters as setters;
ghost use Rattle.sentry_spans.specs.Spans as spans;
ghost use Rattle.sentry_hub.specs.Handles.{Finishes, FinishesNot};

use crate::hub::Hub;
use crate::performance::{Span, Transaction, TransactionOrSpan};
use sentry_base::protocol::{Refusal, SpanId};
use sentry_batches::ToValue;
use sentry_lock::CoreLock;
use sentry_thread_hub::ThreadHub;

impl<L: CoreLock> Transaction<L> {
    /// Sets extra data, while it is unfinished. It replaces a value with the same key.
    ///
    /// `Stale`: it isn't held. `OutOfMemory`.
    pub fn set_extra<V: ToValue + Drop>(&self, key: &str, value: V) -> Result<(), Refusal>
        ensures done { IfOk result (λ reply. (self.now.1 ≡ false)
            ⊎ LockAnswers L.Processor L.Callbacks L.Transport reply (setters.set_extra self.now.0 key.now (V.value value))) }
        ensures refused { IfErr result (λ refusal. (refusal ≡ Refusal.OutOfMemory)
            ⊎ LockRefuses L.Processor L.Callbacks L.Transport refusal (setters.set_extra self.now.0 key.now (V.value value))) }
    {
        let Some(core) = self.core() else {
            return Ok(());
        };
        let value = value.to_value(core.allocator())?;
        core.set_extra(self.key(), key, value)
    }

    /// Sets what created it, also once it is finished.
    ///
    /// `Stale`: it isn't held. `OutOfMemory`.
    pub fn set_origin(&self, origin: &str) -> Result<(), Refusal>
        ensures done { IfOk result (λ reply. (self.now.1 ≡ false)
            ⊎ LockAnswers L.Processor L.Callbacks L.Transport reply (setters.set_origin self.now.0 origin.now)) }
        ensures refused { IfErr result (λ refusal. LockRefuses L.Processor L.Callbacks L.Transport
            refusal (setters.set_origin self.now.0 origin.now)) }
    {
        match self.core() {
            None => Ok(()),
            Some(core) => core.set_origin(self.key(), origin),
        }
    }

    /// The same as `finish`, at a moment in nanoseconds since the epoch.
    ///
    /// `Stale`: it isn't held, or the hub isn't. `OutOfMemory`.
    pub fn finish_with_timestamp<K, G>(
        &self,
        thread: &ThreadHub<Hub<L>, K, G>,
        moment: u64,
    ) -> Result<(), Refusal>
        ensures { OnOk result ((self.now.1 ≡ false)
            ⊎ LockDrainsAndAnswers L.Processor L.Callbacks L.Transport tt
            (spans.finish_transaction self.now.0 thread.now.current moment)) }
    {
        self.finish_on(thread.current.key(), moment)
    }
}

impl<L: CoreLock> Span<L> {
    /// The id of the span. It takes no memory.
    ///
    /// `Stale`: it isn't held.
    pub fn get_span_id(&self) -> Result<SpanId, Refusal>
        ensures done { IfOk result (λ reply. ((self.now.1 ≡ false) × (reply.0 ≡ replicate 8 0))
            ⊎ LockAnswersWithoutMemory L.Processor L.Callbacks L.Transport reply (reads.get_span_id self.now.0)) }
        ensures refused { IfErr result (λ refusal. LockRefusesWithoutMemory L.Processor L.Callbacks L.Transport
            refusal (reads.get_span_id self.now.0)) }
    {
        match self.core() {
            None => Ok(SpanId([0; 8])),
            Some(core) => core.get_span_id(self.key()),
        }
    }

    /// The same as `finish`, at a moment in nanoseconds since the epoch.
    ///
    /// `Stale`: it isn't held. `OutOfMemory`.
    pub fn finish_with_timestamp(&self, moment: u64) -> Result<(), Refusal>
        ensures done { IfOk result (λ reply. (self.now.1 ≡ false)
            ⊎ LockAnswers L.Processor L.Callbacks L.Transport reply (spans.finish_span self.now.0 moment)) }
        ensures refused { IfErr result (λ refusal. LockRefuses L.Processor L.Callbacks L.Transport
            refusal (spans.finish_span self.now.0 moment)) }
    {
        match self.core() {
            None => Ok(()),
            Some(core) => core.finish_span(self.key(), moment),
        }
    }
}

impl<L: CoreLock> TransactionOrSpan<L> {
    /// The same as `finish`, at a moment in nanoseconds since the epoch.
    ///
    /// `Stale`: it isn't held, or the thread's current hub isn't, which a span doesn't ask for. `OutOfMemory`.
    pub fn finish_with_timestamp<K, G>(
        &self,
        thread: &ThreadHub<Hub<L>, K, G>,
        moment: u64,
    ) -> Result<(), Refusal>
        ensures done { OnOk result ((self.now.1 ≡ false)
            ⊎ Finishes L.Processor L.Callbacks L.Transport thread.now.current moment self.now.0) }
        ensures refused { IfErr result (FinishesNot L.Processor L.Callbacks L.Transport thread.now.current moment self.now.0) }
    {
        self.finish_on(thread.current.key(), moment)
    }
}
