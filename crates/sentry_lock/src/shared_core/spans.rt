//! Calls on transactions and spans, made by methods of their own: no value of a call or of a reply is made for them.
ghost use Rattle.std.specs.Prelude.{◌⊎◌, Err, IfErr, IfOk, Ok};
ghost use Rattle.sentry_spans.specs.Discards as discards;
ghost use Rattle.sentry_span_edits.specs.Reads as reads;
ghost use Rattle.sentry_span_edits.specs.Setters as setters;
ghost use Rattle.sentry_spans.specs.Ends as ends;
ghost use Rattle.sentry_spans.specs.Spans as spans;
ghost use Rattle.sentry_lock.specs.Answers.{LockAnswers, LockAnswersWithoutMemory, LockDrainsAndAnswers, LockRefuses, LockRefusesWithoutMemory};

use crate::core_lock::CoreLock;
use crate::handed::reply_of;
use crate::shared_core::SharedCore;
use sentry_base::protocol::{
    Fresh, HubKey, Refusal, Request, SpanId, SpanKey, SpanStatus, TraceContext, TransactionKey,
    TransactionOrSpanKey,
};
use sentry_plain::{Value, ValueMap};
use sentry_trace::headers::TraceHeadersIter;

impl<L: CoreLock> SharedCore<L> {
    /// Starts a child of a transaction or of a span, and answers its key. An empty description is none.
    ///
    /// `Stale`: the parent isn't held. `Full`: the numbers are used up. `OutOfMemory`.
    pub fn start_child(
        &self,
        parent: TransactionOrSpanKey,
        op: &str,
        description: &str,
        fresh: Fresh,
    ) -> Result<SpanKey, Refusal>
        ensures done { IfOk result (λ reply. LockAnswers L.Processor L.Callbacks L.Transport
            reply (spans.start_child parent op.now description.now fresh)) }
        ensures refused { IfErr result (λ refusal. LockRefuses L.Processor L.Callbacks L.Transport
            refusal (spans.start_child parent op.now description.now fresh)) }
    {
        self.lock()
            .under
            .core
            .start_child(parent, op, description, fresh)
    }

    /// The same, with an id and a start in nanoseconds since the epoch.
    ///
    /// `Stale`: the parent isn't held. `Full`: the numbers are used up. `OutOfMemory`.
    pub fn start_child_with_details(
        &self,
        parent: TransactionOrSpanKey,
        op: &str,
        description: &str,
        id: SpanId,
        start: u64,
    ) -> Result<SpanKey, Refusal>
        ensures done { IfOk result (λ reply. LockAnswers L.Processor L.Callbacks L.Transport
            reply (spans.start_child_with_details parent op.now description.now id start)) }
        ensures refused { IfErr result (λ refusal. LockRefuses L.Processor L.Callbacks L.Transport
            refusal (spans.start_child_with_details parent op.now description.now id start)) }
    {
        self.lock()
            .under
            .core
            .start_child_with_details(parent, op, description, id, start)
    }

    /// Finishes a span at a moment in nanoseconds since the epoch.
    ///
    /// `Stale`: it isn't held. `OutOfMemory`.
    pub fn finish_span(&self, span: SpanKey, moment: u64) -> Result<(), Refusal>
        ensures done { IfOk result (λ reply. LockAnswers L.Processor L.Callbacks L.Transport
            reply (spans.finish_span span moment)) }
        ensures refused { IfErr result (λ refusal. LockRefuses L.Processor L.Callbacks L.Transport
            refusal (spans.finish_span span moment)) }
    {
        self.lock().under.core.finish_span(span, moment)
    }

    /// Finishes a transaction at a moment in nanoseconds since the epoch, under the top scope of a hub.
    ///
    /// `Stale`: it isn't held, or the hub isn't. `OutOfMemory`.
    pub fn finish_transaction(
        &self,
        transaction: TransactionKey,
        hub: HubKey,
        moment: u64,
    ) -> Result<(), Refusal>
        ensures { IfOk result (λ reply. LockDrainsAndAnswers L.Processor L.Callbacks L.Transport
            reply (spans.finish_transaction transaction hub moment)) }
    {
        let mut guard = self.lock();
        let handed = guard
            .under
            .core
            .finish_transaction(transaction, hub, moment)?;
        drop(guard);
        Ok(handed.deliver())
    }

    /// Finishes a span at a moment in nanoseconds since the epoch, and forgets it.
    ///
    /// `Stale`: it isn't held. `OutOfMemory`. `StillNamed`: a layer of a hub names it, which is finished then, and stays.
    pub fn end_span(&self, span: SpanKey, moment: u64) -> Result<(), Refusal>
        ensures done { IfOk result (λ reply. LockAnswers L.Processor L.Callbacks L.Transport
            (Ok reply) (ends.end_span span moment)) }
        ensures refused { IfErr result (λ refusal. LockRefuses L.Processor L.Callbacks L.Transport
            refusal (ends.end_span span moment)
            ⊎ LockAnswers L.Processor L.Callbacks L.Transport (Err refusal) (ends.end_span span moment)) }
    {
        let mut guard = self.lock();
        let core = &mut guard.under.core;
        match core.end_span(span, moment) {
            Ok(discarded) => discarded,
            Err(refusal) => Err(refusal),
        }
    }

    /// Finishes a transaction at a moment in nanoseconds since the epoch, under the top scope of a hub, and forgets it.
    ///
    /// `Stale`: it isn't held, or the hub isn't. `OutOfMemory`. `StillNamed`: a layer of a hub names it, or a span of it is
    /// held; it is finished then, and stays.
    pub fn end_transaction(
        &self,
        transaction: TransactionKey,
        hub: HubKey,
        moment: u64,
    ) -> Result<(), Refusal>
        ensures { IfOk result (λ reply. LockDrainsAndAnswers L.Processor L.Callbacks L.Transport
            (Ok reply) (ends.end_transaction transaction hub moment)) }
    {
        let mut guard = self.lock();
        let core = &mut guard.under.core;
        let handed = core.end_transaction(transaction, hub, moment)?;
        drop(guard);
        handed.deliver()
    }

    /// Forgets a transaction or a span. It takes no memory.
    ///
    /// `Stale`: it isn't held. `StillNamed`: a layer of a hub names it, or a span of it is held.
    pub fn discard(&self, span: TransactionOrSpanKey) -> Result<(), Refusal>
        ensures done { IfOk result (λ reply. LockAnswersWithoutMemory L.Processor L.Callbacks L.Transport
            reply (discards.discard span)) }
        ensures refused { IfErr result (λ refusal. LockRefusesWithoutMemory L.Processor L.Callbacks L.Transport
            refusal (discards.discard span)) }
    {
        self.lock().under.core.discard(span)
    }

    /// Sets data of a span, or of a transaction while it is unfinished.
    ///
    /// `Stale`: it isn't held. `OutOfMemory`.
    pub fn set_data(
        &self,
        span: TransactionOrSpanKey,
        key: &str,
        value: Value,
    ) -> Result<(), Refusal>
        ensures done { IfOk result (λ reply. LockAnswers L.Processor L.Callbacks L.Transport
            reply (setters.set_data span key.now value)) }
        ensures refused { IfErr result (λ refusal. LockRefuses L.Processor L.Callbacks L.Transport
            refusal (setters.set_data span key.now value)) }
    {
        self.lock().under.core.set_data(span, key, value)
    }

    /// Sets a tag of a span, or of a transaction while it is unfinished.
    ///
    /// `Stale`: it isn't held. `OutOfMemory`.
    pub fn set_tag(&self, span: TransactionOrSpanKey, key: &str, value: &str) -> Result<(), Refusal>
        ensures done { IfOk result (λ reply. LockAnswers L.Processor L.Callbacks L.Transport
            reply (setters.set_tag span key.now value.now)) }
        ensures refused { IfErr result (λ refusal. LockRefuses L.Processor L.Callbacks L.Transport
            refusal (setters.set_tag span key.now value.now)) }
    {
        self.lock().under.core.set_tag(span, key, value)
    }

    /// Sets extra data of a transaction, while it is unfinished.
    ///
    /// `Stale`: it isn't held. `OutOfMemory`.
    pub fn set_extra(
        &self,
        transaction: TransactionKey,
        key: &str,
        value: Value,
    ) -> Result<(), Refusal>
        ensures done { IfOk result (λ reply. LockAnswers L.Processor L.Callbacks L.Transport
            reply (setters.set_extra transaction key.now value)) }
        ensures refused { IfErr result (λ refusal. LockRefuses L.Processor L.Callbacks L.Transport
            refusal (setters.set_extra transaction key.now value)) }
    {
        self.lock().under.core.set_extra(transaction, key, value)
    }

    /// Sets the status of a transaction or a span.
    ///
    /// `Stale`: it isn't held. `OutOfMemory`.
    pub fn set_status(&self, span: TransactionOrSpanKey, status: SpanStatus) -> Result<(), Refusal>
        ensures done { IfOk result (λ reply. LockAnswers L.Processor L.Callbacks L.Transport
            reply (setters.set_status span status)) }
        ensures refused { IfErr result (λ refusal. LockRefuses L.Processor L.Callbacks L.Transport
            refusal (setters.set_status span status)) }
    {
        self.lock().under.core.set_status(span, status)
    }

    /// Sets the operation of a transaction or a span.
    ///
    /// `Stale`: it isn't held. `OutOfMemory`.
    pub fn set_op(&self, span: TransactionOrSpanKey, op: &str) -> Result<(), Refusal>
        ensures done { IfOk result (λ reply. LockAnswers L.Processor L.Callbacks L.Transport
            reply (setters.set_op span op.now)) }
        ensures refused { IfErr result (λ refusal. LockRefuses L.Processor L.Callbacks L.Transport
            refusal (setters.set_op span op.now)) }
    {
        self.lock().under.core.set_op(span, op)
    }

    /// Sets the name of a transaction, while it is unfinished, or the description of a span.
    ///
    /// `Stale`: it isn't held. `OutOfMemory`.
    pub fn set_name(&self, span: TransactionOrSpanKey, name: &str) -> Result<(), Refusal>
        ensures done { IfOk result (λ reply. LockAnswers L.Processor L.Callbacks L.Transport
            reply (setters.set_name span name.now)) }
        ensures refused { IfErr result (λ refusal. LockRefuses L.Processor L.Callbacks L.Transport
            refusal (setters.set_name span name.now)) }
    {
        self.lock().under.core.set_name(span, name)
    }

    /// Sets the request of a transaction, while it is unfinished, or the data that a span has of one.
    ///
    /// `Stale`: it isn't held. `OutOfMemory`.
    pub fn set_request(&self, span: TransactionOrSpanKey, request: Request) -> Result<(), Refusal>
        ensures done { IfOk result (λ reply. LockAnswers L.Processor L.Callbacks L.Transport
            reply (setters.set_request span request)) }
        ensures refused { IfErr result (λ refusal. LockRefuses L.Processor L.Callbacks L.Transport
            refusal (setters.set_request span request)) }
    {
        self.lock().under.core.set_request(span, request)
    }

    /// Sets what created a transaction.
    ///
    /// `Stale`: it isn't held. `OutOfMemory`.
    pub fn set_origin(&self, transaction: TransactionKey, origin: &str) -> Result<(), Refusal>
        ensures done { IfOk result (λ reply. LockAnswers L.Processor L.Callbacks L.Transport
            reply (setters.set_origin transaction origin.now)) }
        ensures refused { IfErr result (λ refusal. LockRefuses L.Processor L.Callbacks L.Transport
            refusal (setters.set_origin transaction origin.now)) }
    {
        self.lock().under.core.set_origin(transaction, origin)
    }

    /// The status of a transaction or a span, if it has one. It takes no memory.
    ///
    /// `Stale`: it isn't held.
    pub fn get_status(&self, span: TransactionOrSpanKey) -> Result<Option<SpanStatus>, Refusal>
        ensures done { IfOk result (λ reply. LockAnswersWithoutMemory L.Processor L.Callbacks L.Transport
            reply (reads.get_status span)) }
        ensures refused { IfErr result (λ refusal. LockRefusesWithoutMemory L.Processor L.Callbacks L.Transport
            refusal (reads.get_status span)) }
    {
        let mut guard = self.lock();
        let core = &mut guard.under.core;
        reply_of(core.engine().get_status(span))
    }

    /// The place of a transaction in its trace; that of a span is its transaction's.
    ///
    /// `Stale`: it isn't held. `OutOfMemory`.
    pub fn get_trace_context(&self, span: TransactionOrSpanKey) -> Result<TraceContext, Refusal>
        ensures done { IfOk result (λ reply. LockAnswers L.Processor L.Callbacks L.Transport
            reply (reads.get_trace_context span)) }
        ensures refused { IfErr result (λ refusal. LockRefuses L.Processor L.Callbacks L.Transport
            refusal (reads.get_trace_context span)) }
    {
        let mut guard = self.lock();
        let core = &mut guard.under.core;
        reply_of(core.engine().get_trace_context(span))
    }

    /// The id of a span. It takes no memory.
    ///
    /// `Stale`: it isn't held.
    pub fn get_span_id(&self, span: SpanKey) -> Result<SpanId, Refusal>
        ensures done { IfOk result (λ reply. LockAnswersWithoutMemory L.Processor L.Callbacks L.Transport
            reply (reads.get_span_id span)) }
        ensures refused { IfErr result (λ refusal. LockRefusesWithoutMemory L.Processor L.Callbacks L.Transport
            refusal (reads.get_span_id span)) }
    {
        let mut guard = self.lock();
        let core = &mut guard.under.core;
        reply_of(core.engine().get_span_id(span))
    }

    /// A copy of the data of a transaction or a span.
    ///
    /// `Stale`: it isn't held. `OutOfMemory`.
    pub fn data(&self, span: TransactionOrSpanKey) -> Result<ValueMap, Refusal>
        ensures done { IfOk result (λ reply. LockAnswers L.Processor L.Callbacks L.Transport
            reply (reads.read_data span)) }
        ensures refused { IfErr result (λ refusal. LockRefuses L.Processor L.Callbacks L.Transport
            refusal (reads.read_data span)) }
    {
        let mut guard = self.lock();
        let core = &mut guard.under.core;
        reply_of(core.engine().data(span))
    }

    /// The headers that pass the trace on to the next service.
    ///
    /// `Stale`: it isn't held. `OutOfMemory`.
    pub fn iter_headers(&self, span: TransactionOrSpanKey) -> Result<TraceHeadersIter, Refusal>
        ensures done { IfOk result (λ reply. LockAnswers L.Processor L.Callbacks L.Transport
            reply (reads.iter_headers span)) }
        ensures refused { IfErr result (λ refusal. LockRefuses L.Processor L.Callbacks L.Transport
            refusal (reads.iter_headers span)) }
    {
        let mut guard = self.lock();
        let core = &mut guard.under.core;
        reply_of(core.engine().iter_headers(span))
    }

    /// Whether a transaction or a span is sampled. It takes no memory.
    ///
    /// `Stale`: it isn't held.
    pub fn is_sampled(&self, span: TransactionOrSpanKey) -> Result<bool, Refusal>
        ensures done { IfOk result (λ reply. LockAnswersWithoutMemory L.Processor L.Callbacks L.Transport
            reply (reads.is_sampled span)) }
        ensures refused { IfErr result (λ refusal. LockRefusesWithoutMemory L.Processor L.Callbacks L.Transport
            refusal (reads.is_sampled span)) }
    {
        let mut guard = self.lock();
        let core = &mut guard.under.core;
        reply_of(core.engine().is_sampled(span))
    }
}
