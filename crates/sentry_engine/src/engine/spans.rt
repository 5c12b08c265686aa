//! The calls on transactions and spans.
ghost use Rattle.std.specs.Prelude.{◌≡◌};
ghost use Rattle.sentry_calls.specs.SpanCalls.{span_step, needs};
ghost use Rattle.sentry_spans.specs.Discards as discards;
ghost use Rattle.sentry_span_edits.specs.Reads as reads;
ghost use Rattle.sentry_span_edits.specs.Setters as setters;
ghost use Rattle.sentry_spans.specs.Ends as ends;
ghost use Rattle.sentry_spans.specs.Spans as spans;
ghost use Rattle.sentry_state.specs.Outcomes.{Does, DoesWith, DoesWithoutMemory};
ghost use Rattle.sentry_state.specs.Worlds.{World, Stands, span_table};

use crate::engine::{Engine, Out};
use sentry_base::protocol::{
    Fresh, HubKey, Refusal, Request, SpanId, SpanKey, SpanStatus, TraceContext, TransactionKey,
    TransactionOrSpanKey,
};
use sentry_calls::call::{SpanCall, SpanReply, apply_span_call};
use sentry_options::Callbacks;
use sentry_plain::{Value, ValueMap};
use sentry_span_edits::{reads, setters};
use sentry_span_table::SpanTable;
use sentry_spans::{discards, ends, finishes, starts};
use sentry_trace::headers::TraceHeadersIter;
use sentry_trace::performance::TransactionContext;

impl<P: Drop, C: Callbacks> Engine<P, C> {
    /// The transactions and spans that are held, for reading: what a scope fills in asks them what is active.
    pub fn spans(&self) -> &SpanTable
        ensures { (world : World P C) → Stands self.now world → result.now ≡ span_table world }
    {
        self.state.span_table()
    }

    /// Starts a transaction on a hub, under the client of its top layer. Without a client it is finished from the
    /// start. Its key is the reply.
    ///
    /// `Stale`: the hub isn't held. `Full`: the numbers are used up. `OutOfMemory`.
    pub fn start_transaction(
        &mut self,
        hub: HubKey,
        mut context: TransactionContext,
        fresh: Fresh,
    ) -> Result<Out<TransactionKey>, Refusal>
        ensures { Does self.old self.new result (spans.start_transaction C.meanings hub context fresh) }
    {
        starts::start_transaction(&mut self.state, hub, &mut context, fresh)
    }

    /// The same as `start_transaction`, with a start in nanoseconds since the epoch.
    pub fn start_transaction_with_timestamp(
        &mut self,
        hub: HubKey,
        mut context: TransactionContext,
        start: u64,
        fresh: Fresh,
    ) -> Result<Out<TransactionKey>, Refusal>
        ensures { Does self.old self.new result
            (spans.start_transaction_with_timestamp C.meanings hub context start fresh) }
    {
        starts::start_transaction_with_timestamp(&mut self.state, hub, &mut context, start, fresh)
    }

    /// Starts a child of a transaction or of a span. An empty description is none. Its key is the reply.
    ///
    /// `Stale`: the transaction or the span isn't held. `Full`: the numbers are used up. `OutOfMemory`.
    pub fn start_child(
        &mut self,
        parent: TransactionOrSpanKey,
        op: &str,
        description: &str,
        fresh: Fresh,
    ) -> Result<Out<SpanKey>, Refusal>
        ensures { Does self.old self.new result (spans.start_child parent op.now description.now fresh) }
    {
        starts::start_child(&mut self.state, parent, op, description, fresh)
    }

    /// The same as `start_child`, with an id and a start in nanoseconds since the epoch.
    pub fn start_child_with_details(
        &mut self,
        parent: TransactionOrSpanKey,
        op: &str,
        description: &str,
        id: SpanId,
        start: u64,
    ) -> Result<Out<SpanKey>, Refusal>
        ensures { Does self.old self.new result
            (spans.start_child_with_details parent op.now description.now id start) }
    {
        starts::start_child_with_details(&mut self.state, parent, op, description, id, start)
    }

    /// Makes a context that goes on from a transaction or a span, or one that starts a trace where none is named.
    ///
    /// `Stale`: the transaction or the span isn't held. `OutOfMemory`.
    pub fn continue_from_span(
        &self,
        name: &str,
        op: &str,
        span: Option<TransactionOrSpanKey>,
        fresh: Fresh,
    ) -> Result<Out<TransactionContext>, Refusal>
        ensures { Does self.now self.now result (spans.continue_from_span name.now op.now span fresh) }
    {
        starts::continue_from_span(&self.state, name, op, span, fresh)
    }

    /// Sets data of a span, or of a transaction while it is unfinished.
    ///
    /// `Stale`: it isn't held. `OutOfMemory`.
    pub fn set_data(
        &mut self,
        span: TransactionOrSpanKey,
        key: &str,
        value: Value,
    ) -> Result<Out<()>, Refusal>
        ensures { Does self.old self.new result (setters.set_data span key.now value) }
    {
        setters::set_data(&mut self.state, span, key, value)
    }

    /// Sets a tag of a span, or of a transaction while it is unfinished.
    ///
    /// `Stale`: it isn't held. `OutOfMemory`.
    pub fn set_tag(
        &mut self,
        span: TransactionOrSpanKey,
        key: &str,
        value: &str,
    ) -> Result<Out<()>, Refusal>
        ensures { Does self.old self.new result (setters.set_tag span key.now value.now) }
    {
        setters::set_tag(&mut self.state, span, key, value)
    }

    /// Sets extra data of a transaction, while it is unfinished.
    ///
    /// `Stale`: it isn't held. `OutOfMemory`.
    pub fn set_extra(
        &mut self,
        transaction: TransactionKey,
        key: &str,
        value: Value,
    ) -> Result<Out<()>, Refusal>
        ensures { Does self.old self.new result (setters.set_extra transaction key.now value) }
    {
        setters::set_extra(&mut self.state, transaction, key, value)
    }

    /// Sets the status of a transaction or a span, also of one that is finished.
    ///
    /// `Stale`: it isn't held. `OutOfMemory`.
    pub fn set_status(
        &mut self,
        span: TransactionOrSpanKey,
        status: SpanStatus,
    ) -> Result<Out<()>, Refusal>
        ensures { Does self.old self.new result (setters.set_status span status) }
    {
        setters::set_status(&mut self.state, span, status)
    }

    /// Sets the operation of a transaction or a span, also of one that is finished.
    ///
    /// `Stale`: it isn't held. `OutOfMemory`.
    pub fn set_op(&mut self, span: TransactionOrSpanKey, op: &str) -> Result<Out<()>, Refusal>
        ensures { Does self.old self.new result (setters.set_op span op.now) }
    {
        setters::set_op(&mut self.state, span, op)
    }

    /// Sets the name of a transaction while it is unfinished, or the description of a span, which may be empty.
    ///
    /// `Stale`: it isn't held. `OutOfMemory`.
    pub fn set_name(&mut self, span: TransactionOrSpanKey, name: &str) -> Result<Out<()>, Refusal>
        ensures { Does self.old self.new result (setters.set_name span name.now) }
    {
        setters::set_name(&mut self.state, span, name)
    }

    /// Sets the request of a transaction while it is unfinished, or the data that a span has of a request: a body that is
    /// JSON of whole numbers of 64 bits becomes a value, and any other body a text.
    ///
    /// `Stale`: it isn't held. `OutOfMemory`.
    pub fn set_request(
        &mut self,
        span: TransactionOrSpanKey,
        request: Request,
    ) -> Result<Out<()>, Refusal>
        ensures { Does self.old self.new result (setters.set_request span request) }
    {
        setters::set_request(&mut self.state, span, request)
    }

    /// Sets what created a transaction, also of one that is finished.
    ///
    /// `Stale`: it isn't held. `OutOfMemory`.
    pub fn set_origin(
        &mut self,
        transaction: TransactionKey,
        origin: &str,
    ) -> Result<Out<()>, Refusal>
        ensures { Does self.old self.new result (setters.set_origin transaction origin.now) }
    {
        setters::set_origin(&mut self.state, transaction, origin)
    }

    /// The status of a transaction or a span, if it has one. It takes no memory.
    ///
    /// `Stale`: it isn't held.
    pub fn get_status(&self, span: TransactionOrSpanKey) -> Result<Out<Option<SpanStatus>>, Refusal>
        ensures { DoesWithoutMemory self.now self.now result (reads.get_status span) }
    {
        reads::get_status(&self.state, span)
    }

    /// The place of a transaction in its trace, with its operation, status, origin and data. That of a span is its
    /// transaction's.
    ///
    /// `Stale`: it isn't held. `OutOfMemory`.
    pub fn get_trace_context(
        &self,
        span: TransactionOrSpanKey,
    ) -> Result<Out<TraceContext>, Refusal>
        ensures { Does self.now self.now result (reads.get_trace_context span) }
    {
        reads::get_trace_context(&self.state, span)
    }

    /// The id of a span. It takes no memory.
    ///
    /// `Stale`: it isn't held.
    pub fn get_span_id(&self, span: SpanKey) -> Result<Out<SpanId>, Refusal>
        ensures { DoesWithoutMemory self.now self.now result (reads.get_span_id span) }
    {
        reads::get_span_id(&self.state, span)
    }

    /// A copy of the data of a transaction or a span. A transaction has none once it is finished.
    ///
    /// `Stale`: it isn't held. `OutOfMemory`.
    pub fn data(&self, span: TransactionOrSpanKey) -> Result<Out<ValueMap>, Refusal>
        ensures { Does self.now self.now result (reads.read_data span) }
    {
        reads::data(&self.state, span)
    }

    /// The headers that pass the trace on to the next service, from a transaction or a span.
    ///
    /// `Stale`: it isn't held. `OutOfMemory`.
    pub fn iter_headers(&self, span: TransactionOrSpanKey) -> Result<Out<TraceHeadersIter>, Refusal>
        ensures { Does self.now self.now result (reads.iter_headers span) }
    {
        reads::iter_headers(&self.state, span)
    }

    /// Whether a transaction or a span is sampled: tracing was enabled when the transaction started, and it was
    /// sampled. It takes no memory.
    ///
    /// `Stale`: it isn't held.
    pub fn is_sampled(&self, span: TransactionOrSpanKey) -> Result<Out<bool>, Refusal>
        ensures { DoesWithoutMemory self.now self.now result (reads.is_sampled span) }
    {
        reads::is_sampled(&self.state, span)
    }

    /// Finishes a transaction at a moment in nanoseconds since the epoch, under the top scope of a hub. One that was
    /// sampled is sent by its client, with the spans that it kept; one that was not is lost. A second finish does
    /// nothing.
    ///
    /// `Stale`: the transaction isn't held, or the hub isn't. `OutOfMemory`.
    pub fn finish_transaction(
        &mut self,
        transaction: TransactionKey,
        hub: HubKey,
        moment: u64,
    ) -> Result<Out<()>, Refusal>
        ensures { Does self.old self.new result (spans.finish_transaction transaction hub moment) }
    {
        finishes::finish_transaction(&mut self.state, transaction, hub, moment)
    }

    /// Finishes a span at a moment in nanoseconds since the epoch, for the first time. It comes to the spans of its
    /// transaction while that is unfinished, or is lost if the transaction keeps no more.
    ///
    /// `Stale`: the span isn't held. `OutOfMemory`.
    pub fn finish_span(&mut self, span: SpanKey, moment: u64) -> Result<Out<()>, Refusal>
        ensures { Does self.old self.new result (spans.finish_span span moment) }
    {
        finishes::finish_span(&mut self.state, span, moment)
    }

    /// Forgets a transaction or a span. It records no loss, and takes no memory.
    ///
    /// `Stale`: it isn't held. `StillNamed`: a layer of a hub names it, or a span that is held belongs to the
    /// transaction.
    pub fn discard(&mut self, span: TransactionOrSpanKey) -> Result<Out<()>, Refusal>
        ensures { DoesWithoutMemory self.old self.new result (discards.discard span) }
    {
        discards::discard(&mut self.state, span)
    }

    /// Finishes a transaction, as `finish_transaction` does, and then forgets it, as `discard` does. The reply is the answer
    /// of the discard: `StillNamed`, if a layer of a hub names the transaction, or a span of it is held. It is finished
    /// then, and stays.
    ///
    /// `Stale`: the transaction isn't held, or the hub isn't. `OutOfMemory`.
    pub fn end_transaction(
        &mut self,
        transaction: TransactionKey,
        hub: HubKey,
        moment: u64,
    ) -> Result<Out<Result<(), Refusal>>, Refusal>
        ensures { Does self.old self.new result (ends.end_transaction transaction hub moment) }
    {
        ends::end_transaction(&mut self.state, transaction, hub, moment)
    }

    /// Finishes a span, as `finish_span` does, and then forgets it, as `discard` does. The reply is the answer of the
    /// discard: `StillNamed`, if a layer of a hub names the span, which is finished then, and stays.
    ///
    /// `Stale`: the span isn't held. `OutOfMemory`.
    pub fn end_span(
        &mut self,
        span: SpanKey,
        moment: u64,
    ) -> Result<Out<Result<(), Refusal>>, Refusal>
        ensures { Does self.old self.new result (ends.end_span span moment) }
    {
        ends::end_span(&mut self.state, span, moment)
    }

    /// Makes one call on transactions and spans, by the method of its name.
    pub fn apply_span_call(&mut self, call: SpanCall) -> Result<Out<SpanReply>, Refusal>
        ensures { DoesWith (needs call) self.old self.new result (span_step C.meanings call) }
    {
        apply_span_call(&mut self.state, call)
    }
}
