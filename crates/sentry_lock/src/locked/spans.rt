//! Calls on transactions and spans that are made by methods of their own.

ghost use Rattle.std.specs.Prelude.{◌≡◌, Ok, Err, IfOk, IfErr};
ghost use Rattle.sentry_spans.specs.Discards as discards;
ghost use Rattle.sentry_span_edits.specs.Setters as setters;
ghost use Rattle.sentry_spans.specs.Ends as ends;
ghost use Rattle.sentry_spans.specs.Spans as spans;
ghost use Rattle.sentry_state.specs.Outcomes.{Does, DoesWithoutMemory};
ghost use Rattle.sentry_lock.specs.Locked.{DrainsAll, DrainsAndDoes, Replies, RepliesWithoutMemory};

use crate::handed::Handed;
use crate::locked::Core;
use sentry_base::callbacks::EventCallback;
use sentry_base::protocol::{
    Fresh, HubKey, Refusal, Request, SpanId, SpanKey, SpanStatus, TransactionKey,
    TransactionOrSpanKey,
};
use sentry_options::Callbacks;
use sentry_plain::Value;
use sentry_trace::performance::TransactionContext;

impl<P: EventCallback + Drop, C: Callbacks, T: Drop> Core<P, C, T> {
    /// Starts a transaction on a hub.
    pub(crate) fn start_transaction(
        &mut self,
        hub: HubKey,
        context: TransactionContext,
        fresh: Fresh,
    ) -> Result<TransactionKey, Refusal>
        ensures done { IfOk result (λ reply. Replies self.old.engine self.new.engine reply
            (spans.start_transaction C.meanings hub context fresh)) }
        ensures refused { IfErr result (λ refusal. Does self.old.engine self.new.engine
            (Err refusal) (spans.start_transaction C.meanings hub context fresh)) }
        ensures drainers { self.new.drainers ≡ self.old.drainers }
        ensures labels { self.new.next_label ≡ self.old.next_label }
    {
        let out = self.engine.start_transaction(hub, context, fresh)?;
        Ok(out.reply)
    }

    /// The same, with a start.
    pub(crate) fn start_transaction_with_timestamp(
        &mut self,
        hub: HubKey,
        context: TransactionContext,
        start: u64,
        fresh: Fresh,
    ) -> Result<TransactionKey, Refusal>
        ensures done { IfOk result (λ reply. Replies self.old.engine self.new.engine reply
            (spans.start_transaction_with_timestamp C.meanings hub context start fresh)) }
        ensures refused { IfErr result (λ refusal. Does self.old.engine self.new.engine
            (Err refusal) (spans.start_transaction_with_timestamp C.meanings hub context start fresh)) }
        ensures drainers { self.new.drainers ≡ self.old.drainers }
        ensures labels { self.new.next_label ≡ self.old.next_label }
    {
        let out = self
            .engine
            .start_transaction_with_timestamp(hub, context, start, fresh)?;
        Ok(out.reply)
    }

    /// Starts a child of a transaction or a span.
    pub(crate) fn start_child(
        &mut self,
        parent: TransactionOrSpanKey,
        op: &str,
        description: &str,
        fresh: Fresh,
    ) -> Result<SpanKey, Refusal>
        ensures done { IfOk result (λ reply. Replies self.old.engine self.new.engine reply
            (spans.start_child parent op.now description.now fresh)) }
        ensures refused { IfErr result (λ refusal. Does self.old.engine self.new.engine
            (Err refusal) (spans.start_child parent op.now description.now fresh)) }
        ensures drainers { self.new.drainers ≡ self.old.drainers }
        ensures labels { self.new.next_label ≡ self.old.next_label }
    {
        let out = self.engine.start_child(parent, op, description, fresh)?;
        Ok(out.reply)
    }

    /// The same, with an id and a start.
    pub(crate) fn start_child_with_details(
        &mut self,
        parent: TransactionOrSpanKey,
        op: &str,
        description: &str,
        id: SpanId,
        start: u64,
    ) -> Result<SpanKey, Refusal>
        ensures done { IfOk result (λ reply. Replies self.old.engine self.new.engine reply
            (spans.start_child_with_details parent op.now description.now id start)) }
        ensures refused { IfErr result (λ refusal. Does self.old.engine self.new.engine
            (Err refusal) (spans.start_child_with_details parent op.now description.now id start)) }
        ensures drainers { self.new.drainers ≡ self.old.drainers }
        ensures labels { self.new.next_label ≡ self.old.next_label }
    {
        let out = self
            .engine
            .start_child_with_details(parent, op, description, id, start)?;
        Ok(out.reply)
    }

    /// Finishes a span.
    pub(crate) fn finish_span(&mut self, span: SpanKey, moment: u64) -> Result<(), Refusal>
        ensures done { IfOk result (λ reply. Replies self.old.engine self.new.engine reply
            (spans.finish_span span moment)) }
        ensures refused { IfErr result (λ refusal. Does self.old.engine self.new.engine
            (Err refusal) (spans.finish_span span moment)) }
        ensures drainers { self.new.drainers ≡ self.old.drainers }
        ensures labels { self.new.next_label ≡ self.old.next_label }
    {
        let out = self.engine.finish_span(span, moment)?;
        Ok(out.reply)
    }

    /// Finishes a transaction under the top scope of a hub.
    pub(crate) fn finish_transaction(
        &mut self,
        transaction: TransactionKey,
        hub: HubKey,
        moment: u64,
    ) -> Result<Handed<(), T>, Refusal>
        ensures done { IfOk result (λ handed. DrainsAndDoes self.old.tag self.old.engine self.new.engine
            self.old.drainers self.new.drainers (Ok handed.out) (spans.finish_transaction transaction hub moment)) }
        ensures refused { IfErr result (λ _.
            DrainsAll self.old.tag self.old.engine self.new.engine self.old.drainers self.new.drainers) }
        ensures labels { self.new.next_label ≡ self.old.next_label }
    {
        let transports = self.drained()?;
        let out = self.engine.finish_transaction(transaction, hub, moment)?;
        Ok(Handed {
            out,
            transports: Some(transports),
        })
    }

    /// Forgets a transaction or a span.
    pub(crate) fn discard(&mut self, span: TransactionOrSpanKey) -> Result<(), Refusal>
        ensures done { IfOk result (λ reply. RepliesWithoutMemory self.old.engine self.new.engine reply
            (discards.discard span)) }
        ensures refused { IfErr result (λ refusal. DoesWithoutMemory self.old.engine self.new.engine
            (Err refusal) (discards.discard span)) }
        ensures drainers { self.new.drainers ≡ self.old.drainers }
        ensures labels { self.new.next_label ≡ self.old.next_label }
    {
        let out = self.engine.discard(span)?;
        Ok(out.reply)
    }

    /// Finishes a span, and then forgets it.
    pub(crate) fn end_span(
        &mut self,
        span: SpanKey,
        moment: u64,
    ) -> Result<Result<(), Refusal>, Refusal>
        ensures done { IfOk result (λ reply. Replies self.old.engine self.new.engine reply
            (ends.end_span span moment)) }
        ensures refused { IfErr result (λ refusal. Does self.old.engine self.new.engine
            (Err refusal) (ends.end_span span moment)) }
        ensures drainers { self.new.drainers ≡ self.old.drainers }
        ensures labels { self.new.next_label ≡ self.old.next_label }
    {
        let out = self.engine.end_span(span, moment)?;
        Ok(out.reply)
    }

    /// Finishes a transaction under the top scope of a hub, and then forgets it.
    pub(crate) fn end_transaction(
        &mut self,
        transaction: TransactionKey,
        hub: HubKey,
        moment: u64,
    ) -> Result<Handed<Result<(), Refusal>, T>, Refusal>
        ensures done { IfOk result (λ handed. DrainsAndDoes self.old.tag self.old.engine self.new.engine
            self.old.drainers self.new.drainers (Ok handed.out) (ends.end_transaction transaction hub moment)) }
        ensures refused { IfErr result (λ _.
            DrainsAll self.old.tag self.old.engine self.new.engine self.old.drainers self.new.drainers) }
        ensures labels { self.new.next_label ≡ self.old.next_label }
    {
        let transports = self.drained()?;
        let out = self.engine.end_transaction(transaction, hub, moment)?;
        Ok(Handed {
            out,
            transports: Some(transports),
        })
    }

    /// Sets data of a transaction or a span.
    pub(crate) fn set_data(
        &mut self,
        span: TransactionOrSpanKey,
        key: &str,
        value: Value,
    ) -> Result<(), Refusal>
        ensures done { IfOk result (λ reply. Replies self.old.engine self.new.engine reply
            (setters.set_data span key.now value)) }
        ensures refused { IfErr result (λ refusal. Does self.old.engine self.new.engine
            (Err refusal) (setters.set_data span key.now value)) }
        ensures drainers { self.new.drainers ≡ self.old.drainers }
        ensures labels { self.new.next_label ≡ self.old.next_label }
    {
        let out = self.engine.set_data(span, key, value)?;
        Ok(out.reply)
    }

    /// Sets a tag of a transaction or a span.
    pub(crate) fn set_tag(
        &mut self,
        span: TransactionOrSpanKey,
        key: &str,
        value: &str,
    ) -> Result<(), Refusal>
        ensures done { IfOk result (λ reply. Replies self.old.engine self.new.engine reply
            (setters.set_tag span key.now value.now)) }
        ensures refused { IfErr result (λ refusal. Does self.old.engine self.new.engine
            (Err refusal) (setters.set_tag span key.now value.now)) }
        ensures drainers { self.new.drainers ≡ self.old.drainers }
        ensures labels { self.new.next_label ≡ self.old.next_label }
    {
        let out = self.engine.set_tag(span, key, value)?;
        Ok(out.reply)
    }

    /// Sets extra data of a transaction.
    pub(crate) fn set_extra(
        &mut self,
        transaction: TransactionKey,
        key: &str,
        value: Value,
    ) -> Result<(), Refusal>
        ensures done { IfOk result (λ reply. Replies self.old.engine self.new.engine reply
            (setters.set_extra transaction key.now value)) }
        ensures refused { IfErr result (λ refusal. Does self.old.engine self.new.engine
            (Err refusal) (setters.set_extra transaction key.now value)) }
        ensures drainers { self.new.drainers ≡ self.old.drainers }
        ensures labels { self.new.next_label ≡ self.old.next_label }
    {
        let out = self.engine.set_extra(transaction, key, value)?;
        Ok(out.reply)
    }

    /// Sets the status of a transaction or a span.
    pub(crate) fn set_status(
        &mut self,
        span: TransactionOrSpanKey,
        status: SpanStatus,
    ) -> Result<(), Refusal>
        ensures done { IfOk result (λ reply. Replies self.old.engine self.new.engine reply
            (setters.set_status span status)) }
        ensures refused { IfErr result (λ refusal. Does self.old.engine self.new.engine
            (Err refusal) (setters.set_status span status)) }
        ensures drainers { self.new.drainers ≡ self.old.drainers }
        ensures labels { self.new.next_label ≡ self.old.next_label }
    {
        let out = self.engine.set_status(span, status)?;
        Ok(out.reply)
    }

    /// Sets the operation of a transaction or a span.
    pub(crate) fn set_op(&mut self, span: TransactionOrSpanKey, op: &str) -> Result<(), Refusal>
        ensures done { IfOk result (λ reply. Replies self.old.engine self.new.engine reply
            (setters.set_op span op.now)) }
        ensures refused { IfErr result (λ refusal. Does self.old.engine self.new.engine
            (Err refusal) (setters.set_op span op.now)) }
        ensures drainers { self.new.drainers ≡ self.old.drainers }
        ensures labels { self.new.next_label ≡ self.old.next_label }
    {
        let out = self.engine.set_op(span, op)?;
        Ok(out.reply)
    }

    /// Sets the name of a transaction, or the description of a span.
    pub(crate) fn set_name(&mut self, span: TransactionOrSpanKey, name: &str) -> Result<(), Refusal>
        ensures done { IfOk result (λ reply. Replies self.old.engine self.new.engine reply
            (setters.set_name span name.now)) }
        ensures refused { IfErr result (λ refusal. Does self.old.engine self.new.engine
            (Err refusal) (setters.set_name span name.now)) }
        ensures drainers { self.new.drainers ≡ self.old.drainers }
        ensures labels { self.new.next_label ≡ self.old.next_label }
    {
        let out = self.engine.set_name(span, name)?;
        Ok(out.reply)
    }

    /// Sets the request of a transaction, or the data that a span has of one.
    pub(crate) fn set_request(
        &mut self,
        span: TransactionOrSpanKey,
        request: Request,
    ) -> Result<(), Refusal>
        ensures done { IfOk result (λ reply. Replies self.old.engine self.new.engine reply
            (setters.set_request span request)) }
        ensures refused { IfErr result (λ refusal. Does self.old.engine self.new.engine
            (Err refusal) (setters.set_request span request)) }
        ensures drainers { self.new.drainers ≡ self.old.drainers }
        ensures labels { self.new.next_label ≡ self.old.next_label }
    {
        let out = self.engine.set_request(span, request)?;
        Ok(out.reply)
    }

    /// Sets what created a transaction.
    pub(crate) fn set_origin(
        &mut self,
        transaction: TransactionKey,
        origin: &str,
    ) -> Result<(), Refusal>
        ensures done { IfOk result (λ reply. Replies self.old.engine self.new.engine reply
            (setters.set_origin transaction origin.now)) }
        ensures refused { IfErr result (λ refusal. Does self.old.engine self.new.engine
            (Err refusal) (setters.set_origin transaction origin.now)) }
        ensures drainers { self.new.drainers ≡ self.old.drainers }
        ensures labels { self.new.next_label ≡ self.old.next_label }
    {
        let out = self.engine.set_origin(transaction, origin)?;
        Ok(out.reply)
    }
}
