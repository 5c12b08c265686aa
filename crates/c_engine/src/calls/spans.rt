//! The calls on transactions and spans.
ghost use Rattle.std.specs.Prelude.{◌≡◌, None, IfErr, OnOk, if◌then◌else◌};
ghost use Rattle.std.specs.Result.{is_err};
ghost use Rattle.c_base.specs.Faults.{refusal_of};
ghost use Rattle.sentry_spans.specs.Discards as discards;
ghost use Rattle.sentry_spans.specs.Ends as ends;
ghost use Rattle.sentry_spans.specs.Spans as call;
ghost use Rattle.sentry_trace.specs.Contexts.{new_context};
ghost use Rattle.c_engine.specs.Calls.{Calls, SomeCalls, anything};
ghost use Rattle.c_records.specs.Filters.{filter_meanings};
ghost use Rattle.c_engine.specs.Keys.{hub_key, span_key, transaction_key, either_key};
ghost use Rattle.c_engine.specs.Moments.{fresh_of};
ghost use Rattle.c_engine.specs.Rates.{with_rate};

use crate::moments::fresh_of;
use crate::outbox_engine::{OutboxEngine, either_key, hub_key, span_key, transaction_key};
use c_base::fault::CallFault;
use c_base::ids::FreshNumbers;
use c_base::numbers::text;
use c_records::filters::RATE;
use sentry_base::protocol::Fresh;
use sentry_options::decimals::parse_rate;
use sentry_plain::{Text, Value};
use sentry_trace::performance::TransactionContext;
use std::alloc::Global;

// The context of a transaction that continues the trace of two headers.
fn continued<'a>(
    alloc: Global,
    name: &[u8],
    op: &[u8],
    sentry_trace: &'a [u8],
    baggage: &'a [u8],
    fresh: &FreshNumbers,
) -> Result<TransactionContext, CallFault> {
    let Fresh {
        trace_id,
        span_id,
        ..
    } = fresh_of(fresh)?;
    let headers = [
        ("sentry-trace", text(sentry_trace)?),
        ("baggage", text(baggage)?),
    ];
    let (name, op) = (text(name)?, text(op)?);
    Ok(TransactionContext::continue_from_headers(alloc, name, op, headers, trace_id, span_id)?)
}

// Starts the context with a rate of its own. `InvalidRate`: the text writes none.
fn set_rate(alloc: Global, context: &mut TransactionContext, rate: &[u8]) -> Result<(), CallFault>
    ensures rate { OnOk result (context.new ≡ with_rate rate.now context.old) }
    ensures err { IfErr result (λ fault. refusal_of fault ≡ None) }
{
    let rate = text(rate)?;
    if parse_rate(rate).is_none() {
        return Err(CallFault::InvalidRate);
    }
    let value = Value::Text(Text::new(alloc, rate)?);
    context.custom_insert(alloc, Text::new(alloc, RATE)?, value)?;
    Ok(())
}

impl OutboxEngine {
    #[tactic(auto, using(crate::proofs::Calling::called, crate::proofs::Calling::refused, crate::proofs::Calling::unasked))]
    fn start_of(
        &mut self,
        hub: u64,
        context: TransactionContext,
        fresh: &FreshNumbers,
        transaction: &mut u64,
    ) -> Result<(), CallFault>
        ensures { Calls self.old self.new result (λ key. transaction.new ≡ key.number)
            (call.start_transaction filter_meanings (hub_key hub) context (fresh_of fresh.entry.now)) }
    {
        let fresh = fresh_of(fresh)?;
        self.outbox.make_room()?;
        let out = self.engine.start_transaction(hub_key(hub), context, fresh)?;
        self.outbox.keep(out.sent);
        *transaction = out.reply.number;
        Ok(())
    }

    /// Starts a transaction that continues the trace of the headers `sentry-trace` and `baggage`.
    #[tactic(auto, using(crate::proofs::Calling::some))]
    pub fn continue_transaction(
        &mut self,
        hub: u64,
        name: &[u8],
        op: &[u8],
        sentry_trace: &[u8],
        baggage: &[u8],
        fresh: &FreshNumbers,
        transaction: &mut u64,
    ) -> Result<(), CallFault>
        ensures { SomeCalls self.old self.new result (λ key. transaction.new ≡ key.number)
            (λ context. call.start_transaction filter_meanings (hub_key hub) context (fresh_of fresh.entry.now)) }
    {
        let context = continued(self.alloc, name, op, sentry_trace, baggage, fresh)?;
        self.start_of(hub, context, fresh, transaction)
    }

    // Starts a transaction at this rate.
    #[tactic(auto, using(crate::proofs::Calling::called, crate::proofs::Calling::refused, crate::proofs::Calling::unasked))]
    fn start_at(
        &mut self,
        hub: u64,
        mut context: TransactionContext,
        rate: &[u8],
        fresh: &FreshNumbers,
        transaction: &mut u64,
    ) -> Result<(), CallFault>
        ensures { Calls self.old self.new result (λ key. transaction.new ≡ key.number)
            (call.start_transaction filter_meanings (hub_key hub) (with_rate rate.now context)
            (fresh_of fresh.entry.now)) }
    {
        set_rate(self.alloc, &mut context, rate)?;
        self.start_of(hub, context, fresh, transaction)
    }

    /// The same, at this rate in place of the client's.
    #[tactic(auto, using(crate::proofs::Calling::some))]
    pub fn sample_transaction(
        &mut self,
        hub: u64,
        name: &[u8],
        op: &[u8],
        sentry_trace: &[u8],
        baggage: &[u8],
        rate: &[u8],
        fresh: &FreshNumbers,
        transaction: &mut u64,
    ) -> Result<(), CallFault>
        ensures { SomeCalls self.old self.new result (λ key. transaction.new ≡ key.number)
            (λ context. call.start_transaction filter_meanings (hub_key hub) (with_rate rate.now context)
            (fresh_of fresh.entry.now)) }
    {
        let context = continued(self.alloc, name, op, sentry_trace, baggage, fresh)?;
        self.start_at(hub, context, rate, fresh, transaction)
    }

    /// Starts a transaction of a new trace.
    #[tactic(auto, using(crate::proofs::Calling::called, crate::proofs::Calling::refused, crate::proofs::Calling::unasked))]
    pub fn start_transaction(
        &mut self,
        hub: u64,
        name: &[u8],
        op: &[u8],
        fresh: &FreshNumbers,
        transaction: &mut u64,
    ) -> Result<(), CallFault>
        ensures { Calls self.old self.new result (λ key. transaction.new ≡ key.number)
            (call.start_transaction filter_meanings (hub_key hub)
            (new_context name.now op.now (fresh_of fresh.entry.now).trace_id (fresh_of fresh.entry.now).span_id)
            (fresh_of fresh.entry.now)) }
    {
        let numbers = fresh_of(fresh)?;
        let context = TransactionContext::new(
            self.alloc,
            text(name)?,
            text(op)?,
            numbers.trace_id,
            numbers.span_id,
        )?;
        self.start_of(hub, context, fresh, transaction)
    }

    /// Starts a span under a transaction or a span.
    #[tactic(auto, using(crate::proofs::Calling::called, crate::proofs::Calling::refused, crate::proofs::Calling::unasked))]
    pub fn start_child(
        &mut self,
        is_span: bool,
        parent: u64,
        op: &[u8],
        description: &[u8],
        fresh: &FreshNumbers,
        span: &mut u64,
    ) -> Result<(), CallFault>
        ensures { Calls self.old self.new result (λ key. span.new ≡ key.number)
            (call.start_child (either_key is_span parent) op.now description.now (fresh_of fresh.entry.now)) }
    {
        let fresh = fresh_of(fresh)?;
        let parent = either_key(is_span, parent);
        let (op, description) = (text(op)?, text(description)?);
        self.outbox.make_room()?;
        let out = self.engine.start_child(parent, op, description, fresh)?;
        self.outbox.keep(out.sent);
        *span = out.reply.number;
        Ok(())
    }

    /// Finishes a span.
    #[tactic(auto, using(crate::proofs::Calling::called, crate::proofs::Calling::refused, crate::proofs::Calling::unasked))]
    pub fn finish_span(&mut self, span: u64, now: u64) -> Result<(), CallFault>
        ensures { Calls self.old self.new result anything (call.finish_span (span_key span) now) }
    {
        self.outbox.make_room()?;
        let out = self.engine.finish_span(span_key(span), now)?;
        self.outbox.keep(out.sent);
        Ok(())
    }

    /// Finishes a transaction under the top scope of a hub.
    #[tactic(auto, using(crate::proofs::Calling::called, crate::proofs::Calling::refused, crate::proofs::Calling::unasked))]
    pub fn finish_transaction(
        &mut self,
        transaction: u64,
        hub: u64,
        now: u64,
    ) -> Result<(), CallFault>
        ensures { Calls self.old self.new result anything
            (call.finish_transaction (transaction_key transaction) (hub_key hub) now) }
    {
        self.outbox.make_room()?;
        let out = self
            .engine
            .finish_transaction(transaction_key(transaction), hub_key(hub), now)?;
        self.outbox.keep(out.sent);
        Ok(())
    }

    /// Finishes a span and gives it back. Sets 0, or 1 where it is still held, since a scope has it.
    #[tactic(auto, using(crate::proofs::Calling::called, crate::proofs::Calling::refused, crate::proofs::Calling::unasked))]
    pub fn end_span(&mut self, span: u64, now: u64, held: &mut u32) -> Result<(), CallFault>
        ensures { Calls self.old self.new result (λ discarded. held.new ≡ (if is_err discarded then 1 else 0))
            (ends.end_span (span_key span) now) }
    {
        self.outbox.make_room()?;
        let ended = self.engine.end_span(span_key(span), now)?;
        self.outbox.keep(ended.sent);
        *held = u32::from(ended.reply.is_err());
        Ok(())
    }

    /// Finishes a transaction under the top scope of a hub, and gives it back. Sets 0, or 1 where it is still held, since
    /// a scope has it, or a span of it is held.
    #[tactic(auto, using(crate::proofs::Calling::called, crate::proofs::Calling::refused, crate::proofs::Calling::unasked))]
    pub fn end_transaction(
        &mut self,
        transaction: u64,
        hub: u64,
        now: u64,
        held: &mut u32,
    ) -> Result<(), CallFault>
        ensures { Calls self.old self.new result (λ discarded. held.new ≡ (if is_err discarded then 1 else 0))
            (ends.end_transaction (transaction_key transaction) (hub_key hub) now) }
    {
        self.outbox.make_room()?;
        let out = self
            .engine
            .end_transaction(transaction_key(transaction), hub_key(hub), now)?;
        self.outbox.keep(out.sent);
        *held = u32::from(out.reply.is_err());
        Ok(())
    }

    /// Gives a transaction or a span back.
    #[tactic(auto, using(crate::proofs::Calling::called, crate::proofs::Calling::refused, crate::proofs::Calling::unasked))]
    pub fn discard(&mut self, is_span: bool, number: u64) -> Result<(), CallFault>
        ensures { Calls self.old self.new result anything
            (discards.discard (either_key is_span number)) }
    {
        self.outbox.make_room()?;
        let out = self.engine.discard(either_key(is_span, number))?;
        self.outbox.keep(out.sent);
        Ok(())
    }
}
