//! How transactions and spans start.
ghost use Rattle.std.specs.Prelude.{◌≡◌, ◌<◌, ◌-◌, ◌^◌, IfOk};
ghost use Rattle.std.specs.Bool.{OnTrue};
ghost use Rattle.std.specs.Option.{option_and_then};
ghost use Rattle.sentry_base.specs.Spans.{new_transaction};
ghost use Rattle.sentry_span_table.specs.SpanLists.{stored_transaction};
ghost use Rattle.sentry_state.specs.Outcomes.{Does, stored_client_at};
ghost use Rattle.sentry_state.specs.Worlds.{World, Stands};
ghost use Rattle.sentry_spans.specs.Spans.{trace_context, clientless_transaction, client_transaction, started_transaction};
ghost use Rattle.sentry_spans.specs.Spans.{child_of, context_from, description_of, is_transaction_number_left, is_span_number_left};
ghost use Rattle.sentry_spans.specs.Spans as call;

use crate::sampling::{accept_context, tracing_of};
use sentry_base::protocol::{
    ClientKey, Fresh, HubKey, Refusal, Span, SpanId, SpanKey, TraceContext, Transaction,
    TransactionKey, TransactionOrSpanKey,
};
use sentry_options::{Callbacks, ClientOptions};
use sentry_plain::{Boxed, Items, Text, ValueMap};
use sentry_span_table::{SpanPlace, SpanRecord, TracingState, TransactionRecord, Unfinished};
use sentry_state::{Out, State};
use sentry_trace::performance::TransactionContext;
use std::alloc::{AllocError, Global};

// The place of a transaction in its trace.
fn trace_context(alloc: Global, context: &TransactionContext) -> Result<TraceContext, AllocError>
    ensures { IfOk result (λ made. made ≡ trace_context context.now) }
{
    let op = context.op.clone()?;
    Ok(TraceContext {
        trace_id: context.trace_id,
        span_id: context.span_id,
        parent_span_id: context.parent_span_id,
        op: Some(op),
        description: None,
        status: None,
        origin: None,
        data_: ValueMap::new(alloc),
    })
}

// A transaction without a client, which is finished from the start.
fn clientless_transaction(
    alloc: Global,
    context: &TransactionContext,
) -> Result<TransactionRecord, AllocError>
    ensures { IfOk result (λ made. made ≡ stored_transaction (clientless_transaction context.now)) }
{
    let place = trace_context(alloc, context)?;
    Ok(TransactionRecord {
        tracing: TracingState::Disabled(context.sampled),
        context: place,
        max_spans: 0,
        unfinished: None,
        spans: Items::new(alloc),
    })
}

// What an unfinished transaction of a client will send.
fn unfinished(
    alloc: Global,
    client: ClientKey,
    context: &TransactionContext,
    start: u64,
    fresh: Fresh,
) -> Result<Unfinished, AllocError>
    ensures { IfOk result (λ made. made ≡ record {
      client = client;
      transaction = new_transaction fresh.uuid context.now.name start;
    }) }
{
    let name = context.name.clone()?;
    let transaction = Transaction::new(alloc, fresh.uuid, name, start)?;
    let transaction = Boxed::new(alloc, transaction)?;
    Ok(Unfinished {
        client,
        transaction,
    })
}

// A transaction of a client.
fn client_transaction<C: Callbacks>(
    alloc: Global,
    client: ClientKey,
    options: &ClientOptions<C>,
    context: &mut TransactionContext,
    start: u64,
    fresh: Fresh,
) -> Result<TransactionRecord, AllocError>
    ensures { IfOk result (λ made. made ≡ stored_transaction
        (client_transaction C.meanings client options.now context.old start fresh)) }
{
    accept_context(&options.plain, fresh.trace_id, context);
    let tracing = tracing_of(options, context, fresh.draw)?;
    let unfinished = unfinished(alloc, client, context, start, fresh)?;
    let place = trace_context(alloc, context)?;
    Ok(TransactionRecord {
        tracing,
        context: place,
        max_spans: options.plain.max_spans,
        unfinished: Some(unfinished),
        spans: Items::new(alloc),
    })
}

// The transaction that starts under the client that a layer names, if that is held.
fn started_transaction<P: Drop, C: Callbacks>(
    state: &State<P, C>,
    client: Option<ClientKey>,
    context: &mut TransactionContext,
    start: u64,
    fresh: Fresh,
) -> Result<TransactionRecord, AllocError>
    ensures { IfOk result (λ made. (world : World P C) → Stands state.now world → made ≡ stored_transaction
        (started_transaction C.meanings client (option_and_then (stored_client_at world) client)
        context.old start fresh)) }
{
    let Some(key) = client else {
        let made = clientless_transaction(state.alloc, context)?;
        return Ok(made);
    };
    let Some(held) = state.client_at(key) else {
        let made = clientless_transaction(state.alloc, context)?;
        return Ok(made);
    };
    let options = held.options.get();
    let made = client_transaction(state.alloc, key, options, context, start, fresh)?;
    Ok(made)
}

// Whether a number is left for a transaction.
fn has_transaction_number<P: Drop, C: Callbacks>(state: &State<P, C>) -> bool
    ensures in_world { (world : World P C) → Stands state.now world → result ≡ is_transaction_number_left world }
    ensures left { OnTrue result (state.now.next.transaction < 2 ^ 64 - 1) }
{
    state.next.transaction != u64::MAX
}

// Whether a number is left for a span.
fn has_span_number<P: Drop, C: Callbacks>(state: &State<P, C>) -> bool
    ensures in_world { (world : World P C) → Stands state.now world → result ≡ is_span_number_left world }
    ensures left { OnTrue result (state.now.next.span < 2 ^ 64 - 1) }
{
    state.next.span != u64::MAX
}

/// Starts a transaction on a hub at a moment, under the client of its top layer. Without a client it is finished from
/// the start. Its key is the reply.
///
/// `Stale`: the hub isn't held. `Full`: the numbers are used up. `OutOfMemory`.
#[tactic(auto, unfolding(crate::specs::Spans::start_transaction_with_timestamp))]
pub fn start_transaction_with_timestamp<P: Drop, C: Callbacks>(
    state: &mut State<P, C>,
    hub: HubKey,
    context: &mut TransactionContext,
    start: u64,
    fresh: Fresh,
) -> Result<Out<TransactionKey>, Refusal>
    ensures { Does state.old state.new result
        (call.start_transaction_with_timestamp C.meanings hub context.old start fresh) }
{
    let Some(held) = state.hub_at(hub) else {
        return Err(Refusal::Stale);
    };
    if !has_transaction_number(state) {
        return Err(Refusal::Full);
    }
    let made = started_transaction(state, held.stack.top.client, context, start, fresh)?;
    let made = Boxed::new(state.alloc, made)?;
    let key = state.hold_transaction(made)?;
    Ok(state.out(key))
}

/// Starts a transaction on a hub, under the client of its top layer. Without a client it is finished from the start.
/// Its key is the reply.
///
/// `Stale`: the hub isn't held. `Full`: the numbers are used up. `OutOfMemory`.
pub fn start_transaction<P: Drop, C: Callbacks>(
    state: &mut State<P, C>,
    hub: HubKey,
    context: &mut TransactionContext,
    fresh: Fresh,
) -> Result<Out<TransactionKey>, Refusal>
    ensures { Does state.old state.new result (call.start_transaction C.meanings hub context.old fresh) }
{
    let now = fresh.now;
    start_transaction_with_timestamp(state, hub, context, now, fresh)
}

// A description, or none if it is empty.
fn description_of(alloc: Global, description: &str) -> Result<Option<Text>, AllocError>
    ensures { IfOk result (λ made. made ≡ description_of description.now) }
{
    if description.is_empty() {
        return Ok(None);
    }
    let text = Text::new(alloc, description)?;
    Ok(Some(text))
}

// A span that starts at a place.
fn child_of(
    alloc: Global,
    place: SpanPlace,
    op: &str,
    description: &str,
    id: SpanId,
    start: u64,
) -> Result<SpanRecord, AllocError>
    ensures { IfOk result (λ made. made ≡ child_of place op.now description.now id start) }
{
    let op = Text::new(alloc, op)?;
    let description = description_of(alloc, description)?;
    let mut span = Span::new(alloc, place.trace_id, id, Some(place.span_id), start);
    span.op = Some(op);
    span.description = description;
    Ok(SpanRecord {
        transaction: place.transaction,
        tracing: place.tracing,
        span,
    })
}

/// Starts a child of a transaction or of a span, with this id and at this moment. An empty description is none. Its key
/// is the reply.
///
/// `Stale`: the transaction or the span isn't held. `Full`: the numbers are used up. `OutOfMemory`.
#[tactic(auto, unfolding(crate::specs::Spans::start_child_with_details), using(sentry_state::proofs::SpanKeeping::place_in_world))]
pub fn start_child_with_details<P: Drop, C: Callbacks>(
    state: &mut State<P, C>,
    parent: TransactionOrSpanKey,
    op: &str,
    description: &str,
    id: SpanId,
    start: u64,
) -> Result<Out<SpanKey>, Refusal>
    ensures { Does state.old state.new result
        (call.start_child_with_details parent op.now description.now id start) }
{
    let Some(place) = state.spans.place(parent) else {
        return Err(Refusal::Stale);
    };
    if !has_span_number(state) {
        return Err(Refusal::Full);
    }
    let child = child_of(state.alloc, place, op, description, id, start)?;
    let child = Boxed::new(state.alloc, child)?;
    let key = state.hold_span(child)?;
    Ok(state.out(key))
}

/// Starts a child of a transaction or of a span. An empty description is none. Its key is the reply.
///
/// `Stale`: the transaction or the span isn't held. `Full`: the numbers are used up. `OutOfMemory`.
pub fn start_child<P: Drop, C: Callbacks>(
    state: &mut State<P, C>,
    parent: TransactionOrSpanKey,
    op: &str,
    description: &str,
    fresh: Fresh,
) -> Result<Out<SpanKey>, Refusal>
    ensures { Does state.old state.new result (call.start_child parent op.now description.now fresh) }
{
    start_child_with_details(state, parent, op, description, fresh.span_id, fresh.now)
}

// A context that goes on from a place in a trace.
fn context_from(
    alloc: Global,
    name: &str,
    op: &str,
    span_id: SpanId,
    place: SpanPlace,
) -> Result<TransactionContext, AllocError>
    ensures { IfOk result (λ context. context ≡ context_from name.now op.now span_id place) }
{
    let mut context = TransactionContext::new(alloc, name, op, place.trace_id, span_id)?;
    context.parent_span_id = Some(place.span_id);
    context.sampled = place.tracing.trace_sampled();
    Ok(context)
}

/// Makes a context that goes on from a transaction or a span, or one that starts a trace where none is named.
///
/// `Stale`: the transaction or the span isn't held. `OutOfMemory`.
#[tactic(auto, unfolding(crate::specs::Spans::continue_from_span), using(sentry_state::proofs::SpanKeeping::place_in_world))]
pub fn continue_from_span<P: Drop, C: Callbacks>(
    state: &State<P, C>,
    name: &str,
    op: &str,
    span: Option<TransactionOrSpanKey>,
    fresh: Fresh,
) -> Result<Out<TransactionContext>, Refusal>
    ensures { Does state.now state.now result (call.continue_from_span name.now op.now span fresh) }
{
    let Some(key) = span else {
        let context = TransactionContext::new(
            state.alloc,
            name,
            op,
            fresh.trace_id,
            fresh.span_id,
        )?;
        return Ok(state.out(context));
    };
    let Some(place) = state.spans.place(key) else {
        return Err(Refusal::Stale);
    };
    let context = context_from(state.alloc, name, op, fresh.span_id, place)?;
    Ok(state.out(context))
}
