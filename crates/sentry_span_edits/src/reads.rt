//! The calls that read a transaction or a span.
ghost use Rattle.std.specs.Prelude.{◌≡◌, IfOk};
ghost use Rattle.sentry_scope.specs.Scopes.{propagation_from};
ghost use Rattle.sentry_span_edits.specs.Reads as call;
ghost use Rattle.sentry_span_edits.specs.Reads.{headers_at, open_data};
ghost use Rattle.sentry_state.specs.Outcomes.{Does, DoesWithoutMemory};

use sentry_base::protocol::{
    Refusal, SpanId, SpanKey, SpanStatus, TraceContext, TransactionOrSpanKey,
};
use sentry_options::Callbacks;
use sentry_plain::ValueMap;
use sentry_span_table::{SpanPlace, TransactionRecord};
use sentry_state::{Out, State};
use sentry_trace::headers::{TraceHeadersIter, TracePropagationContext};
use std::alloc::{AllocError, Global};

/// The status of a transaction or a span, if it has one. It takes no memory.
///
/// `Stale`: it isn't held.
#[tactic(auto, unfolding(crate::specs::Reads::get_status))]
pub fn get_status<P: Drop, C: Callbacks>(
    state: &State<P, C>,
    span: TransactionOrSpanKey,
) -> Result<Out<Option<SpanStatus>>, Refusal>
    ensures { DoesWithoutMemory state.now state.now result (call.get_status span) }
{
    match span {
        TransactionOrSpanKey::Transaction(key) => match state.transaction_at(key) {
            None => Err(Refusal::Stale),
            Some(held) => Ok(state.out(held.context.status)),
        },
        TransactionOrSpanKey::Span(key) => match state.span_at(key) {
            None => Err(Refusal::Stale),
            Some(held) => Ok(state.out(held.span.status)),
        },
    }
}

// A copy of the data of a transaction, which counts only while it is unfinished.
fn open_data(alloc: Global, held: &TransactionRecord) -> Result<ValueMap, AllocError>
    ensures { IfOk result (λ copy. copy ≡ open_data held.now) }
{
    if held.unfinished.is_none() {
        return Ok(ValueMap::new(alloc));
    }
    held.context.data_.clone()
}

/// A copy of the data of a transaction or a span. A transaction has none once it is finished.
///
/// `Stale`: it isn't held. `OutOfMemory`.
#[tactic(auto, unfolding(crate::specs::Reads::read_data))]
pub fn data<P: Drop, C: Callbacks>(
    state: &State<P, C>,
    span: TransactionOrSpanKey,
) -> Result<Out<ValueMap>, Refusal>
    ensures { Does state.now state.now result (call.read_data span) }
{
    match span {
        TransactionOrSpanKey::Transaction(key) => {
            let Some(held) = state.transaction_at(key) else {
                return Err(Refusal::Stale);
            };
            let copy = open_data(state.alloc, held)?;
            Ok(state.out(copy))
        }
        TransactionOrSpanKey::Span(key) => {
            let Some(held) = state.span_at(key) else {
                return Err(Refusal::Stale);
            };
            let copy = held.span.data_.clone()?;
            Ok(state.out(copy))
        }
    }
}

/// The place of a transaction in its trace, with its operation, status, origin and data. That of a span is its
/// transaction's.
///
/// `Stale`: it isn't held. `OutOfMemory`.
#[tactic(auto, unfolding(crate::specs::Reads::get_trace_context))]
pub fn get_trace_context<P: Drop, C: Callbacks>(
    state: &State<P, C>,
    span: TransactionOrSpanKey,
) -> Result<Out<TraceContext>, Refusal>
    ensures { Does state.now state.now result (call.get_trace_context span) }
{
    let key = match span {
        TransactionOrSpanKey::Transaction(key) => key,
        TransactionOrSpanKey::Span(key) => match state.span_at(key) {
            None => return Err(Refusal::Stale),
            Some(held) => held.transaction,
        },
    };
    let Some(held) = state.transaction_at(key) else {
        return Err(Refusal::Stale);
    };
    let context = held.context.clone()?;
    Ok(state.out(context))
}

/// The id of a span. It takes no memory.
///
/// `Stale`: it isn't held.
#[tactic(auto, unfolding(crate::specs::Reads::get_span_id))]
pub fn get_span_id<P: Drop, C: Callbacks>(
    state: &State<P, C>,
    key: SpanKey,
) -> Result<Out<SpanId>, Refusal>
    ensures { DoesWithoutMemory state.now state.now result (call.get_span_id key) }
{
    let Some(held) = state.span_at(key) else {
        return Err(Refusal::Stale);
    };
    Ok(state.out(held.span.span_id))
}

/// Whether a transaction or a span is sampled: tracing was enabled when the transaction started, and it was sampled.
/// It takes no memory.
///
/// `Stale`: it isn't held.
#[tactic(auto, unfolding(crate::specs::Reads::is_sampled))]
pub fn is_sampled<P: Drop, C: Callbacks>(
    state: &State<P, C>,
    span: TransactionOrSpanKey,
) -> Result<Out<bool>, Refusal>
    ensures { DoesWithoutMemory state.now state.now result (call.is_sampled span) }
{
    match span {
        TransactionOrSpanKey::Transaction(key) => match state.transaction_at(key) {
            None => Err(Refusal::Stale),
            Some(held) => Ok(state.out(held.tracing.is_sampled())),
        },
        TransactionOrSpanKey::Span(key) => match state.span_at(key) {
            None => Err(Refusal::Stale),
            Some(held) => Ok(state.out(held.tracing.is_sampled())),
        },
    }
}

// The headers that pass a trace on from a place in it.
fn headers_at(alloc: Global, place: SpanPlace) -> Result<TraceHeadersIter, AllocError>
    ensures { IfOk result (λ headers. headers ≡ headers_at place) }
{
    let context = TracePropagationContext {
        trace_id: place.trace_id,
        span_id: place.span_id,
        sampled: place.tracing.trace_sampled(),
        org_id: None,
    };
    let text = context.sentry_trace_header(alloc)?;
    Ok(TraceHeadersIter::new(text))
}

/// The headers that pass the trace on to the next service, from a transaction or a span.
///
/// `Stale`: it isn't held. `OutOfMemory`.
#[tactic(auto, unfolding(crate::specs::Reads::iter_headers), using(sentry_state::proofs::SpanKeeping::place_in_world))]
pub fn iter_headers<P: Drop, C: Callbacks>(
    state: &State<P, C>,
    span: TransactionOrSpanKey,
) -> Result<Out<TraceHeadersIter>, Refusal>
    ensures { Does state.now state.now result (call.iter_headers span) }
{
    let Some(place) = state.spans.place(span) else {
        return Err(Refusal::Stale);
    };
    let headers = headers_at(state.alloc, place)?;
    Ok(state.out(headers))
}
