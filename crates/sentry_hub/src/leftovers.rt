//! Spans that work leaves of a transaction which ends after it.
use sentry_base::protocol::{
    Refusal, SpanId, SpanKey, TraceContext, TransactionKey, TransactionOrSpanKey,
};
use sentry_lock::{CoreLock, SharedCore};

// How many of the latest spans of a core are looked at.
const LATEST: u64 = 100_000;

// The key that the next span of the core has now.
fn next_key<L: CoreLock>(
    core: &SharedCore<L>,
    transaction: TransactionOrSpanKey,
) -> Result<SpanKey, Refusal> {
    let key = core.start_child_with_details(transaction, "", "", SpanId([0; 8]), 0)?;
    core.discard(TransactionOrSpanKey::Span(key))?;
    Ok(key)
}

// Whether a span is held, and belongs to the transaction of this place in a trace.
fn belongs<L: CoreLock>(core: &SharedCore<L>, span: SpanKey, place: &TraceContext) -> bool {
    match core.get_trace_context(TransactionOrSpanKey::Span(span)) {
        Ok(found) => found.span_id == place.span_id && found.trace_id == place.trace_id,
        Err(_) => false,
    }
}

// Forgets a transaction that is finished, with the spans of it that are held: the latest first, until it can be forgotten.
// The core has no list of them.
pub(crate) fn forget_with_spans<L: CoreLock>(
    core: &SharedCore<L>,
    key: TransactionKey,
) -> Result<(), Refusal> {
    let transaction = TransactionOrSpanKey::Transaction(key);
    if core.held().spans == 0 {
        return core.discard(transaction);
    }
    let place = core.get_trace_context(transaction)?;
    let next = next_key(core, transaction)?;
    for number in (next.number.saturating_sub(LATEST)..next.number).rev() {
        let span = SpanKey {
            tag: next.tag,
            number,
        };
        if !belongs(core, span, &place) {
            continue;
        }
        drop(core.discard(TransactionOrSpanKey::Span(span)));
        if core.discard(transaction).is_ok() {
            return Ok(());
        }
    }
    core.discard(transaction)
}
