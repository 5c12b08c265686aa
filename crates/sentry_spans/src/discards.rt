//! The call by which a transaction or a span is forgotten.
ghost use Rattle.sentry_base.specs.declared.protocol.keys.TransactionOrSpanKey.TheVariants as key_of;
ghost use Rattle.sentry_spans.specs.Discards as call;
ghost use Rattle.sentry_state.specs.Outcomes.{DoesWithoutMemory};

use sentry_base::protocol::{Refusal, SpanKey, TransactionKey, TransactionOrSpanKey};
use sentry_options::Callbacks;
use sentry_state::{Out, State};

// Forgets a transaction.
#[tactic(auto, unfolding(crate::specs::Discards::discard), using(sentry_state::proofs::SpanKeeping::has_span_in_world))]
fn discard_transaction<P: Drop, C: Callbacks>(
    state: &mut State<P, C>,
    key: TransactionKey,
) -> Result<Out<()>, Refusal>
    ensures { DoesWithoutMemory state.old state.new result (call.discard (key_of.Transaction key)) }
{
    if state.transaction_at(key).is_none() {
        return Err(Refusal::Stale);
    }
    if state.hubs.is_transaction_named(key) {
        return Err(Refusal::StillNamed);
    }
    if state.spans.has_span_of(key) {
        return Err(Refusal::StillNamed);
    }
    state.remove_transaction(key.number);
    Ok(state.out(()))
}

// Forgets a span.
#[tactic(auto, unfolding(crate::specs::Discards::discard))]
fn discard_span<P: Drop, C: Callbacks>(
    state: &mut State<P, C>,
    key: SpanKey,
) -> Result<Out<()>, Refusal>
    ensures { DoesWithoutMemory state.old state.new result (call.discard (key_of.Span key)) }
{
    if state.span_at(key).is_none() {
        return Err(Refusal::Stale);
    }
    if state.hubs.is_span_named(key) {
        return Err(Refusal::StillNamed);
    }
    state.remove_span(key.number);
    Ok(state.out(()))
}

/// Forgets a transaction or a span. It records no loss, and takes no memory.
///
/// `Stale`: it isn't held. `StillNamed`: a layer of a hub names it, or a span that is held belongs to the transaction.
pub fn discard<P: Drop, C: Callbacks>(
    state: &mut State<P, C>,
    span: TransactionOrSpanKey,
) -> Result<Out<()>, Refusal>
    ensures { DoesWithoutMemory state.old state.new result (call.discard span) }
{
    match span {
        TransactionOrSpanKey::Transaction(key) => discard_transaction(state, key),
        TransactionOrSpanKey::Span(key) => discard_span(state, key),
    }
}
