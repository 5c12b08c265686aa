//! How transactions and spans finish and are then forgotten, in one call.
ghost use Rattle.std.specs.Prelude.{◌≡◌, Some, None, true, false, is_some};
ghost use Rattle.std.specs.Bool.{OnTrue};
ghost use Rattle.sentry_base.specs.declared.protocol.keys.TransactionOrSpanKey.TheVariants as key_of;
ghost use Rattle.sentry_hub_table.specs.Hubs.{is_span_named};
ghost use Rattle.sentry_spans.specs.Discards.{discard};
ghost use Rattle.sentry_span_table.specs.SpanLists.{TransactionHistory, fate_of};
ghost use Rattle.sentry_span_table.specs.SpanTables.{transaction_in};
ghost use Rattle.sentry_span_table.specs.declared.table.records.SpanFate.TheVariants.{Kept};
ghost use Rattle.sentry_spans.specs.Ends.{discard_answer};
ghost use Rattle.sentry_spans.specs.Ends as call;
ghost use Rattle.sentry_state.specs.Outcomes.{Does, transaction_at};
ghost use Rattle.sentry_state.specs.Worlds.{World, Stands};

use crate::discards::discard;
use crate::finishes::{finish_span, finish_transaction};
use sentry_base::protocol::{HubKey, Refusal, SpanKey, TransactionKey, TransactionOrSpanKey};
use sentry_options::Callbacks;
use sentry_span_table::{SpanFate, SpanRecord};
use sentry_state::{Out, State};

// Forgets what has finished, or answers why it stays.
fn discard_finished<P: Drop, C: Callbacks>(
    state: &mut State<P, C>,
    span: TransactionOrSpanKey,
) -> Result<(), Refusal>
    ensures { (world : World P C) → Stands state.old world →
        (result ≡ discard_answer (discard span world).answer) × Stands state.new (discard span world).after }
{
    let Out { reply: (), sent: _ } = discard(state, span)?;
    Ok(())
}

// Finishes a span at a moment, and then forgets it.
fn finish_and_discard<P: Drop, C: Callbacks>(
    state: &mut State<P, C>,
    key: SpanKey,
    moment: u64,
) -> Result<Out<Result<(), Refusal>>, Refusal>
    ensures { Does state.old state.new result (call.end_span key moment) }
{
    let Out { reply: (), sent } = finish_span(state, key, moment)?;
    let reply = discard_finished(state, TransactionOrSpanKey::Span(key));
    Ok(Out { reply, sent })
}

// Whether a span that is held can move to its transaction as it ends: it is unfinished, no layer names it, and the
// transaction keeps it.
fn can_move<P: Drop, C: Callbacks>(state: &State<P, C>, key: SpanKey, held: &SpanRecord) -> bool
    ensures unfinished { OnTrue result (held.now.span.timestamp ≡ None) }
    ensures unnamed { OnTrue result ((world : World P C) → Stands state.now world →
        is_span_named key world.hubs ≡ false) }
    ensures keeps { OnTrue result ((world : World P C) → Stands state.now world → (kept : TransactionHistory) →
        transaction_at world held.now.transaction ≡ Some kept → fate_of kept ≡ Kept) }
    ensures in_table { OnTrue result (is_some (transaction_in state.now.spans held.now.transaction) ≡ true) }
{
    if held.span.timestamp.is_some() {
        return false;
    }
    if state.hubs.is_span_named(key) {
        return false;
    }
    let Some(kept) = state.transaction_at(held.transaction) else {
        return false;
    };
    matches!(kept.fate(), SpanFate::Kept)
}

/// Finishes a span at a moment, as `finish_span` does, and then forgets it, as `discard` does. What its transaction keeps of
/// it is moved there. The reply is the answer of the discard: `StillNamed`, if a layer of a hub names the span, which is
/// finished then, and stays.
///
/// `Stale`: the span isn't held. `OutOfMemory`.
pub fn end_span<P: Drop, C: Callbacks>(
    state: &mut State<P, C>,
    key: SpanKey,
    moment: u64,
) -> Result<Out<Result<(), Refusal>>, Refusal>
    ensures { Does state.old state.new result (call.end_span key moment) }
{
    let Some(held) = state.span_at(key) else {
        return finish_and_discard(state, key, moment);
    };
    if !can_move(state, key, held) {
        return finish_and_discard(state, key, moment);
    }
    let transaction = held.transaction;
    state.move_span(key.number, transaction.number, moment)?;
    Ok(state.out(Ok(())))
}

/// Finishes a transaction at a moment under the top scope of a hub, as `finish_transaction` does, and then forgets it, as
/// `discard` does. The reply is the answer of the discard: `StillNamed`, if a layer of a hub names the transaction, or a
/// span of it is held. It is finished then, and stays.
///
/// `Stale`: the transaction isn't held, or the hub isn't. `OutOfMemory`.
pub fn end_transaction<P: Drop, C: Callbacks>(
    state: &mut State<P, C>,
    key: TransactionKey,
    hub: HubKey,
    moment: u64,
) -> Result<Out<Result<(), Refusal>>, Refusal>
    ensures { Does state.old state.new result (call.end_transaction key hub moment) }
{
    let Out { reply: (), sent } = finish_transaction(state, key, hub, moment)?;
    let reply = discard_finished(state, TransactionOrSpanKey::Transaction(key));
    Ok(Out { reply, sent })
}
