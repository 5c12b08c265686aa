//! The calls that change a transaction or a span.
ghost use Rattle.sentry_span_edits.specs.Setters as call;
ghost use Rattle.sentry_span_edits.specs.Setters.{IsEditable, IsStale};
ghost use Rattle.std.specs.Prelude.{◌≡◌, IfErr, OnOk, OnErr, true, is_ok};
ghost use Rattle.sentry_base.specs.declared.protocol.refusal.Refusal.TheVariants.{Stale};
ghost use Rattle.sentry_state.specs.Outcomes.{Does};
ghost use Rattle.sentry_state.specs.Worlds.{World, Stands};
ghost use Rattle.sentry_base.specs.declared.protocol.keys.TransactionOrSpanKey.TheVariants as key_of;

use crate::edit::SpanEdit;
use crate::edits::{edit_held_span, edit_transaction};
use sentry_base::protocol::{
    Refusal, Request, SpanKey, SpanStatus, TransactionKey, TransactionOrSpanKey,
};
use sentry_options::Callbacks;
use sentry_plain::{Text, Value};
use sentry_state::{Out, State};

// Edits a transaction.
#[tactic(auto, unfolding(crate::specs::Setters::change))]
fn change_transaction<P: Drop, C: Callbacks>(
    state: &mut State<P, C>,
    key: TransactionKey,
    edit: SpanEdit,
) -> Result<Out<()>, Refusal>
    ensures { Does state.old state.new result (call.change edit (key_of.Transaction key)) }
{
    if state.transaction_at(key).is_none() {
        return Err(Refusal::Stale);
    }
    edit_transaction(state, key, edit)?;
    Ok(state.out(()))
}

// Edits a span.
#[tactic(auto, unfolding(crate::specs::Setters::change))]
fn change_span<P: Drop, C: Callbacks>(
    state: &mut State<P, C>,
    key: SpanKey,
    edit: SpanEdit,
) -> Result<Out<()>, Refusal>
    ensures { Does state.old state.new result (call.change edit (key_of.Span key)) }
{
    if state.span_at(key).is_none() {
        return Err(Refusal::Stale);
    }
    edit_held_span(state, key, edit)?;
    Ok(state.out(()))
}

/// Edits a transaction or a span.
///
/// `Stale`: it isn't held. `OutOfMemory`.
pub fn change<P: Drop, C: Callbacks>(
    state: &mut State<P, C>,
    key: TransactionOrSpanKey,
    edit: SpanEdit,
) -> Result<Out<()>, Refusal>
    ensures { Does state.old state.new result (call.change edit key) }
{
    match key {
        TransactionOrSpanKey::Transaction(key) => change_transaction(state, key, edit),
        TransactionOrSpanKey::Span(key) => change_span(state, key, edit),
    }
}

// Refuses a transaction or a span that isn't held. Every edit of one that is held has a reply.
#[tactic(auto, unfolding(crate::specs::Setters::change))]
fn require_held<P: Drop, C: Callbacks>(
    state: &State<P, C>,
    span: TransactionOrSpanKey,
) -> Result<(), Refusal>
    ensures held { OnOk result ((world : World P C) → Stands state.now world → IsEditable span world) }
    ensures stale { IfErr result (λ refusal. (refusal ≡ Stale)
        × ((world : World P C) → Stands state.now world → IsStale span world)) }
{
    match span {
        TransactionOrSpanKey::Transaction(key) => match state.transaction_at(key) {
            None => Err(Refusal::Stale),
            Some(_) => Ok(()),
        },
        TransactionOrSpanKey::Span(key) => match state.span_at(key) {
            None => Err(Refusal::Stale),
            Some(_) => Ok(()),
        },
    }
}

/// Sets data of a span, or of a transaction while it is unfinished.
///
/// `Stale`: it isn't held. `OutOfMemory`.
pub fn set_data<P: Drop, C: Callbacks>(
    state: &mut State<P, C>,
    span: TransactionOrSpanKey,
    key: &str,
    value: Value,
) -> Result<Out<()>, Refusal>
    ensures { Does state.old state.new result (call.set_data span key.now value) }
{
    require_held(state, span)?;
    let key = Text::new(state.alloc, key)?;
    change(state, span, SpanEdit::Data { key, value })
}

/// Sets a tag of a span, or of a transaction while it is unfinished.
///
/// `Stale`: it isn't held. `OutOfMemory`.
pub fn set_tag<P: Drop, C: Callbacks>(
    state: &mut State<P, C>,
    span: TransactionOrSpanKey,
    key: &str,
    value: &str,
) -> Result<Out<()>, Refusal>
    ensures { Does state.old state.new result (call.set_tag span key.now value.now) }
{
    require_held(state, span)?;
    let key = Text::new(state.alloc, key)?;
    let value = Text::new(state.alloc, value)?;
    change(state, span, SpanEdit::Tag { key, value })
}

/// Sets extra data of a transaction, while it is unfinished.
///
/// `Stale`: it isn't held. `OutOfMemory`.
pub fn set_extra<P: Drop, C: Callbacks>(
    state: &mut State<P, C>,
    transaction: TransactionKey,
    key: &str,
    value: Value,
) -> Result<Out<()>, Refusal>
    ensures { Does state.old state.new result (call.set_extra transaction key.now value) }
{
    let span = TransactionOrSpanKey::Transaction(transaction);
    require_held(state, span)?;
    let key = Text::new(state.alloc, key)?;
    change(state, span, SpanEdit::Extra { key, value })
}

/// Sets the status of a transaction or a span, also of one that is finished.
///
/// `Stale`: it isn't held. `OutOfMemory`.
pub fn set_status<P: Drop, C: Callbacks>(
    state: &mut State<P, C>,
    span: TransactionOrSpanKey,
    status: SpanStatus,
) -> Result<Out<()>, Refusal>
    ensures { Does state.old state.new result (call.set_status span status) }
{
    change(state, span, SpanEdit::Status(status))
}

/// Sets the operation of a transaction or a span, also of one that is finished.
///
/// `Stale`: it isn't held. `OutOfMemory`.
pub fn set_op<P: Drop, C: Callbacks>(
    state: &mut State<P, C>,
    span: TransactionOrSpanKey,
    op: &str,
) -> Result<Out<()>, Refusal>
    ensures { Does state.old state.new result (call.set_op span op.now) }
{
    require_held(state, span)?;
    let op = Text::new(state.alloc, op)?;
    change(state, span, SpanEdit::Op(op))
}

/// Sets the name of a transaction while it is unfinished, or the description of a span, which may be empty.
///
/// `Stale`: it isn't held. `OutOfMemory`.
pub fn set_name<P: Drop, C: Callbacks>(
    state: &mut State<P, C>,
    span: TransactionOrSpanKey,
    name: &str,
) -> Result<Out<()>, Refusal>
    ensures { Does state.old state.new result (call.set_name span name.now) }
{
    require_held(state, span)?;
    let name = Text::new(state.alloc, name)?;
    change(state, span, SpanEdit::Name(name))
}

/// Sets the request of a transaction while it is unfinished, or the data that a span has of a request.
///
/// `Stale`: it isn't held. `OutOfMemory`.
pub fn set_request<P: Drop, C: Callbacks>(
    state: &mut State<P, C>,
    span: TransactionOrSpanKey,
    request: Request,
) -> Result<Out<()>, Refusal>
    ensures { Does state.old state.new result (call.set_request span request) }
{
    change(state, span, SpanEdit::Request(request))
}

/// Sets what created a transaction, also of one that is finished.
///
/// `Stale`: it isn't held. `OutOfMemory`.
pub fn set_origin<P: Drop, C: Callbacks>(
    state: &mut State<P, C>,
    transaction: TransactionKey,
    origin: &str,
) -> Result<Out<()>, Refusal>
    ensures { Does state.old state.new result (call.set_origin transaction origin.now) }
{
    let span = TransactionOrSpanKey::Transaction(transaction);
    require_held(state, span)?;
    let origin = Text::new(state.alloc, origin)?;
    change(state, span, SpanEdit::Origin(origin))
}
