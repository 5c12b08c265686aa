//! How one edit changes a transaction or a span.
ghost use Rattle.std.specs.Prelude.{◌≡◌, OnOk, OnErr, Some, true, is_some};
ghost use Rattle.std.specs.Option.{option_map};
ghost use Rattle.sentry_plain.specs.Tables.{value_at, replace_at};
ghost use Rattle.sentry_span_edits.specs.Edits.{edit_context, edit_held, edit_sent, edit_span, edit_span_record, edit_unfinished};
ghost use Rattle.sentry_span_edits.specs.Setters.{with_edited};
ghost use Rattle.sentry_span_table.specs.SpanTables.{span_in};
ghost use Rattle.sentry_span_table.specs.declared.table.records.SpanRecord.{SpanRecord};
ghost use Rattle.sentry_span_table.specs.declared.table.records.TransactionRecord.{TransactionRecord};
ghost use Rattle.sentry_state.specs.Outcomes.{span_at};
ghost use Rattle.sentry_state.specs.SpanChanges.{with_span};
ghost use Rattle.sentry_state.specs.Worlds.{World, Stands};

use crate::edit::SpanEdit;
use crate::requests::with_request;
use sentry_base::protocol::{Span, SpanKey, TraceContext, Transaction, TransactionKey};
use sentry_options::Callbacks;
use sentry_span_table::{SpanTable, TransactionRecord, Unfinished};
use sentry_state::State;
use std::alloc::{AllocError, Global};

// Edits what a transaction will send. If out of memory, nothing has changed.
fn edit_sent(transaction: &mut Transaction, edit: SpanEdit) -> Result<(), AllocError>
    ensures ok { OnOk result (transaction.new ≡ edit_sent edit transaction.old) }
    ensures err { OnErr result (transaction.new ≡ transaction.old) }
{
    match edit {
        SpanEdit::Tag { key, value } => transaction.tags.insert(key, value)?,
        SpanEdit::Extra { key, value } => transaction.extra.insert(key, value)?,
        SpanEdit::Name(name) => transaction.name = Some(name),
        SpanEdit::Request(request) => transaction.request = Some(request),
        _other => {}
    }
    Ok(())
}

// Edits an unfinished transaction. If out of memory, nothing has changed.
fn edit_unfinished(unfinished: &mut Unfinished, edit: SpanEdit) -> Result<(), AllocError>
    ensures ok { OnOk result (unfinished.new ≡ edit_unfinished edit unfinished.old) }
    ensures err { OnErr result (unfinished.new ≡ unfinished.old) }
{
    edit_sent(unfinished.transaction.get_mut(), edit)?;
    Ok(())
}

// Edits a transaction, if it is unfinished. If out of memory, nothing has changed.
fn edit_any_unfinished(
    unfinished: &mut Option<Unfinished>,
    edit: SpanEdit,
) -> Result<(), AllocError>
    ensures ok { OnOk result (unfinished.new ≡ option_map (edit_unfinished edit) unfinished.old) }
    ensures err { OnErr result (unfinished.new ≡ unfinished.old) }
{
    match unfinished {
        None => Ok(()),
        Some(held) => edit_unfinished(held, edit),
    }
}

// Edits the place of a transaction in its trace. If out of memory, nothing has changed.
fn edit_context(
    context: &mut TraceContext,
    is_unfinished: bool,
    edit: SpanEdit,
) -> Result<(), AllocError>
    ensures ok { OnOk result (context.new ≡ edit_context edit is_unfinished context.old) }
    ensures err { OnErr result (context.new ≡ context.old) }
{
    match edit {
        SpanEdit::Data { key, value } => {
            if is_unfinished {
                context.data_.insert(key, value)?;
            }
        }
        SpanEdit::Status(status) => context.status = Some(status),
        SpanEdit::Op(op) => context.op = Some(op),
        SpanEdit::Origin(origin) => context.origin = Some(origin),
        _other => {}
    }
    Ok(())
}

// Edits a transaction. If out of memory, nothing has changed.
fn edit_held(held: &mut TransactionRecord, edit: SpanEdit) -> Result<(), AllocError>
    ensures ok { OnOk result (held.new ≡ edit_held edit held.old) }
    ensures err { OnErr result (held.new ≡ held.old) }
{
    match &edit {
        SpanEdit::Tag { .. } | SpanEdit::Extra { .. } | SpanEdit::Name(_) | SpanEdit::Request(_) =>
            edit_any_unfinished(&mut held.unfinished, edit),
        _ => {
            let is_unfinished = held.unfinished.is_some();
            edit_context(&mut held.context, is_unfinished, edit)
        }
    }
}

// Edits a span. If out of memory, nothing has changed.
fn edit_span(alloc: Global, span: &mut Span, edit: SpanEdit) -> Result<(), AllocError>
    ensures ok { OnOk result (span.new ≡ edit_span edit span.old) }
    ensures err { OnErr result (span.new ≡ span.old) }
{
    match edit {
        SpanEdit::Data { key, value } => span.data_.insert(key, value)?,
        SpanEdit::Tag { key, value } => span.tags.insert(key, value)?,
        SpanEdit::Status(status) => span.status = Some(status),
        SpanEdit::Op(op) => span.op = Some(op),
        SpanEdit::Name(name) => span.description = Some(name),
        SpanEdit::Request(request) => span.data_ = with_request(alloc, &span.data_, &request)?,
        _other => {}
    }
    Ok(())
}

// Edits a transaction that a table holds. If out of memory, nothing has changed.
#[tactic(auto, using(sentry_plain::proofs::ChangeLemmas::changed_same))]
fn edit_transaction_at(spans: &mut SpanTable, number: u64, edit: SpanEdit) -> Result<(), AllocError>
    requires { is_some (value_at spans.old.transactions number) ≡ true }
    ensures ok { OnOk result ((held : TransactionRecord) → value_at spans.old.transactions number ≡ Some held →
        spans.new ≡ record spans.old {
          transactions = replace_at spans.old.transactions number (edit_held edit held);
        }) }
    ensures err { OnErr result (spans.new ≡ spans.old) }
{
    let Some(held) = spans.transactions.get_mut(number) else {
        unreachable!()
    };
    edit_held(held.get_mut(), edit)?;
    Ok(())
}

// Edits a span that a table holds. If out of memory, nothing has changed.
#[tactic(auto, using(sentry_plain::proofs::ChangeLemmas::changed_same))]
fn edit_span_at(
    alloc: Global,
    spans: &mut SpanTable,
    number: u64,
    edit: SpanEdit,
) -> Result<(), AllocError>
    requires { is_some (value_at spans.old.spans number) ≡ true }
    ensures ok { OnOk result ((held : SpanRecord) → value_at spans.old.spans number ≡ Some held →
        spans.new ≡ record spans.old {
          spans = replace_at spans.old.spans number (edit_span_record edit held);
        }) }
    ensures err { OnErr result (spans.new ≡ spans.old) }
{
    let Some(boxed) = spans.spans.get_mut(number) else {
        unreachable!()
    };
    let held = boxed.get_mut();
    edit_span(alloc, &mut held.span, edit)?;
    Ok(())
}

/// Edits a transaction, if it is held. If out of memory, nothing has changed.
pub fn edit_transaction<P: Drop, C: Callbacks>(
    state: &mut State<P, C>,
    key: TransactionKey,
    edit: SpanEdit,
) -> Result<(), AllocError>
    ensures in_world { OnOk result ((world : World P C) → Stands state.old world →
        Stands state.new (with_edited edit key world)) }
    ensures err { OnErr result (state.new ≡ state.old) }
{
    let Some(_held) = state.transaction_at(key) else {
        return Ok(());
    };
    edit_transaction_at(&mut state.spans, key.number, edit)?;
    Ok(())
}

/// Edits a span that is held. If out of memory, nothing has changed.
pub fn edit_held_span<P: Drop, C: Callbacks>(
    state: &mut State<P, C>,
    key: SpanKey,
    edit: SpanEdit,
) -> Result<(), AllocError>
    requires { is_some (span_in state.old.spans key) ≡ true }
    ensures in_world { OnOk result ((world : World P C) (held : SpanRecord) → Stands state.old world →
        span_at world key ≡ Some held →
        Stands state.new (with_span key.number (edit_span_record edit held) world)) }
    ensures err { OnErr result (state.new ≡ state.old) }
{
    edit_span_at(state.alloc, &mut state.spans, key.number, edit)?;
    Ok(())
}
