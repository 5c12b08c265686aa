//! How transactions and spans finish.
ghost use Rattle.std.specs.Prelude.{◌≡◌, ◌<◌, ℕ, [], ◌∷◌, List, IfOk, OnOk, OnErr, Some, true, is_some, codes, vec_len, vec_capacity};
ghost use Rattle.sentry_plain.specs.Texts.{merge, put};
ghost use Rattle.sentry_base.specs.Envelopes.{with_report};
ghost use Rattle.sentry_base.specs.declared.protocol.span.Span.{Span};
ghost use Rattle.sentry_base.specs.declared.protocol.transaction.Transaction.{Transaction};
ghost use Rattle.sentry_sending.specs.Sending.{for_client};
ghost use Rattle.sentry_spans.specs.Prepared.{HasRoom, filled, prepared_envelope};
ghost use Rattle.sentry_state.specs.Books.{pending_report};
ghost use Rattle.sentry_base.specs.declared.protocol.context.Context.TheVariants as context_of;
ghost use Rattle.sentry_client_reports.specs.LossBooks.{engine_losses};
ghost use Rattle.sentry_span_table.specs.SpanLists.{TransactionHistory, fate_of};
ghost use Rattle.sentry_span_table.specs.SpanTables.{span_in, transaction_in};
ghost use Rattle.sentry_span_table.specs.declared.table.records.SpanFate.TheVariants.{Kept};
ghost use Rattle.sentry_span_table.specs.declared.table.records.SpanRecord.{SpanRecord};
ghost use Rattle.sentry_spans.specs.Spans.{span_loss, transaction_loss, sent_transaction, transaction_envelope, with_client_loss, with_span_in};
ghost use Rattle.std.specs.Option.{option_map, option_or};
ghost use Rattle.sentry_spans.specs.Spans as call;
ghost use Rattle.sentry_state.specs.Outcomes.{Does, span_at, transaction_at};
ghost use Rattle.sentry_state.specs.SpanChanges.{finished_span, with_span};
ghost use Rattle.sentry_state.specs.Worlds.{World, Stands};

use crate::prepared::{Filling, Prepared};
use sentry_base::protocol::{
    Category, ClientKey, ClientReport, Context, DynamicSamplingContext, Envelope, EnvelopeHeaders,
    EnvelopeItem, HubKey, Losses, Reason, Refusal, SampleRate, Span, SpanKey, TraceContext,
    Transaction, TransactionKey, User, Uuid, ValueMap,
};
use sentry_options::{Callbacks, ClientOptions};
use sentry_plain::{Boxed, Items, Text, TextMap};
use sentry_scope::Scope;
use sentry_sending::sending::mark_sent;
use sentry_span_table::{SpanFate, TracingState, TransactionRecord};
use sentry_state::{ClientState, Out, Sent, State};
use std::alloc::{AllocError, Global};

// Records what a client lost, if it is held.
fn record_client_loss<P: Drop, C: Callbacks>(
    state: &mut State<P, C>,
    client: ClientKey,
    losses: &Losses,
)
    ensures { (world : World P C) → Stands state.old world →
        Stands state.new (with_client_loss client (engine_losses losses.now.quantities) world) }
{
    let Some(held) = state.client_at(client) else {
        return;
    };
    let label = held.label;
    state.record_losses(label, losses);
}

// Records that a client lost a span, if it is held.
fn lose_span<P: Drop, C: Callbacks>(state: &mut State<P, C>, client: ClientKey)
    ensures { (world : World P C) → Stands state.old world →
        Stands state.new (with_client_loss client span_loss world) }
{
    let losses = Losses::of(Category::Span, Reason::BufferOverflow, 1);
    record_client_loss(state, client, &losses);
}

// A copy of a span that finishes at a moment.
fn finished_copy(span: &Span, moment: u64) -> Result<Span, AllocError>
    ensures { IfOk result (λ copy. copy ≡ record span.now { timestamp = Some moment }) }
{
    let mut copy = span.clone()?;
    copy.timestamp = Some(moment);
    Ok(copy)
}

// Gives the transaction of a span that finishes a copy of it. If out of memory, nothing has changed.
fn keep_span<P: Drop, C: Callbacks>(
    state: &mut State<P, C>,
    key: SpanKey,
    transaction: TransactionKey,
    moment: u64,
) -> Result<(), AllocError>
    requires span { is_some (span_in state.old.spans key) ≡ true }
    requires transaction { is_some (transaction_in state.old.spans transaction) ≡ true }
    ensures in_world { OnOk result ((world : World P C) (held : SpanRecord) (kept : TransactionHistory) →
        Stands state.old world → span_at world key ≡ Some held → transaction_at world transaction ≡ Some kept →
        fate_of kept ≡ Kept → Stands state.new (with_span_in transaction (finished_span moment held).span (Some kept)
        (with_span key.number (finished_span moment held) world))) }
    ensures err { OnErr result (state.new ≡ state.old) }
{
    let Some(held) = state.span_at(key) else {
        unreachable!()
    };
    let copy = finished_copy(&held.span, moment)?;
    state.push_span(transaction.number, copy)?;
    state.set_span_finished(key.number, moment);
    Ok(())
}

// A span that is held finishes in its transaction. If out of memory, nothing has changed.
fn finish_in_transaction<P: Drop, C: Callbacks>(
    state: &mut State<P, C>,
    key: SpanKey,
    transaction: TransactionKey,
    moment: u64,
) -> Result<(), AllocError>
    requires { is_some (span_in state.old.spans key) ≡ true }
    ensures in_world { OnOk result ((world : World P C) (held : SpanRecord) → Stands state.old world →
        span_at world key ≡ Some held →
        Stands state.new (with_span_in transaction (finished_span moment held).span (transaction_at world transaction)
        (with_span key.number (finished_span moment held) world))) }
    ensures err { OnErr result (state.new ≡ state.old) }
{
    let Some(kept) = state.transaction_at(transaction) else {
        state.set_span_finished(key.number, moment);
        return Ok(());
    };
    match kept.fate() {
        SpanFate::Kept => {
            keep_span(state, key, transaction, moment)?;
            Ok(())
        }
        SpanFate::Lost(client) => {
            state.set_span_finished(key.number, moment);
            lose_span(state, client);
            Ok(())
        }
        SpanFate::Gone => {
            state.set_span_finished(key.number, moment);
            Ok(())
        }
    }
}

/// Finishes a span at a moment, for the first time. It comes to the spans of its transaction while that is unfinished,
/// or is lost if the transaction keeps no more.
///
/// `Stale`: the span isn't held. `OutOfMemory`.
#[tactic(auto, unfolding(crate::specs::Spans::finish_span))]
pub fn finish_span<P: Drop, C: Callbacks>(
    state: &mut State<P, C>,
    key: SpanKey,
    moment: u64,
) -> Result<Out<()>, Refusal>
    ensures { Does state.old state.new result (call.finish_span key moment) }
{
    let Some(held) = state.span_at(key) else {
        return Err(Refusal::Stale);
    };
    if held.span.timestamp.is_some() {
        return Ok(state.out(()));
    }
    let transaction = held.transaction;
    finish_in_transaction(state, key, transaction, moment)?;
    Ok(state.out(()))
}

// What is lost with a transaction that was not sampled, and the spans that it kept.
fn unsampled_losses(held: &TransactionRecord, transaction: &Transaction) -> Losses
    ensures { engine_losses result.quantities
        ≡ transaction_loss (record transaction.now { spans = held.now.spans }) }
{
    let mut losses = Losses::of(Category::Transaction, Reason::SampleRate, 1);
    losses.add(&Losses::of(Category::Span, Reason::SampleRate, 1));
    let kept = held.spans.len() as u64;
    losses.add(&Losses::of(Category::Span, Reason::SampleRate, kept));
    losses
}

// The user that a scope gives to a transaction, if that has none.
fn user_for<P: Drop>(
    scope: &Scope<P>,
    transaction: &Transaction,
) -> Result<Option<User>, AllocError>
    ensures { IfOk result (λ user. option_or transaction.now.user user ≡ option_or transaction.now.user scope.now.user) }
{
    if transaction.user.is_some() {
        return Ok(None);
    }
    match scope.user() {
        None => Ok(None),
        Some(user) => {
            let copy = user.clone()?;
            Ok(Some(copy))
        }
    }
}

// The maps of a transaction with its place in the trace, and with what the scope sets. Where nothing is set they share
// the entries.
fn fill_maps<P: Drop>(
    alloc: Global,
    scope: &Scope<P>,
    held: &TransactionRecord,
    transaction: &Transaction,
    filling: &mut Filling,
) -> Result<(), AllocError>
    ensures { OnOk result (filling.new ≡ record filling.old {
      extra = merge scope.now.extra transaction.now.extra;
      tags = merge scope.now.tags transaction.now.tags;
      contexts = merge scope.now.contexts
          (put transaction.now.contexts (codes "trace") (context_of.Trace held.now.context));
    }) }
{
    filling.extra = transaction.extra.clone()?;
    scope.extra.merge_into(&mut filling.extra)?;
    filling.tags = transaction.tags.clone()?;
    filling.tags.merge(&scope.tags)?;
    filling.contexts = transaction.contexts.clone()?;
    let key = Text::new(alloc, "trace")?;
    let context = Context::Trace(held.context.clone()?);
    filling.contexts.insert(key, context)?;
    filling.contexts.merge(&scope.contexts)
}

// What a client says of itself.
fn describe_client<C>(client: &ClientState<C>, filling: &mut Filling) -> Result<(), AllocError>
    ensures { OnOk result (filling.new ≡ record filling.old {
      release = client.now.options.plain.release;
      environment = client.now.options.plain.environment;
      sdk = Some client.now.sdk;
      server_name = client.now.options.plain.server_name;
    }) }
{
    let options = &client.options.get().plain;
    filling.release = options.release.clone()?;
    filling.environment = options.environment.clone()?;
    filling.sdk = Some(client.sdk.clone()?);
    filling.server_name = options.server_name.clone()?;
    Ok(())
}

// What a transaction takes on as it is sent. The transaction stays as it is.
fn filling_of<P: Drop, C>(
    alloc: Global,
    client: &ClientState<C>,
    scope: &Scope<P>,
    held: &TransactionRecord,
    transaction: &Transaction,
) -> Result<Filling, AllocError>
    ensures { IfOk result (λ filling. (spans : List Span) (moment : ℕ) →
        filled filling moment (record transaction.now { spans = spans })
        ≡ sent_transaction client.now scope.now held.now.context spans moment transaction.now) }
{
    let mut filling = Filling::new(alloc);
    filling.user = user_for(scope, transaction)?;
    fill_maps(alloc, scope, held, transaction, &mut filling)?;
    describe_client(client, &mut filling)?;
    Ok(filling)
}

// How the trace of a transaction was sampled, at a rate.
fn sampling<C: Callbacks>(
    alloc: Global,
    options: &ClientOptions<C>,
    context: &TraceContext,
    rate: SampleRate,
) -> Result<DynamicSamplingContext, AllocError>
    ensures { IfOk result (λ trace. (transaction : Transaction) →
        Some trace ≡ (transaction_envelope options.now context.now rate transaction).header.trace) }
{
    let public_key = public_key_of(alloc, options)?;
    Ok(DynamicSamplingContext {
        trace_id: Some(context.trace_id),
        sample_rate: Some(rate),
        sampled: Some(true),
        public_key,
    })
}

// The public key of a client's DSN, if it has one.
fn public_key_of<C: Callbacks>(
    alloc: Global,
    options: &ClientOptions<C>,
) -> Result<Option<Text>, AllocError>
    ensures { IfOk result (λ key. key ≡ option_map (λ dsn. dsn.public_key) options.now.plain.dsn) }
{
    match &options.plain.dsn {
        None => Ok(None),
        Some(dsn) => {
            let key = Text::new(alloc, dsn.public_key())?;
            Ok(Some(key))
        }
    }
}

// What is made before a transaction of a client is sent that finishes under a scope, sampled at a rate: all that takes
// memory. The transaction stays as it is.
fn prepare<P: Drop, C: Callbacks>(
    state: &State<P, C>,
    client: &ClientState<C>,
    scope: &Scope<P>,
    held: &TransactionRecord,
    transaction: &Transaction,
    rate: SampleRate,
) -> Result<Prepared, AllocError>
    ensures room { IfOk result HasRoom }
    ensures report { IfOk result (λ made. (world : World P C) → Stands state.now world →
        made.report ≡ pending_report world client.now.label) }
    ensures envelope { IfOk result (λ made. (spans : List Span) (moment : ℕ) →
        prepared_envelope made moment (record transaction.now { spans = spans })
        ≡ transaction_envelope client.now.options held.now.context rate
        (sent_transaction client.now scope.now held.now.context spans moment transaction.now)) }
{
    let alloc = state.alloc;
    let options = client.options.get();
    let trace = sampling(alloc, options, &held.context, rate)?;
    let report = state.pending_report(client.label)?;
    let sent = Vec::with_capacity(alloc, 1)?;
    let items = Vec::with_capacity(alloc, 2)?;
    let filling = filling_of(alloc, client, scope, held, transaction)?;
    Ok(Prepared {
        filling,
        trace,
        report,
        items,
        sent,
    })
}

// The envelope of these items.
fn envelope_of(event_id: Uuid, trace: DynamicSamplingContext, items: Vec<EnvelopeItem>) -> Envelope
    ensures { result ≡ record {
      header = record { event_id = Some event_id; trace = Some trace };
      items = items.items;
    } }
{
    Envelope {
        header: EnvelopeHeaders {
            event_id: Some(event_id),
            trace: Some(trace),
        },
        items: Items::from_vec(items),
    }
}

// The same with a report as its last item, if there is one, for which there is room.
fn reported_envelope(
    event_id: Uuid,
    trace: DynamicSamplingContext,
    mut items: Vec<EnvelopeItem>,
    report: Option<ClientReport>,
) -> Envelope
    requires { vec_len items < vec_capacity items }
    ensures { result ≡ with_report report (record {
      header = record { event_id = Some event_id; trace = Some trace };
      items = items.items;
    }) }
{
    match report {
        None => envelope_of(event_id, trace, items),
        Some(report) => {
            items.push_reserved(EnvelopeItem::ClientReport(report));
            envelope_of(event_id, trace, items)
        }
    }
}

// What leaves a client that sends a transaction that finishes at a moment. It takes no memory.
fn send_prepared(
    prepared: Prepared,
    key: ClientKey,
    mut transaction: Boxed<Transaction>,
    moment: u64,
) -> Sent
    requires { HasRoom prepared }
    ensures { result ≡ for_client key prepared.report (prepared_envelope prepared moment transaction ∷ []) }
{
    let Prepared {
        filling,
        trace,
        report,
        mut items,
        mut sent,
    } = prepared;
    filling.fill(transaction.get_mut(), moment);
    let event_id = transaction.get().event_id;
    items.push_reserved(EnvelopeItem::Transaction(transaction));
    let envelope = reported_envelope(event_id, trace, items, report);
    sent.push_reserved((key, envelope));
    Items::from_vec(sent)
}

/// Finishes a transaction at a moment, under the top scope of a hub. One that was sampled is sent by its client, with
/// the spans that it kept; one that was not is lost. A second finish does nothing.
///
/// `Stale`: the transaction isn't held, or the hub isn't. `OutOfMemory`.
#[tactic(auto, unfolding(crate::specs::Spans::finish_transaction))]
pub fn finish_transaction<P: Drop, C: Callbacks>(
    state: &mut State<P, C>,
    key: TransactionKey,
    hub: HubKey,
    moment: u64,
) -> Result<Out<()>, Refusal>
    ensures { Does state.old state.new result (call.finish_transaction key hub moment) }
{
    let Some(held) = state.transaction_at(key) else {
        return Err(Refusal::Stale);
    };
    let Some(under) = state.hub_at(hub) else {
        return Err(Refusal::Stale);
    };
    let Some(unfinished) = &held.unfinished else {
        return Ok(state.out(()));
    };
    let name = unfinished.client;
    let transaction = unfinished.transaction.get();
    match held.tracing {
        TracingState::Disabled(_) => {
            drop(state.close_transaction(key));
            Ok(state.out(()))
        }
        TracingState::Enabled { sampled: false, .. } => {
            let losses = unsampled_losses(held, transaction);
            drop(state.close_transaction(key));
            record_client_loss(state, name, &losses);
            Ok(state.out(()))
        }
        TracingState::Enabled {
            sampled: true,
            rate,
        } => {
            let Some(client) = state.client_at(name) else {
                drop(state.close_transaction(key));
                return Ok(state.out(()));
            };
            let label = client.label;
            if !client.occupied {
                drop(state.close_transaction(key));
                return Ok(state.out(()));
            }
            let scope = &under.stack.top.scope;
            let prepared = prepare(state, client, scope, held, transaction, rate)?;
            let Some(transaction) = state.close_transaction(key) else {
                unreachable!()
            };
            let sent = send_prepared(prepared, name, transaction, moment);
            mark_sent(state, label, &sent);
            Ok(Out { reply: (), sent })
        }
    }
}
