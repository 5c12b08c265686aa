//! What becomes of captured logs and metrics.
ghost use Rattle.std.specs.Prelude.{◌≡◌, IfOk, OnErr};
ghost use Rattle.sentry_state.specs.Books.{with_entry};
ghost use Rattle.sentry_sending.specs.Sending.{Sends};
ghost use Rattle.sentry_state.specs.Worlds.{World, Stands};
ghost use Rattle.sentry_telemetry.specs.Telemetry.{item_loss, client_log, client_metric};
ghost use Rattle.sentry_telemetry.specs.Telemetry.{accept_log, accept_metric, keep_log, keep_metric};

use crate::flushes::Batches;
use crate::prepared_envelopes::prepare_envelopes;
use sentry_base::protocol::{Category, ClientKey, Label, Log, Losses, Metric, MetricDraft, Reason};
use sentry_options::Callbacks;
use sentry_pipeline::pipeline::{prepare_log, prepare_metric};
use sentry_plain::Items;
use sentry_scope::Scope;
use sentry_sending::sending::mark_sent;
use sentry_span_table::SpanTable;
use sentry_state::{ClientState, Sent, State};
use std::alloc::AllocError;

/// The log as a client would send it, or `None` if its callback drops it.
#[tactic(auto, unfolding(crate::specs::Telemetry::client_log))]
pub fn client_log<P: Drop, C: Callbacks>(
    client: &ClientState<C>,
    spans: &SpanTable,
    scope: &Scope<P>,
    log: Log,
) -> Result<Option<Log>, AllocError>
    ensures { IfOk result (λ made. made ≡ client_log C.meanings spans.now client.now scope.now log) }
{
    let options = client.options.get();
    let made = prepare_log(options, &client.log_attributes, spans, scope, log)?;
    Ok(made)
}

/// The metric of a draft at a moment as a client would send it, or `None` if its callback drops it.
#[tactic(auto, unfolding(crate::specs::Telemetry::client_metric))]
pub fn client_metric<P: Drop, C: Callbacks>(
    client: &ClientState<C>,
    spans: &SpanTable,
    scope: &Scope<P>,
    now: u64,
    draft: MetricDraft,
) -> Result<Option<Metric>, AllocError>
    ensures { IfOk result (λ made. made ≡ client_metric C.meanings spans.now client.now scope.now now draft) }
{
    let options = client.options.get();
    let metric = draft.into_metric(scope.trace_id, now);
    let made = prepare_metric(options, &client.metric_attributes, spans, scope, metric)?;
    Ok(made)
}

// Records that the callback dropped an item of this category.
fn record_dropped<P: Drop, C: Callbacks>(state: &mut State<P, C>, label: Label, category: Category)
    ensures { (world : World P C) → Stands state.old world →
        Stands state.new (with_entry world label (item_loss category)) }
{
    state.record_losses(label, &Losses::of(category, Reason::BeforeSend, 1));
}

// Accepts a log into the batch of a client, which is sent once it is full. If out of memory, nothing has changed.
#[tactic(auto, unfolding(crate::specs::Telemetry::accept_log))]
fn accept_log<P: Drop, C: Callbacks>(
    state: &mut State<P, C>,
    key: ClientKey,
    log: Log,
) -> Result<Sent, AllocError>
    ensures in_world { IfOk result (λ sent. Sends state.old state.new sent (accept_log key log)) }
    ensures err { OnErr result (state.new ≡ state.old) }
{
    let Some(client) = state.client_at(key) else {
        return Ok(Items::new(state.alloc));
    };
    if client.closed {
        return Ok(Items::new(state.alloc));
    }
    if !client.next_log_fills_queue() {
        state.enqueue_log(key.number, log)?;
        return Ok(Items::new(state.alloc));
    }
    let label = client.label;
    let prepared = prepare_envelopes(state, key, label, Items::new(state.alloc))?;
    let logs = state.enqueue_log(key.number, log)?;
    let sent = prepared.finish(Batches {
        logs,
        metrics: None,
    });
    mark_sent(state, label, &sent);
    Ok(sent)
}

// Accepts a metric into the batch of a client, which is sent once it is full. If out of memory, nothing has changed.
#[tactic(auto, unfolding(crate::specs::Telemetry::accept_metric))]
fn accept_metric<P: Drop, C: Callbacks>(
    state: &mut State<P, C>,
    key: ClientKey,
    metric: Metric,
) -> Result<Sent, AllocError>
    ensures in_world { IfOk result (λ sent. Sends state.old state.new sent (accept_metric key metric)) }
    ensures err { OnErr result (state.new ≡ state.old) }
{
    let Some(client) = state.client_at(key) else {
        return Ok(Items::new(state.alloc));
    };
    if client.closed {
        return Ok(Items::new(state.alloc));
    }
    if !client.next_metric_fills_queue() {
        state.enqueue_metric(key.number, metric)?;
        return Ok(Items::new(state.alloc));
    }
    let label = client.label;
    let prepared = prepare_envelopes(state, key, label, Items::new(state.alloc))?;
    let metrics = state.enqueue_metric(key.number, metric)?;
    let sent = prepared.finish(Batches {
        logs: None,
        metrics,
    });
    mark_sent(state, label, &sent);
    Ok(sent)
}

/// Accepts a log that came through the callback, or records that it was lost. If out of memory, nothing has changed.
#[tactic(auto, unfolding(crate::specs::Telemetry::keep_log))]
pub fn keep_log<P: Drop, C: Callbacks>(
    state: &mut State<P, C>,
    key: ClientKey,
    label: Label,
    made: Option<Log>,
) -> Result<Sent, AllocError>
    ensures in_world { IfOk result (λ sent. Sends state.old state.new sent (keep_log key label made)) }
    ensures err { OnErr result (state.new ≡ state.old) }
{
    let Some(log) = made else {
        record_dropped(state, label, Category::LogItem);
        return Ok(Items::new(state.alloc));
    };
    let sent = accept_log(state, key, log)?;
    Ok(sent)
}

/// The same of a metric.
#[tactic(auto, unfolding(crate::specs::Telemetry::keep_metric))]
pub fn keep_metric<P: Drop, C: Callbacks>(
    state: &mut State<P, C>,
    key: ClientKey,
    label: Label,
    made: Option<Metric>,
) -> Result<Sent, AllocError>
    ensures in_world { IfOk result (λ sent. Sends state.old state.new sent (keep_metric key label made)) }
    ensures err { OnErr result (state.new ≡ state.old) }
{
    let Some(metric) = made else {
        record_dropped(state, label, Category::Metric);
        return Ok(Items::new(state.alloc));
    };
    let sent = accept_metric(state, key, metric)?;
    Ok(sent)
}
