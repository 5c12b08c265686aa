//! What scopes and clients of a scenario call: event processors, integrations and the callbacks of options.
ghost use Rattle.std.specs.Prelude.{◌≡◌, IfOk};
ghost use Rattle.scenario_run.specs.Callbacks.{handle, extend, keep_or_drop, keep_or_drop_log, keep_or_drop_metric};
ghost use Rattle.scenario_run.specs.Callbacks.{drop_if_begins, text_or_empty, begins_with, set_tag, add_os};
ghost use Rattle.scenario_run.specs.Callbacks.{rate_of_decision, rate_by_name, rate_of_context};

use sentry_base::callbacks::{BreadcrumbCallback, EventCallback, LogCallback, MetricCallback};
use sentry_base::protocol::{Breadcrumb, Context, Event, Log, Metric, SampleRate};
use sentry_options::{ClientCallbacks, Integration, PlainOptions, TracesSampler};
use sentry_plain::Text;
use sentry_trace::performance::TransactionContext;
use std::alloc::{AllocError, Global};

/// The callbacks of a client.
pub type Callbacks = ClientCallbacks<
    Handler,
    Extension,
    BreadcrumbFilter,
    LogFilter,
    MetricFilter,
    NameSampler,
>;

/// An event processor or `before_send`.
#[derive(Drop)]
pub enum Handler {
    /// Drops events whose message begins with this.
    Drop(Text),
    /// Sets a tag.
    SetTag { key: Text, value: Text },
}

impl EventCallback for Handler {
    ghost gives = { handle };

    fn call(&self, event: Event) -> Result<Option<Event>, AllocError> {
        match self {
            Handler::Drop(prefix) => Ok(drop_if_begins(prefix.as_str(), event)),
            Handler::SetTag { key, value } => Ok(Some(set_tag(key, value, event)?)),
        }
    }
}

/// An integration.
#[derive(Drop)]
pub enum Extension {
    /// Named `os`: adds a context of that name, if there is none.
    Os,
    /// Named `drop`: drops events whose message begins with this.
    Drop(Text),
}

impl Integration for Extension {
    ghost meaning = { extend };

    fn name(&self) -> &str {
        match self {
            Extension::Os => "os",
            Extension::Drop(_) => "drop",
        }
    }

    fn setup(&self, _options: &mut PlainOptions) -> Result<(), AllocError> {
        Ok(())
    }

    fn process_event(
        &self,
        event: Event,
        _options: &PlainOptions,
    ) -> Result<Option<Event>, AllocError> {
        match self {
            Extension::Os => Ok(Some(add_os(event)?)),
            Extension::Drop(prefix) => Ok(drop_if_begins(prefix.as_str(), event)),
        }
    }
}

/// A `before_breadcrumb` that drops breadcrumbs whose message begins with this.
#[derive(Drop)]
pub struct BreadcrumbFilter(pub Text);

impl BreadcrumbCallback for BreadcrumbFilter {
    ghost gives = { keep_or_drop };

    fn call(&self, breadcrumb: Breadcrumb) -> Result<Option<Breadcrumb>, AllocError> {
        let message = text_or_empty(&breadcrumb.message);
        if begins_with(message, self.0.as_str()) {
            return Ok(None);
        }
        Ok(Some(breadcrumb))
    }
}

/// A `before_send_log` that drops logs whose body begins with this.
#[derive(Drop)]
pub struct LogFilter(pub Text);

impl LogCallback for LogFilter {
    ghost gives = { keep_or_drop_log };

    fn call(&self, log: Log) -> Result<Option<Log>, AllocError> {
        if begins_with(log.body.as_str(), self.0.as_str()) {
            return Ok(None);
        }
        Ok(Some(log))
    }
}

/// A `before_send_metric` that drops metrics whose name begins with this.
#[derive(Drop)]
pub struct MetricFilter(pub Text);

impl MetricCallback for MetricFilter {
    ghost gives = { keep_or_drop_metric };

    fn call(&self, metric: Metric) -> Result<Option<Metric>, AllocError> {
        if begins_with(metric.name.as_str(), self.0.as_str()) {
            return Ok(None);
        }
        Ok(Some(metric))
    }
}

/// A sampler that goes by the name of a transaction.
#[derive(Drop)]
pub struct NameSampler;

impl TracesSampler for NameSampler {
    ghost rate_of = { rate_of_context };

    fn rate(&self, context: &TransactionContext) -> Result<u32, AllocError> {
        Ok(rate_by_name(context.name(), context.sampled()))
    }
}

/// None of the traces that were decided against, and all others.
fn rate_of_decision(decision: Option<bool>) -> u32
    ensures { result ≡ rate_of_decision decision }
{
    match decision {
        Some(false) => 0,
        Some(true) | None => SampleRate::ALL,
    }
}

/// None of the traces whose name begins with `drop`; of those whose name begins with `parent` those that were not
/// decided against; and all others. The rate of a name that begins with `above` is more than all.
fn rate_by_name(name: &str, decision: Option<bool>) -> u32
    ensures { result ≡ rate_by_name name.now decision }
{
    if begins_with(name, "drop") {
        return 0;
    }
    if begins_with(name, "parent") {
        return rate_of_decision(decision);
    }
    if begins_with(name, "above") {
        return 1_500_000;
    }
    SampleRate::ALL
}

/// A text, or the empty one in place of none.
fn text_or_empty(text: &Option<Text>) -> &str
    ensures { result.now ≡ text_or_empty text.now }
{
    match text {
        Some(message) => message.as_str(),
        None => "",
    }
}

fn begins_with(text: &str, prefix: &str) -> bool
    ensures { result ≡ begins_with text.now prefix.now }
{
    text.as_bytes().starts_with(prefix.as_bytes())
}

fn drop_if_begins(prefix: &str, event: Event) -> Option<Event>
    ensures { result ≡ drop_if_begins prefix.now event }
{
    if begins_with(text_or_empty(&event.message), prefix) {
        return None;
    }
    Some(event)
}

fn set_tag(key: &Text, value: &Text, mut event: Event) -> Result<Event, AllocError>
    ensures { IfOk result (λ made. made ≡ set_tag key.now value.now event) }
{
    event.tags.insert(key.clone()?, value.clone()?)?;
    Ok(event)
}

fn add_os(mut event: Event) -> Result<Event, AllocError>
    ensures { IfOk result (λ made. made ≡ add_os event) }
{
    if event.contexts.get("os").is_some() {
        return Ok(event);
    }
    let alloc = event.breadcrumbs.allocator();
    let context = Context::Os {
        name: Some(Text::new(alloc, "plan")?),
        version: Some(Text::new(alloc, "9")?),
    };
    event.contexts.insert(Text::new(alloc, "os")?, context)?;
    Ok(event)
}
