//! What a client drops and changes, and at which rate it samples. An export takes no callback, so options say by which text
//! what is dropped begins, and which platform events are of.
ghost use Rattle.std.specs.Prelude.{◌≡◌, ◌++◌, List, None, IfOk, OnOk, option_map};
ghost use Rattle.std.specs.List.{cons_option, filter_map};
ghost use Rattle.std.specs.Option.{option_and_then, option_to_list};
ghost use Rattle.sentry_base.specs.declared.protocol.breadcrumb.Breadcrumb.{Breadcrumb};
ghost use Rattle.c_records.specs.Filters.{begins_with, text_or_empty, filter_meanings};
ghost use Rattle.c_records.specs.Filters.{filtered_event, filtered_breadcrumb, filtered_log, filtered_metric};
ghost use Rattle.c_records.specs.Filters.{kept_event, with_platform, given_rate, rate_after};

use sentry_base::protocol::{Breadcrumb, Event, Log, Metric, SampleRate};
use sentry_options::decimals::parse_rate;
use sentry_options::{Callbacks, PlainOptions};
use sentry_plain::{Boxed, Few, Items, Text, Value};
use sentry_trace::performance::TransactionContext;
use std::alloc::{AllocError, Global};

/// The name under which a transaction is started with a rate of its own, a text, in what is passed to the sampler.
pub const RATE: &str = "rate";

/// The texts by which what a client drops begins, and what else its options say in place of callbacks. Where there is no
/// text, nothing is dropped or changed.
pub struct Filters {
    /// Of the messages of events.
    pub events: Option<Text>,
    /// Of the messages of breadcrumbs.
    pub breadcrumbs: Option<Text>,
    /// Of the bodies of logs.
    pub logs: Option<Text>,
    /// Of the names of metrics.
    pub metrics: Option<Text>,
    /// The platform of events that name none.
    pub platform: Option<Text>,
    /// In millionths, the rate of transactions that are started without one, and with no decision.
    pub traces: u32,
}

impl Drop for Filters {
    fn drop(self) {
        let Filters {
            events: _,
            breadcrumbs: _,
            logs: _,
            metrics: _,
            platform: _,
            traces: _,
        } = self;
    }
}

impl Filters {
    /// Those of a client that drops and changes nothing, and samples none.
    pub fn none() -> Filters
        ensures events { result.events ≡ None }
        ensures breadcrumbs { result.breadcrumbs ≡ None }
        ensures logs { result.logs ≡ None }
        ensures metrics { result.metrics ≡ None }
        ensures platform { result.platform ≡ None }
        ensures traces { result.traces ≡ 0 }
    {
        Filters {
            events: None,
            breadcrumbs: None,
            logs: None,
            metrics: None,
            platform: None,
            traces: 0,
        }
    }
}

/// A text, or the empty one in place of none.
fn text_or_empty(text: &Option<Text>) -> &str
    ensures { result.now ≡ text_or_empty text.now }
{
    match text {
        Some(text) => text.as_str(),
        None => "",
    }
}

fn begins_with(text: &str, prefix: &str) -> bool
    ensures { result ≡ begins_with text.now prefix.now }
{
    text.as_bytes().starts_with(prefix.as_bytes())
}

fn filtered_event(prefix: &str, event: Boxed<Event>) -> Option<Boxed<Event>>
    ensures { result ≡ filtered_event prefix.now event }
{
    if begins_with(text_or_empty(&event.message), prefix) {
        return None;
    }
    Some(event)
}

// The event, unless it is to be dropped.
fn kept_event(prefix: &Option<Text>, event: Boxed<Event>) -> Option<Boxed<Event>>
    ensures { result ≡ kept_event prefix.now event }
{
    match prefix {
        None => Some(event),
        Some(prefix) => filtered_event(prefix.as_str(), event),
    }
}

// Names the platform of an event that is said to be native, as one is that names none.
fn name_platform(platform: &Option<Text>, event: &mut Event) -> Result<(), AllocError>
    ensures { OnOk result (event.new ≡ with_platform platform.now event.old) }
{
    let Some(platform) = platform else {
        return Ok(());
    };
    if event.platform.as_str() == "native" {
        event.platform = platform.clone()?;
    }
    Ok(())
}

// Names the platform of an event that is kept.
fn name_kept(
    platform: &Option<Text>,
    event: Option<Boxed<Event>>,
) -> Result<Option<Boxed<Event>>, AllocError>
    ensures { IfOk result (λ named. named ≡ option_map (with_platform platform.now) event) }
{
    let Some(mut event) = event else {
        return Ok(None);
    };
    name_platform(platform, event.get_mut())?;
    Ok(Some(event))
}

fn filtered_breadcrumb(prefix: &str, breadcrumb: Breadcrumb) -> Option<Breadcrumb>
    ensures { result ≡ filtered_breadcrumb prefix.now breadcrumb }
{
    if begins_with(text_or_empty(&breadcrumb.message), prefix) {
        return None;
    }
    Some(breadcrumb)
}

// Appends the breadcrumb, if it is to be kept.
fn push_filtered(
    prefix: &str,
    kept: &mut Items<Breadcrumb>,
    breadcrumb: Breadcrumb,
) -> Result<(), AllocError>
    ensures { OnOk result ((rest : List Breadcrumb) →
        kept.new ++ rest ≡ kept.old ++ cons_option (filtered_breadcrumb prefix.now breadcrumb) rest) }
{
    match filtered_breadcrumb(prefix, breadcrumb) {
        None => Ok(()),
        Some(breadcrumb) => kept.push(breadcrumb),
    }
}

fn filter_breadcrumbs(
    prefix: &str,
    breadcrumbs: Vec<Breadcrumb>,
) -> Result<Items<Breadcrumb>, AllocError>
    ensures { IfOk result (λ kept. kept ≡ filter_map (filtered_breadcrumb prefix.now) breadcrumbs.items) }
{
    let mut kept = Items::new(*breadcrumbs.allocator());
    for breadcrumb in breadcrumbs {
        push_filtered(prefix, &mut kept, breadcrumb)?;
    }
    Ok(kept)
}

fn filter_single(prefix: &str, breadcrumb: Option<Breadcrumb>) -> Option<Breadcrumb>
    ensures { option_to_list result ≡ filter_map (filtered_breadcrumb prefix.now) (option_to_list breadcrumb) }
{
    match breadcrumb {
        None => None,
        Some(breadcrumb) => filtered_breadcrumb(prefix, breadcrumb),
    }
}

fn filter_few(prefix: &str, breadcrumbs: Few<Breadcrumb>) -> Result<Few<Breadcrumb>, AllocError>
    ensures { IfOk result (λ kept. kept ≡ filter_map (filtered_breadcrumb prefix.now) breadcrumbs) }
{
    match breadcrumbs.into_single() {
        Ok(breadcrumb) => Ok(Few::single(filter_single(prefix, breadcrumb))),
        Err(list) => Ok(Few::from_vec(filter_breadcrumbs(prefix, list)?.into_vec())),
    }
}

fn filtered_log(prefix: &str, log: Log) -> Option<Log>
    ensures { result ≡ filtered_log prefix.now log }
{
    if begins_with(log.body.as_str(), prefix) {
        return None;
    }
    Some(log)
}

fn filtered_metric(prefix: &str, metric: Metric) -> Option<Metric>
    ensures { result ≡ filtered_metric prefix.now metric }
{
    if begins_with(metric.name.as_str(), prefix) {
        return None;
    }
    Some(metric)
}

// The rate that a transaction is started with, if it is with one.
fn given_rate(context: &TransactionContext) -> Option<u32>
    ensures { result ≡ given_rate context.now }
{
    let Some(custom) = &context.custom else {
        return None;
    };
    match custom.get(RATE) {
        Some(Value::Text(rate)) => parse_rate(rate.as_str()),
        _ => None,
    }
}

// A decision that was made before stands, as the rate of all or of none.
fn rate_after(decision: Option<bool>, rate: u32) -> u32
    ensures { result ≡ rate_after decision rate }
{
    match decision {
        None => rate,
        Some(true) => SampleRate::ALL,
        Some(false) => 0,
    }
}

impl Callbacks for Filters {
    ghost meanings = { filter_meanings };

    fn integration_names(&self, alloc: Global) -> Result<Items<Text>, AllocError> {
        Ok(Items::new(alloc))
    }

    fn set_up(&self, _options: &mut PlainOptions) -> Result<(), AllocError> {
        Ok(())
    }

    fn process_event(
        &self,
        _event: &mut Option<Boxed<Event>>,
        _options: &PlainOptions,
    ) -> Result<(), AllocError> {
        Ok(())
    }

    fn enrich_event(&self, event: Event, _options: &PlainOptions) -> Result<Event, AllocError> {
        Ok(event)
    }

    fn before_send(&self, event: &mut Option<Boxed<Event>>) -> Result<(), AllocError> {
        let Some(given) = event.take() else {
            return Ok(());
        };
        *event = name_kept(&self.platform, kept_event(&self.events, given))?;
        Ok(())
    }

    fn before_breadcrumb(
        &self,
        breadcrumbs: Few<Breadcrumb>,
    ) -> Result<Few<Breadcrumb>, AllocError> {
        match &self.breadcrumbs {
            None => Ok(breadcrumbs),
            Some(prefix) => filter_few(prefix.as_str(), breadcrumbs),
        }
    }

    fn before_send_log(&self, log: Log) -> Result<Option<Log>, AllocError> {
        match &self.logs {
            None => Ok(Some(log)),
            Some(prefix) => Ok(filtered_log(prefix.as_str(), log)),
        }
    }

    fn before_send_metric(&self, metric: Metric) -> Result<Option<Metric>, AllocError> {
        match &self.metrics {
            None => Ok(Some(metric)),
            Some(prefix) => Ok(filtered_metric(prefix.as_str(), metric)),
        }
    }

    fn traces_rate(&self, context: &TransactionContext) -> Result<u32, AllocError> {
        match given_rate(context) {
            Some(rate) => Ok(rate),
            None => Ok(rate_after(context.sampled, self.traces)),
        }
    }
}
