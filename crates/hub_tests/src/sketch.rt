//! What a transport was handed, as one line of text. Moments are told in whole seconds, and ids as numbers.
use sentry_core::protocol::{
    Context, EnvelopeItem, Event, Log, LogAttribute, Metric, SessionUpdate, SpanStatus,
    Transaction, Value,
};
use sentry_core::{Envelope, Text, TextMap};
use std::alloc::{AllocError, Global};

const SECOND: u64 = 1_000_000_000;

/// The envelopes in order, each after a semicolon, and their items, each after a plus sign but for the first.
pub(crate) fn sketch(alloc: Global, envelopes: &[Envelope]) -> Result<String, AllocError> {
    let mut text = String::new(alloc);
    for envelope in envelopes {
        push_items(&mut text, envelope.items.as_slice())?;
    }
    Ok(text)
}

fn push_items(text: &mut String, items: &[EnvelopeItem]) -> Result<(), AllocError> {
    let mut sign = ';';
    for item in items {
        text.push(sign)?;
        push_item(text, item)?;
        sign = '+';
    }
    Ok(())
}

fn push_item(text: &mut String, item: &EnvelopeItem) -> Result<(), AllocError> {
    match item {
        EnvelopeItem::Event(event) => push_event(text, event),
        EnvelopeItem::SessionUpdate(update) => push_session(text, update),
        EnvelopeItem::Transaction(transaction) => push_transaction(text, transaction),
        EnvelopeItem::Logs(logs) => push_logs(text, logs.as_slice()),
        EnvelopeItem::Metrics(metrics) => push_metrics(text, metrics.as_slice()),
        EnvelopeItem::SessionAggregates(_)
        | EnvelopeItem::Attachment(_)
        | EnvelopeItem::ClientReport(_) => text.push_str(" another item"),
    }
}

// Its id, level and moment, its message, the types of its exceptions, its tags, and the moments of its breadcrumbs.
fn push_event(text: &mut String, event: &Event) -> Result<(), AllocError> {
    let (id, moment) = (event.event_id.as_u128(), event.timestamp / SECOND);
    write!(text, " event {id} {:?} at {moment}", event.level)?;
    if let Some(message) = &event.message {
        write!(text, " {}", message.as_str())?;
    }
    for exception in event.exception.as_slice() {
        write!(text, " {}", exception.ty.as_str())?;
    }
    push_tags(text, &event.tags)?;
    for breadcrumb in event.breadcrumbs.as_slice() {
        write!(text, " after {}", breadcrumb.timestamp / SECOND)?;
    }
    Ok(())
}

fn push_tags(text: &mut String, tags: &TextMap<Text>) -> Result<(), AllocError> {
    for (key, value) in tags.iter() {
        write!(text, " {key}={}", value.as_str())?;
    }
    Ok(())
}

// Its id, status and start, and how long it took.
fn push_session(text: &mut String, update: &SessionUpdate) -> Result<(), AllocError> {
    let (id, started) = (update.session_id.as_u128(), update.started / SECOND);
    write!(text, " session {id} {:?} since {started}", update.status)?;
    push_moment(text, "for", update.duration)
}

// A number of nanoseconds, if there is one.
fn push_moment(text: &mut String, word: &str, moment: Option<u64>) -> Result<(), AllocError> {
    match moment {
        Some(moment) => write!(text, " {word} {}", moment / SECOND),
        None => Ok(()),
    }
}

fn push_status(text: &mut String, status: Option<SpanStatus>) -> Result<(), AllocError> {
    match status {
        Some(status) => write!(text, " {status:?}"),
        None => Ok(()),
    }
}

// The status of a transaction, if it has one.
fn status_of(transaction: &Transaction) -> Option<SpanStatus> {
    match transaction.contexts.get("trace") {
        Some(Context::Trace(trace)) => trace.status,
        _ => None,
    }
}

// Its id, start, end, status and tags, and the ends, statuses and tags of its spans.
fn push_transaction(text: &mut String, transaction: &Transaction) -> Result<(), AllocError> {
    let start = transaction.start_timestamp / SECOND;
    write!(
        text,
        " transaction {} since {start}",
        transaction.event_id.as_u128()
    )?;
    push_moment(text, "until", transaction.timestamp)?;
    push_status(text, status_of(transaction))?;
    push_tags(text, &transaction.tags)?;
    for span in transaction.spans.as_slice() {
        text.push_str(", span")?;
        push_moment(text, "until", span.timestamp)?;
        push_status(text, span.status)?;
        push_tags(text, &span.tags)?;
    }
    Ok(())
}

// The level, moment and text of each log, and its attributes.
fn push_logs(text: &mut String, logs: &[Log]) -> Result<(), AllocError> {
    for log in logs {
        let moment = log.timestamp / SECOND;
        write!(
            text,
            " log {:?} at {moment} {}",
            log.level,
            log.body.as_str()
        )?;
        push_attributes(text, &log.attributes)?;
    }
    Ok(())
}

// The attributes, but for those that each log of the client is filled in with.
fn push_attributes(
    text: &mut String,
    attributes: &TextMap<LogAttribute>,
) -> Result<(), AllocError> {
    for (key, attribute) in attributes.iter() {
        match key {
            "sentry.release" | "sentry.sdk.name" | "sentry.sdk.version" => {}
            key => push_attribute(text, key, &attribute.0)?,
        }
    }
    Ok(())
}

fn push_attribute(text: &mut String, key: &str, value: &Value) -> Result<(), AllocError> {
    match value {
        Value::Bool(value) => write!(text, " {key}={value}"),
        Value::Int(value) => write!(text, " {key}={value}"),
        Value::Text(value) => write!(text, " {key}='{}'", value.as_str()),
        _ => write!(text, " {key}"),
    }
}

// The type, name, value and moment of each metric.
fn push_metrics(text: &mut String, metrics: &[Metric]) -> Result<(), AllocError> {
    for metric in metrics {
        let (name, moment) = (metric.name.as_str(), metric.timestamp / SECOND);
        write!(
            text,
            " {:?} {name}={} at {moment}",
            metric.metric_type, metric.value
        )?;
    }
    Ok(())
}
