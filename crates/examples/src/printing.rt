//! A transport that prints.
use sentry_core::engine::Out;
use sentry_core::protocol::{
    ClientReport, Context, EnvelopeItem, Event, Exception, Log, LogAttribute, Metric, Request,
    SessionAggregates, TraceContext, Transaction, Value,
};
use sentry_core::{Breadcrumb, Envelope, Text, TextMap, Transport};
use std::io;

/// Nanoseconds in a minute.
const MINUTE: u64 = 60_000_000_000;

/// Prints what it is to send. A real transport sends it, and counts what it loses.
#[derive(Drop)]
pub struct Printer<R>(pub R);

impl<R: Print> Transport for Printer<R> {
    fn send_envelope(&self, envelope: Envelope) {
        // a transport has no one to tell of a line that can't be printed
        drop(print_envelope(&self.0, &envelope));
    }
}

fn print_envelope(rt: &impl Print, envelope: &Envelope) -> io::Result<()> {
    println!(rt; "an envelope")?;
    print_items(rt, envelope.items.as_slice())
}

/// Prints the envelopes that a call of an engine handed out. A real program gives them to a transport.
pub fn print_sent<T>(rt: &impl Print, out: &Out<T>) -> io::Result<()> {
    for (client, envelope) in out.sent.as_slice() {
        match envelope.header.event_id {
            Some(id) => println!(rt; "client {} sends envelope {}", client.number, id.simple())?,
            None => println!(rt; "client {} sends an envelope", client.number)?,
        }
        print_items(rt, envelope.items.as_slice())?;
    }
    Ok(())
}

fn print_items(rt: &impl Print, items: &[EnvelopeItem]) -> io::Result<()> {
    for item in items {
        print_item(rt, item)?;
    }
    Ok(())
}

fn print_item(rt: &impl Print, item: &EnvelopeItem) -> io::Result<()> {
    match item {
        EnvelopeItem::Event(event) => print_event(rt, event),
        EnvelopeItem::Transaction(transaction) => print_transaction(rt, transaction),
        EnvelopeItem::SessionUpdate(update) => {
            println!(rt; "  session {:?}, errors: {}", update.status, update.errors)
        }
        EnvelopeItem::SessionAggregates(counts) => print_counts(rt, counts),
        EnvelopeItem::Logs(logs) => print_logs(rt, logs.as_slice()),
        EnvelopeItem::Metrics(metrics) => print_metrics(rt, metrics.as_slice()),
        EnvelopeItem::ClientReport(report) => print_report(rt, report),
        EnvelopeItem::Attachment(_) => println!(rt; "  an attachment"),
    }
}

fn text_or_dash(text: &Option<Text>) -> &str {
    match text {
        Some(text) => text.as_str(),
        None => "-",
    }
}

fn print_event(rt: &impl Print, event: &Event) -> io::Result<()> {
    let message = text_or_dash(&event.message);
    println!(rt; "  event {:?}: {message}", event.level)?;
    println!(rt;
        "    transaction {}, release {}, environment {}, server {}",
        text_or_dash(&event.transaction),
        text_or_dash(&event.release),
        text_or_dash(&event.environment),
        text_or_dash(&event.server_name)
    )?;
    print_request(rt, &event.request)?;
    for (key, value) in event.tags.iter() {
        println!(rt; "    tag {key}={}", value.as_str())?;
    }
    for (key, value) in event.extra.iter() {
        print_attribute(rt, key, value)?;
    }
    print_trail(rt, event.breadcrumbs.as_slice(), event.exception.as_slice())?;
    print_trace(rt, &event.contexts)
}

// What led to an event.
fn print_trail(
    rt: &impl Print,
    breadcrumbs: &[Breadcrumb],
    errors: &[Exception],
) -> io::Result<()> {
    for breadcrumb in breadcrumbs {
        let category = text_or_dash(&breadcrumb.category);
        let message = text_or_dash(&breadcrumb.message);
        println!(rt; "    after {:?} {category}: {message}", breadcrumb.level)?;
    }
    for error in errors {
        println!(rt; "    {}: {}", error.ty.as_str(), text_or_dash(&error.value))?;
    }
    Ok(())
}

fn print_transaction(rt: &impl Print, transaction: &Transaction) -> io::Result<()> {
    println!(rt; "  transaction {}", text_or_dash(&transaction.name))?;
    print_request(rt, &transaction.request)?;
    if let Some(Context::Trace(trace)) = transaction.contexts.get("trace") {
        println!(rt; "    operation {}", text_or_dash(&trace.op))?;
    }
    print_trace(rt, &transaction.contexts)
}

fn print_request(rt: &impl Print, request: &Option<Request>) -> io::Result<()> {
    if let Some(request) = request {
        let method = text_or_dash(&request.method);
        println!(rt; "    request {method} {}", text_or_dash(&request.url))?;
    }
    Ok(())
}

fn print_trace(rt: &impl Print, contexts: &TextMap<Context>) -> io::Result<()> {
    if let Some(Context::Trace(trace)) = contexts.get("trace") {
        match trace.parent_span_id {
            Some(parent) => println!(rt; "    in trace {}, below {parent}", trace.trace_id)?,
            None => println!(rt; "    in a trace of its own")?,
        }
        print_status(rt, trace)?;
    }
    Ok(())
}

fn print_status(rt: &impl Print, trace: &TraceContext) -> io::Result<()> {
    if let Some(Value::Int(code)) = trace.data_.get("http.response.status_code") {
        println!(rt; "    response {code}")?;
    }
    if let Some(status) = trace.status {
        println!(rt; "    status {status:?}")?;
    }
    Ok(())
}

fn print_counts(rt: &impl Print, counts: &SessionAggregates) -> io::Result<()> {
    println!(rt; "  sessions of {}", counts.attributes.release.as_str())?;
    for count in counts.aggregates.as_slice() {
        let minute = count.started / MINUTE;
        let user = text_or_dash(&count.distinct_id);
        println!(rt;
            "    minute {minute}, {user}: {} exited, {} errored, {} crashed",
            count.exited, count.errored, count.crashed
        )?;
    }
    Ok(())
}

fn print_logs(rt: &impl Print, logs: &[Log]) -> io::Result<()> {
    for log in logs {
        println!(rt; "  log {:?}: {}", log.level, log.body.as_str())?;
        print_attributes(rt, &log.attributes)?;
    }
    Ok(())
}

fn print_metrics(rt: &impl Print, metrics: &[Metric]) -> io::Result<()> {
    for metric in metrics {
        let name = metric.name.as_str();
        println!(rt;
            "  metric {:?} {name}: {}",
            metric.metric_type, metric.value
        )?;
        print_attributes(rt, &metric.attributes)?;
    }
    Ok(())
}

fn print_attributes(rt: &impl Print, attributes: &TextMap<LogAttribute>) -> io::Result<()> {
    for (key, value) in attributes.iter() {
        print_attribute(rt, key, &value.0)?;
    }
    Ok(())
}

fn print_attribute(rt: &impl Print, key: &str, value: &Value) -> io::Result<()> {
    match value {
        Value::Int(number) => println!(rt; "    {key}={number}"),
        Value::Text(text) => println!(rt; "    {key}={}", text.as_str()),
        _ => println!(rt; "    {key}"),
    }
}

fn print_report(rt: &impl Print, report: &ClientReport) -> io::Result<()> {
    for item in report.items.as_slice() {
        let category = item.category;
        let reason = item.reason;
        println!(rt; "  report {category:?} {reason:?} {}", item.quantity)?;
    }
    Ok(())
}
