//! Items of envelopes.
ghost use Rattle.std.specs.Prelude.{◌≡◌, ◌++◌, IfOk, OnOk};
ghost use Rattle.sentry_framing.specs.Json.{Adds};
ghost use Rattle.sentry_framing.specs.Content.{content_text, content_tokens, record_text, ReadsBack};
ghost use Rattle.sentry_framing.specs.Lines.{item_text};
ghost use Rattle.sentry_framing.specs.Headers.{header_of, IsSendable};
ghost use Rattle.sentry_envelope.specs.Envelopes.{record_header, list_header, attachment_header, item_header, Stacktraces, item_content, item_parts, PayloadReadsBack};

use crate::aggregates::write_aggregates;
use crate::events::write_event;
use crate::logs::write_logs;
use crate::metrics::write_metrics;
use crate::reports::write_report;
use crate::sessions::write_session;
use crate::transactions::write_transaction;
use json::Writer;
use sentry_base::protocol::{Attachment, EnvelopeItem, Value};
use sentry_framing::headers::ItemHeader;
use sentry_framing::lines::push_item;
use std::alloc::{AllocError, Global};

fn record_header(ty: &str) -> ItemHeader<'_>
    ensures { header_of result ≡ record_header ty.now }
{
    ItemHeader {
        ty,
        item_count: None,
        filename: None,
        attachment_type: None,
        content_type: None,
    }
}

fn list_header<'a>(ty: &'a str, count: usize, content_type: &'a str) -> ItemHeader<'a>
    ensures { header_of result ≡ list_header ty.now count content_type.now }
{
    ItemHeader {
        ty,
        item_count: Some(count as u64),
        filename: None,
        attachment_type: None,
        content_type: Some(content_type),
    }
}

fn attachment_header(attachment: &Attachment) -> ItemHeader<'_>
    ensures { header_of result ≡ attachment_header attachment.now }
{
    let content_type = match &attachment.content_type {
        Some(content_type) => content_type.as_str(),
        None => "application/octet-stream",
    };
    ItemHeader {
        ty: "attachment",
        item_count: None,
        filename: Some(attachment.filename.as_str()),
        attachment_type: Some("event.attachment"),
        content_type: Some(content_type),
    }
}

fn item_header(item: &EnvelopeItem) -> ItemHeader<'_>
    ensures { header_of result ≡ item_header item.now }
{
    match item {
        EnvelopeItem::Event(_) => record_header("event"),
        EnvelopeItem::SessionUpdate(_) => record_header("session"),
        EnvelopeItem::SessionAggregates(_) => record_header("sessions"),
        EnvelopeItem::Transaction(_) => record_header("transaction"),
        EnvelopeItem::Attachment(attachment) => attachment_header(attachment),
        EnvelopeItem::Logs(logs) => list_header(
            "log",
            logs.len(),
            "application/vnd.sentry.items.log+json",
        ),
        EnvelopeItem::Metrics(metrics) => list_header(
            "trace_metric",
            metrics.len(),
            "application/vnd.sentry.items.trace-metric+json",
        ),
        EnvelopeItem::ClientReport(_) => record_header("client_report"),
    }
}

// Writes the record that an item is, or its list of records. Of an attachment nothing is written.
fn write_record(
    out: &mut Writer,
    item: &EnvelopeItem,
    stacktraces: &[Option<Value>],
) -> Result<(), AllocError>
    ensures { OnOk result (Adds out.old out.new
        (content_tokens (item_content stacktraces.now item.now))) }
{
    match item {
        EnvelopeItem::Event(event) => write_event(out, event, stacktraces),
        EnvelopeItem::SessionUpdate(session) => write_session(out, session),
        EnvelopeItem::SessionAggregates(aggregates) => write_aggregates(out, aggregates),
        EnvelopeItem::Transaction(transaction) => write_transaction(out, transaction),
        EnvelopeItem::Attachment(_) => Ok(()),
        EnvelopeItem::Logs(logs) => write_logs(out, logs.as_slice()),
        EnvelopeItem::Metrics(metrics) => write_metrics(out, metrics.as_slice()),
        EnvelopeItem::ClientReport(report) => write_report(out, report),
    }
}

fn record_text(
    alloc: Global,
    item: &EnvelopeItem,
    stacktraces: &[Option<Value>],
) -> Result<Vec<u8>, AllocError>
    ensures text { IfOk result (λ text. text.items
        ≡ record_text (item_content stacktraces.now item.now)) }
    ensures reads_back { IfOk result (λ _. PayloadReadsBack stacktraces.now item.now) }
{
    let mut out = Writer::new(Vec::new(alloc));
    write_record(&mut out, item, stacktraces)?;
    let text = out.into_inner();
    Ok(text)
}

// The payload of an item, of whose record this is the text.
fn payload_of<'a>(item: &'a EnvelopeItem, text: &'a [u8]) -> &'a [u8]
    ensures { (stacktraces : Stacktraces) → text.now ≡ record_text (item_content stacktraces item.now)
        → result.now ≡ content_text (item_content stacktraces item.now) }
{
    match item {
        EnvelopeItem::Attachment(attachment) => attachment.buffer.as_slice(),
        EnvelopeItem::Event(_)
        | EnvelopeItem::SessionUpdate(_)
        | EnvelopeItem::SessionAggregates(_)
        | EnvelopeItem::Transaction(_)
        | EnvelopeItem::Logs(_)
        | EnvelopeItem::Metrics(_)
        | EnvelopeItem::ClientReport(_) => text,
    }
}

/// Appends an item of an envelope.
pub fn push_envelope_item(
    alloc: Global,
    text: Vec<u8>,
    item: &EnvelopeItem,
    stacktraces: &[Option<Value>],
) -> Result<Vec<u8>, AllocError>
    ensures text { IfOk result (λ made. made.items
        ≡ text.items ++ item_text (item_parts stacktraces.now item.now)) }
    ensures sendable { IfOk result (λ _. IsSendable (item_parts stacktraces.now item.now)) }
    ensures reads_back { IfOk result (λ _. PayloadReadsBack stacktraces.now item.now) }
{
    let record = record_text(alloc, item, stacktraces)?;
    let payload = payload_of(item, record.as_slice());
    let made = push_item(text, item_header(item), payload)?;
    Ok(made)
}
