//! Envelopes and their items.
use crate::Shown;
use crate::lists::{push_joined, push_labeled, push_list};
use crate::telemetry::push_batch;
use sentry_base::protocol::{
    Attachment, ClientReport, ClientReportItem, DynamicSamplingContext, Envelope, EnvelopeItem,
    SampleRate, TraceId,
};
use std::alloc::AllocError;

/// Puts the line of an envelope of the client of this number at the end of the text.
pub fn push_envelope(
    text: &mut String,
    client: u64,
    envelope: &Envelope,
) -> Result<(), AllocError> {
    write!(text, "envelope {client} ")?;
    if let Some(trace) = &envelope.header.trace {
        trace.push_to(text)?;
    }
    push_joined(text, envelope.items.as_slice(), " | ")?;
    text.push_str("\n")
}

impl Shown for DynamicSamplingContext {
    fn push_to(&self, text: &mut String) -> Result<(), AllocError> {
        push_labeled(text, "[trace=", &self.trace_id)?;
        push_labeled(text, " rate=", &self.sample_rate)?;
        push_labeled(text, " sampled=", &self.sampled)?;
        push_labeled(text, " key=", &self.public_key)?;
        text.push_str("] ")
    }
}

impl Shown for TraceId {
    fn push_to(&self, text: &mut String) -> Result<(), AllocError> {
        let id = *self;
        write!(text, "T{id}")
    }
}

impl Shown for SampleRate {
    fn push_to(&self, text: &mut String) -> Result<(), AllocError> {
        let millionths = self.millionths();
        write!(text, "{millionths}")
    }
}

impl Shown for bool {
    fn push_to(&self, text: &mut String) -> Result<(), AllocError> {
        text.push_str(if *self { "true" } else { "false" })
    }
}

impl Shown for EnvelopeItem {
    fn push_to(&self, text: &mut String) -> Result<(), AllocError> {
        match self {
            EnvelopeItem::Event(event) => event.push_to(text),
            EnvelopeItem::SessionUpdate(update) => update.push_to(text),
            EnvelopeItem::SessionAggregates(aggregates) => aggregates.push_to(text),
            EnvelopeItem::Transaction(transaction) => transaction.push_to(text),
            EnvelopeItem::Attachment(attachment) => attachment.push_to(text),
            EnvelopeItem::Logs(logs) => push_batch(text, "logs", logs),
            EnvelopeItem::Metrics(metrics) => push_batch(text, "metrics", metrics),
            EnvelopeItem::ClientReport(report) => report.push_to(text),
        }
    }
}

/// An attachment is told by its name and how many bytes it has.
impl Shown for Attachment {
    fn push_to(&self, text: &mut String) -> Result<(), AllocError> {
        let name = self.filename.as_str();
        let bytes = self.buffer.len();
        write!(text, "attachment {name} {bytes}")
    }
}

impl Shown for ClientReport {
    fn push_to(&self, text: &mut String) -> Result<(), AllocError> {
        push_list(text, "report ", &self.items, ",")
    }
}

impl Shown for ClientReportItem {
    fn push_to(&self, text: &mut String) -> Result<(), AllocError> {
        let category = self.category.as_str();
        let reason = self.reason.as_str();
        let quantity = self.quantity;
        write!(text, "{category}/{reason}={quantity}")
    }
}
