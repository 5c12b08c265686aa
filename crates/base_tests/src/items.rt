//! Items of envelopes, and envelopes of one item.
use sentry_base::protocol::{
    Attachment, Category, ClientReport, ClientReportItem, Envelope, EnvelopeItem, Event, Reason,
    Span, SpanId, TraceId, Transaction, Uuid,
};
use sentry_plain::{Boxed, Items, Text};
use std::alloc::{AllocError, Global};

/// The id of which every byte is this one.
pub(crate) fn id(byte: u8) -> Uuid {
    Uuid::from_bytes([byte; 16])
}

/// An event with this id.
pub(crate) fn event(alloc: Global, byte: u8) -> Result<Event, AllocError> {
    Event::new(alloc, id(byte), 5)
}

/// A file of one byte.
pub(crate) fn attachment(alloc: Global) -> Result<EnvelopeItem, AllocError> {
    let mut buffer = Items::new(alloc);
    buffer.push(7)?;
    let filename = Text::new(alloc, "log.txt")?;
    Ok(EnvelopeItem::Attachment(Attachment {
        filename,
        buffer,
        content_type: None,
    }))
}

/// A transaction with two spans.
pub(crate) fn transaction(alloc: Global) -> Result<EnvelopeItem, AllocError> {
    let name = Text::new(alloc, "work")?;
    let mut transaction = Transaction::new(alloc, id(2), name, 5)?;
    transaction.spans.push(span(alloc)?)?;
    transaction.spans.push(span(alloc)?)?;
    Ok(EnvelopeItem::Transaction(Boxed::new(alloc, transaction)?))
}

fn span(alloc: Global) -> Result<Span, AllocError> {
    let mut span = Span::new(alloc, TraceId([1; 16]), SpanId([2; 8]), None, 5);
    span.op = Some(Text::new(alloc, "db.query")?);
    Ok(span)
}

/// A report of one error that a callback dropped.
pub(crate) fn report(alloc: Global) -> Result<EnvelopeItem, AllocError> {
    let mut items = Items::new(alloc);
    items.push(ClientReportItem {
        category: Category::Error,
        reason: Reason::BeforeSend,
        quantity: 1,
    })?;
    Ok(EnvelopeItem::ClientReport(ClientReport { items }))
}

/// An envelope of the item that was made.
pub(crate) fn alone(
    alloc: Global,
    made: Result<EnvelopeItem, AllocError>,
) -> Result<Envelope, AllocError> {
    let mut envelope = Envelope::new(alloc);
    envelope.add_item(made?)?;
    Ok(envelope)
}

/// An envelope of an event with this id.
pub(crate) fn event_alone(alloc: Global, byte: u8) -> Result<Envelope, AllocError> {
    let event = Boxed::new(alloc, event(alloc, byte)?)?;
    alone(alloc, Ok(EnvelopeItem::Event(event)))
}
