//! Envelopes that are made into bytes.
use sentry_core::envelope::to_vec;
use sentry_core::protocol::{
    Breadcrumb, Context, Envelope, EnvelopeItem, Event, Refusal, SpanId, TraceContext, TraceId,
    Uuid, ValueMap,
};
use sentry_core::{Boxed, Level, Text};
use std::alloc::{AllocError, Global};

const MOMENT: u64 = 1_700_000_000_123_456_789;

fn breadcrumb(alloc: Global, number: u64) -> Result<Breadcrumb, AllocError> {
    let mut breadcrumb = Breadcrumb::new(
        alloc,
        MOMENT.wrapping_add(number.wrapping_mul(1_000_000)),
    )?;
    breadcrumb.category = Some(Text::new(alloc, "http")?);
    let message = format!(in alloc; "GET /lamps/{number}")?;
    breadcrumb.message = Some(Text::new(alloc, message.as_str())?);
    Ok(breadcrumb)
}

fn add_tag(alloc: Global, event: &mut Event, number: u64) -> Result<(), AllocError> {
    let key = format!(in alloc; "key{number}")?;
    event.tags.insert(Text::new(alloc, key.as_str())?, Text::new(alloc, "value")?)
}

fn add_trace(alloc: Global, event: &mut Event) -> Result<(), AllocError> {
    let trace = TraceContext {
        trace_id: TraceId([7; 16]),
        span_id: SpanId([9; 8]),
        parent_span_id: None,
        op: None,
        description: None,
        status: None,
        origin: None,
        data_: ValueMap::new(alloc),
    };
    event
        .contexts
        .insert(Text::new(alloc, "trace")?, Context::Trace(trace))
}

// An event with ten tags and twenty breadcrumbs, as a client sends it.
fn event(alloc: Global) -> Result<Event, AllocError> {
    let mut event = Event::new(alloc, Uuid::from_u128(0x1234_5678_9abc_def0), MOMENT)?;
    event.level = Level::Error;
    event.message = Some(Text::new(alloc, "the lamps run out")?);
    event.platform = Text::new(alloc, "native")?;
    event.release = Some(Text::new(alloc, "shop@1.0.0")?);
    event.environment = Some(Text::new(alloc, "production")?);
    add_trace(alloc, &mut event)?;
    for number in 0..20u64 {
        event.breadcrumbs.push(breadcrumb(alloc, number)?)?;
    }
    for number in 0..10u64 {
        add_tag(alloc, &mut event, number)?;
    }
    Ok(event)
}

/// How many bytes so many envelopes of an event are together, each made anew.
pub fn write(alloc: Global, turns: u64) -> Result<u64, Refusal> {
    let mut envelope = Envelope::new(alloc);
    envelope.add_item(EnvelopeItem::Event(Boxed::new(alloc, event(alloc)?)?))?;
    let mut bytes = 0u64;
    for _ in 0..turns {
        bytes = bytes.wrapping_add(to_vec(alloc, &envelope)?.len() as u64);
    }
    Ok(bytes)
}
