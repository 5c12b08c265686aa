//! Records: an envelope with items of all kinds is equal to its clone, and so is all that it is made of.
use crate::items::{attachment, event, id, report, transaction};
use sentry_base::protocol::{
    Breadcrumb, ClientSdkInfo, ClientSdkPackage, Context, DynamicSamplingContext, Envelope,
    EnvelopeItem, ErrorLink, Event, Exception, Log, LogAttribute, LogLevel, Mechanism, MetricDraft,
    MetricType, Request, SessionAggregateItem, SessionAggregates, SessionAttributes, SessionStatus,
    SessionUpdate, SpanId, TraceContext, TraceId, Unit, User, Value, ValueMap,
};
use sentry_plain::{Boxed, Items, Shared, Text, TextMap};
use std::alloc::{AllocError, Global};
use std::test::Fail;

/// Whether a value is its clone, and isn't another one.
pub(crate) fn is_its_clone<T: Clone + PartialEq + Drop>(
    value: T,
    other: T,
) -> Result<bool, AllocError> {
    let copy = value.clone()?;
    Ok(copy == value && copy != other)
}

fn text(alloc: Global, text: &str) -> Result<Option<Text>, AllocError> {
    Ok(Some(Text::new(alloc, text)?))
}

/// Gives an event a message, a tag and an exception.
fn add_texts(alloc: Global, event: &mut Event) -> Result<(), AllocError> {
    event.message = text(alloc, "boom")?;
    let key = Text::new(alloc, "key")?;
    event.tags.insert(key, Text::new(alloc, "linux")?)?;
    let mechanism = Mechanism {
        ty: Text::new(alloc, "generic")?,
        handled: Some(false),
    };
    event.exception.push(Exception {
        ty: Text::new(alloc, "ParseIntError")?,
        value: None,
        mechanism: Some(mechanism),
    })
}

/// Gives an event a user and a breadcrumb.
fn add_trail(alloc: Global, event: &mut Event) -> Result<(), AllocError> {
    let mut user = User::new(alloc);
    user.id = text(alloc, "ada")?;
    event.user = Some(user);
    let mut breadcrumb = Breadcrumb::new(alloc, 5)?;
    breadcrumb.message = text(alloc, "in")?;
    event.breadcrumbs.push(breadcrumb)
}

fn request(alloc: Global) -> Result<Request, AllocError> {
    Ok(Request {
        method: text(alloc, "GET")?,
        url: text(alloc, "https://shop.invalid")?,
        data_: None,
        query_string: None,
        cookies: None,
        headers: TextMap::new(alloc),
        env: TextMap::new(alloc),
    })
}

/// The place in a trace.
fn trace(alloc: Global) -> Result<Context, AllocError> {
    Ok(Context::Trace(TraceContext {
        trace_id: TraceId([1; 16]),
        span_id: SpanId([2; 8]),
        parent_span_id: None,
        op: text(alloc, "db")?,
        description: None,
        status: None,
        origin: None,
        data_: ValueMap::new(alloc),
    }))
}

/// What made an event, with a package.
fn sdk(alloc: Global) -> Result<Shared<ClientSdkInfo>, AllocError> {
    let mut packages = Items::new(alloc);
    packages.push(ClientSdkPackage {
        name: Text::new(alloc, "package")?,
        version: Text::new(alloc, "1")?,
    })?;
    let sdk = ClientSdkInfo {
        name: Text::new(alloc, "sdk")?,
        version: Text::new(alloc, "1")?,
        packages,
        integrations: Items::new(alloc),
    };
    Shared::new(alloc, sdk)
}

/// An event with parts of all kinds.
fn whole_event(alloc: Global) -> Result<EnvelopeItem, AllocError> {
    let mut event = event(alloc, 9)?;
    add_texts(alloc, &mut event)?;
    add_trail(alloc, &mut event)?;
    event.request = Some(request(alloc)?);
    let key = Text::new(alloc, "trace")?;
    event.contexts.insert(key, trace(alloc)?)?;
    event.sdk = Some(sdk(alloc)?);
    Ok(EnvelopeItem::Event(Boxed::new(alloc, event)?))
}

fn attributes(alloc: Global) -> Result<Shared<SessionAttributes>, AllocError> {
    let attributes = SessionAttributes {
        release: Text::new(alloc, "app@1")?,
        environment: text(alloc, "test")?,
    };
    Shared::new(alloc, attributes)
}

/// An update of a session.
fn update(alloc: Global) -> Result<EnvelopeItem, AllocError> {
    Ok(EnvelopeItem::SessionUpdate(SessionUpdate {
        session_id: id(1),
        distinct_id: text(alloc, "ada")?,
        started: 5,
        init: true,
        duration: Some(1),
        status: SessionStatus::Exited,
        errors: 0,
        attributes: attributes(alloc)?,
    }))
}

/// Counts of sessions.
fn counts(alloc: Global) -> Result<EnvelopeItem, AllocError> {
    let mut aggregates = Items::new(alloc);
    aggregates.push(SessionAggregateItem {
        started: 0,
        distinct_id: text(alloc, "ada")?,
        exited: 1,
        errored: 0,
        abnormal: 0,
        crashed: 0,
    })?;
    Ok(EnvelopeItem::SessionAggregates(SessionAggregates {
        aggregates,
        attributes: attributes(alloc)?,
    }))
}

/// A batch of a log with an attribute.
fn logs(alloc: Global) -> Result<EnvelopeItem, AllocError> {
    let mut log = Log::new(alloc, LogLevel::Info, "the shelf was counted", 5)?;
    let key = Text::new(alloc, "lamps")?;
    log.attributes.insert(key, LogAttribute(Value::Int(7)))?;
    let mut logs = Items::new(alloc);
    logs.push(log)?;
    Ok(EnvelopeItem::Logs(logs))
}

/// A batch of a metric with a unit.
fn metrics(alloc: Global) -> Result<EnvelopeItem, AllocError> {
    let mut draft = MetricDraft::new(alloc, MetricType::Gauge, "room", 5)?;
    draft.unit = Some(Unit::Other(Text::new(alloc, "shelf")?));
    let mut metrics = Items::new(alloc);
    metrics.push(draft.into_metric(TraceId([1; 16]), 5))?;
    Ok(EnvelopeItem::Metrics(metrics))
}

/// How a trace is sampled.
fn sampling(alloc: Global) -> Result<DynamicSamplingContext, AllocError> {
    Ok(DynamicSamplingContext {
        trace_id: None,
        sample_rate: None,
        sampled: Some(true),
        public_key: text(alloc, "public")?,
    })
}

/// Adds an item of each kind.
fn add_items(alloc: Global, envelope: &mut Envelope) -> Result<(), AllocError> {
    envelope.header.trace = Some(sampling(alloc)?);
    envelope.add_item(whole_event(alloc)?)?;
    envelope.add_item(transaction(alloc)?)?;
    envelope.add_item(update(alloc)?)?;
    envelope.add_item(counts(alloc)?)?;
    envelope.add_item(attachment(alloc)?)?;
    envelope.add_item(logs(alloc)?)?;
    envelope.add_item(metrics(alloc)?)?;
    envelope.add_item(report(alloc)?)
}

#[test]
fn envelopes_are_their_clones(rt: HostRuntime) -> Result<(), Fail> {
    let alloc = rt.alloc();
    let mut envelope = Envelope::with_capacity(alloc, 2)?;
    add_items(alloc, &mut envelope)?;
    assert!(rt; is_its_clone(envelope, Envelope::new(alloc))?);
    let link = ErrorLink::new(alloc, "Fault", "it broke")?;
    assert!(rt; is_its_clone(link, ErrorLink::new(alloc, "Cause", "it broke")?)?);
    Ok(())
}
