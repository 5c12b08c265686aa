//! What is ready to use: filters by the beginning of a text, and a builder of users.
use crate::workshop::{at, id};
use sentry_core::filters::DropBeginning;
use sentry_core::protocol::{Event, Log, LogLevel, TraceId};
use sentry_core::{
    Breadcrumb, BreadcrumbCallback, EventCallback, LogCallback, MetricCallback, Text, metrics, user,
};
use std::alloc::{AllocError, Global};
use std::test::Fail;

fn event(alloc: Global, message: &str) -> Result<Event, AllocError> {
    let mut event = Event::new(alloc, id(1), at(1))?;
    event.message = Some(Text::new(alloc, message)?);
    Ok(event)
}

fn breadcrumb(alloc: Global, message: &str) -> Result<Breadcrumb, AllocError> {
    let mut breadcrumb = Breadcrumb::new(alloc, at(1))?;
    breadcrumb.message = Some(Text::new(alloc, message)?);
    Ok(breadcrumb)
}

// Whether the filter keeps an event, a breadcrumb, a log and a metric of this text.
fn are_kept(alloc: Global, filter: &DropBeginning, text: &str) -> Result<[bool; 4], AllocError> {
    let log = Log::new(alloc, LogLevel::Info, text, at(1))?;
    let metric = metrics::counter(alloc, text, 1)?;
    let metric = metrics::IntoProtocolMetric::into_draft(metric);
    let metric = metric.into_metric(TraceId([1; 16]), at(1));
    Ok([
        EventCallback::call(filter, event(alloc, text)?)?.is_some(),
        BreadcrumbCallback::call(filter, breadcrumb(alloc, text)?)?.is_some(),
        LogCallback::call(filter, log)?.is_some(),
        MetricCallback::call(filter, metric)?.is_some(),
    ])
}

#[test]
fn what_begins_with_a_text_is_dropped(rt: HostRuntime) -> Result<(), Fail> {
    let alloc = rt.alloc();
    let filter = DropBeginning::new(alloc, "test: ")?;
    let dropped = are_kept(alloc, &filter, "test: a lamp")?;
    let kept = are_kept(alloc, &filter, "a test: a lamp")?;
    assert_eq!(rt; (dropped, kept), ([false; 4], [true; 4]));
    Ok(())
}

// The text, or `-`.
fn or_dash(text: &Option<Text>) -> &str {
    match text {
        Some(text) => text.as_str(),
        None => "-",
    }
}

#[test]
fn a_user_is_built(rt: HostRuntime) -> Result<(), Fail> {
    let ada = user(rt.alloc())
        .id("7")
        .username("ada")
        .email("ada@shop.invalid")
        .ip_address("192.0.2.7")
        .build()?;
    let names = (or_dash(&ada.id), or_dash(&ada.username));
    let addresses = (or_dash(&ada.email), or_dash(&ada.ip_address));
    assert_eq!(rt; names, ("7", "ada"));
    assert_eq!(rt; addresses, ("ada@shop.invalid", "192.0.2.7"));
    Ok(())
}
