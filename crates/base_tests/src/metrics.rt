//! Metrics of each type before they are captured.
use crate::records::is_its_clone;
use sentry_base::protocol::{MetricDraft, Unit};
use sentry_batches::metrics::{IntoProtocolMetric, counter, distribution, gauge};
use std::alloc::{AllocError, Global};
use std::test::Fail;

/// How full a shelf is.
fn room(alloc: Global, shelf: i128) -> Result<MetricDraft, AllocError> {
    let metric = gauge(alloc, "room", 40)?.attribute("shelf", shelf)?;
    Ok(metric.unit(Unit::Percent).into_draft())
}

#[test]
fn a_metric_is_filled_in(rt: HostRuntime) -> Result<(), Fail> {
    let alloc = rt.alloc();
    let are_made = counter(alloc, "lamps", 1).is_ok() & distribution(alloc, "time", 5).is_ok();
    let metric = room(alloc, 1)?;
    let has_parts = metric.unit.is_some() & (metric.attributes.len() == 1);
    let other = room(alloc, 2)?;
    assert!(rt; are_made & has_parts & is_its_clone(metric, other)?);
    Ok(())
}
