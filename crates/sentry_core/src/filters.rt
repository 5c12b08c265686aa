//! Callbacks that are ready to use.
ghost use Rattle.std.specs.Prelude.{◌≡◌, IfOk};
ghost use Rattle.sentry_core.specs.Beginnings.{begins_with, text_or_empty};

use sentry_base::callbacks::{BreadcrumbCallback, EventCallback, LogCallback, MetricCallback};
use sentry_base::protocol::{Breadcrumb, Event, Log, Metric};
use sentry_plain::Text;
use std::alloc::{AllocError, Global};

/// Drops what begins with a text: events and breadcrumbs by their message, logs by their body, metrics by their name. In
/// a box it is a `before_send`, an event processor, a `before_breadcrumb`, a `before_send_log` or a `before_send_metric`.
#[derive(Drop)]
pub struct DropBeginning {
    pub beginning: Text,
}

impl DropBeginning {
    /// Drops what begins with this text.
    ///
    /// An allocation may fail.
    pub fn new(alloc: Global, beginning: &str) -> Result<DropBeginning, AllocError>
        ensures { IfOk result (λ made. made.beginning ≡ beginning.now) }
    {
        Ok(DropBeginning {
            beginning: Text::new(alloc, beginning)?,
        })
    }
}

/// Drops events without a user.
#[derive(Drop)]
pub struct DropUnknownUsers;

impl EventCallback for DropUnknownUsers {
    ghost use Rattle.std.specs.Prelude.{Some, None, is_some, if◌then◌else◌};

    ghost gives = { λ _ event. if is_some event.user then Some event else None };

    fn call(&self, event: Event) -> Result<Option<Event>, AllocError> {
        if event.user.is_none() {
            return Ok(None);
        }
        Ok(Some(event))
    }
}

fn text_or_empty(text: &Option<Text>) -> &str
    ensures { result.now ≡ text_or_empty text.now }
{
    match text {
        Some(message) => message.as_str(),
        None => "",
    }
}

fn begins_with(text: &str, beginning: &Text) -> bool
    ensures { result ≡ begins_with text.now beginning.now }
{
    text.as_bytes().starts_with(beginning.as_str().as_bytes())
}

impl EventCallback for DropBeginning {
    ghost use Rattle.sentry_core.specs.Beginnings.{kept_event};

    ghost gives = { λ filter. kept_event filter.beginning };

    fn call(&self, event: Event) -> Result<Option<Event>, AllocError> {
        if begins_with(text_or_empty(&event.message), &self.beginning) {
            return Ok(None);
        }
        Ok(Some(event))
    }
}

impl BreadcrumbCallback for DropBeginning {
    ghost use Rattle.sentry_core.specs.Beginnings.{kept_breadcrumb};

    ghost gives = { λ filter. kept_breadcrumb filter.beginning };

    fn call(&self, breadcrumb: Breadcrumb) -> Result<Option<Breadcrumb>, AllocError> {
        if begins_with(text_or_empty(&breadcrumb.message), &self.beginning) {
            return Ok(None);
        }
        Ok(Some(breadcrumb))
    }
}

impl LogCallback for DropBeginning {
    ghost use Rattle.sentry_core.specs.Beginnings.{kept_log};

    ghost gives = { λ filter. kept_log filter.beginning };

    fn call(&self, log: Log) -> Result<Option<Log>, AllocError> {
        if begins_with(log.body.as_str(), &self.beginning) {
            return Ok(None);
        }
        Ok(Some(log))
    }
}

impl MetricCallback for DropBeginning {
    ghost use Rattle.sentry_core.specs.Beginnings.{kept_metric};

    ghost gives = { λ filter. kept_metric filter.beginning };

    fn call(&self, metric: Metric) -> Result<Option<Metric>, AllocError> {
        if begins_with(metric.name.as_str(), &self.beginning) {
            return Ok(None);
        }
        Ok(Some(metric))
    }
}
