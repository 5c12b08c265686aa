//! The options of clients.
use crate::Shown;
use crate::lists::{NONE, push_labeled};
use sentry_options::{
    ClientOptions, EventSamplingStrategy, PlainOptions, SessionMode, TracesSamplingStrategy,
};
use std::alloc::AllocError;

/// What a `client` line can set, but for the DSN, the transport and the callbacks.
impl<C> Shown for ClientOptions<C> {
    fn push_to(&self, text: &mut String) -> Result<(), AllocError> {
        let plain = &self.plain;
        push_labeled(text, "release=", &plain.release)?;
        push_labeled(text, " environment=", &plain.environment)?;
        push_labeled(text, " server=", &plain.server_name)?;
        push_labeled(text, " rate=", &plain.event_sampling_strategy)?;
        push_labeled(text, " traces=", &self.traces_sampling_strategy)?;
        push_labeled(text, " strict=", &plain.strict_trace_continuation)?;
        push_labeled(text, " pii=", &plain.send_default_pii)?;
        push_labeled(text, " org=", &plain.org_id)?;
        push_labeled(text, " mode=", &plain.session_mode)?;
        push_limits(text, plain)?;
        push_labeled(text, " logs=", &plain.enable_logs)?;
        push_labeled(text, " metrics=", &plain.enable_metrics)
    }
}

fn push_limits(text: &mut String, options: &PlainOptions) -> Result<(), AllocError> {
    let crumbs = options.max_breadcrumbs;
    let spans = options.max_spans;
    let items = options.max_batch_items;
    write!(text, " crumbs={crumbs} maxspans={spans} maxbatch={items}")
}

impl Shown for EventSamplingStrategy {
    fn push_to(&self, text: &mut String) -> Result<(), AllocError> {
        match self {
            EventSamplingStrategy::FixedRate(rate) => rate.push_to(text),
        }
    }
}

impl Shown for TracesSamplingStrategy {
    fn push_to(&self, text: &mut String) -> Result<(), AllocError> {
        match self {
            TracesSamplingStrategy::FixedRate(rate) => rate.push_to(text),
            TracesSamplingStrategy::Function => text.push_str("fn"),
            TracesSamplingStrategy::Disabled => text.push_str(NONE),
        }
    }
}

impl Shown for SessionMode {
    fn push_to(&self, text: &mut String) -> Result<(), AllocError> {
        text.push_str(match self {
            SessionMode::Application => "application",
            SessionMode::Request => "request",
        })
    }
}
