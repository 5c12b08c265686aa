//! Contexts.
use crate::Shown;
use crate::lists::{MapStyle, push_labeled};
use sentry_base::protocol::{Context, SpanId, SpanStatus, TraceContext};
use std::alloc::AllocError;

/// `KEY:CONTEXT`, joined by semicolons.
pub const CONTEXTS: MapStyle = MapStyle {
    between: ":",
    separator: ";",
};

impl Shown for Context {
    fn push_to(&self, text: &mut String) -> Result<(), AllocError> {
        match self {
            Context::Trace(trace) => trace.push_to(text),
            Context::Os { name, version } => {
                push_labeled(text, "os/", name)?;
                push_labeled(text, "/", version)
            }
            Context::Other(values) => values.push_to(text),
        }
    }
}

impl Shown for TraceContext {
    fn push_to(&self, text: &mut String) -> Result<(), AllocError> {
        self.trace_id.push_to(text)?;
        push_labeled(text, "/", &self.span_id)?;
        push_labeled(text, "/", &self.parent_span_id)?;
        push_labeled(text, "/op=", &self.op)?;
        push_labeled(text, "/description=", &self.description)?;
        push_labeled(text, "/status=", &self.status)?;
        push_labeled(text, "/origin=", &self.origin)?;
        push_labeled(text, "/data=", &self.data_)
    }
}

impl Shown for SpanId {
    fn push_to(&self, text: &mut String) -> Result<(), AllocError> {
        let id = *self;
        write!(text, "S{id}")
    }
}

impl Shown for SpanStatus {
    fn push_to(&self, text: &mut String) -> Result<(), AllocError> {
        text.push_str(self.as_str())
    }
}
