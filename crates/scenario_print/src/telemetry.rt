//! Logs and metrics, and their batches.
use crate::Shown;
use crate::lists::{PLAIN, push_joined, push_labeled, push_map};
use sentry_base::protocol::{Log, LogAttribute, LogLevel, Metric, MetricType, Unit};
use sentry_plain::Items;
use std::alloc::AllocError;

/// The number of the items of a batch, and each of them in braces.
pub fn push_batch<T: Shown>(
    text: &mut String,
    name: &str,
    items: &Items<T>,
) -> Result<(), AllocError> {
    let count = items.len();
    write!(text, "{name} {count} {{")?;
    push_joined(text, items.as_slice(), "; ")?;
    text.push_str("}")
}

impl Shown for Log {
    fn push_to(&self, text: &mut String) -> Result<(), AllocError> {
        push_labeled(text, "at=", &self.timestamp)?;
        push_labeled(text, " ", &self.level)?;
        push_labeled(text, " ", &self.body)?;
        push_labeled(text, " trace=", &self.trace_id)?;
        text.push_str(" ")?;
        push_map(text, &self.attributes, PLAIN)
    }
}

impl Shown for Metric {
    fn push_to(&self, text: &mut String) -> Result<(), AllocError> {
        let value = self.value;
        push_labeled(text, "at=", &self.timestamp)?;
        push_labeled(text, " ", &self.metric_type)?;
        push_labeled(text, " ", &self.name)?;
        write!(text, " {value}")?;
        push_labeled(text, " ", &self.unit)?;
        push_labeled(text, " trace=", &self.trace_id)?;
        push_labeled(text, " span=", &self.span_id)?;
        text.push_str(" ")?;
        push_map(text, &self.attributes, PLAIN)
    }
}

impl Shown for LogAttribute {
    fn push_to(&self, text: &mut String) -> Result<(), AllocError> {
        self.0.push_to(text)
    }
}

impl Shown for LogLevel {
    fn push_to(&self, text: &mut String) -> Result<(), AllocError> {
        text.push_str(self.as_str())
    }
}

impl Shown for MetricType {
    fn push_to(&self, text: &mut String) -> Result<(), AllocError> {
        text.push_str(self.as_str())
    }
}

impl Shown for Unit {
    fn push_to(&self, text: &mut String) -> Result<(), AllocError> {
        text.push_str(self.as_str())
    }
}
