//! How metrics are captured.
use crate::answer::Answer;
use crate::attributes::attributes;
use crate::caller::Caller;
use crate::copies::Copies;
use crate::fault::Failure;
use crate::scenario::{Scenario, client_key, hub_key};
use scenario_commands::attributes::Capturer;
use scenario_commands::metrics::MetricCommand;
use sentry_base::protocol::{MetricDraft, Unit};
use sentry_engine::call::{ClientCall, HubCall};
use sentry_plain::Boxed;
use std::alloc::AllocError;

// A word that names no unit of its own is the name of another one.
fn named_unit(copies: &mut Copies, word: &str) -> Unit {
    match word {
        "millisecond" => Unit::Millisecond,
        "byte" => Unit::Byte,
        "percent" => Unit::Percent,
        _ => Unit::Other(copies.text(word)),
    }
}

fn unit_if_any(copies: &mut Copies, word: Option<&str>) -> Option<Unit> {
    match word {
        Some(word) => Some(named_unit(copies, word)),
        None => None,
    }
}

impl<E: Caller> Scenario<E> {
    /// Captures the metric that a line asks for.
    pub fn capture_metric<'a>(
        &mut self,
        command: &MetricCommand<'_>,
    ) -> Result<Answer<'a>, Failure> {
        let draft = self.draft(command)?;
        let draft = Boxed::new(self.alloc, draft)?;
        let now = self.moment();
        match command.capturer {
            Capturer::Hub(hub) => {
                let hub = hub_key(hub);
                self.call_hub(HubCall::CaptureMetric { hub, draft, now })
            }
            Capturer::Client(client) => {
                let scope = Boxed::new(self.alloc, self.new_scope())?;
                self.call_client(ClientCall::ClientCaptureMetric {
                    client: client_key(client),
                    draft,
                    scope,
                    now,
                })
            }
        }
    }
}

impl<E> Scenario<E> {
    fn draft(&self, command: &MetricCommand<'_>) -> Result<MetricDraft, AllocError> {
        let mut copies = Copies::new(self.alloc);
        let name = copies.text(command.name);
        let unit = unit_if_any(&mut copies, command.unit);
        let attributes = attributes(self.alloc, command.attribute)?;
        copies.finish(MetricDraft {
            metric_type: command.metric_type,
            name,
            value: command.value,
            unit,
            attributes,
        })
    }
}
