//! A log that is filled in part by part.
ghost use Rattle.std.specs.Prelude.{◌≡◌, ◌+◌, ◌%◌, ◌^◌, [], Ok, IfOk, String, string_bytes};
ghost use Rattle.std.specs.Global.{Global};
ghost use Rattle.sentry_base.specs.Records.{new_log};
ghost use Rattle.sentry_plain.specs.declared.value.Value.TheVariants as of_value;
ghost use Rattle.sentry_batches.specs.LogDrafts.{with_attribute, template_key, parameter_key, Fills};

use crate::to_value::ToValue;
use sentry_base::protocol::{Log, LogAttribute, LogLevel};
use sentry_plain::Text;
use std::alloc::{AllocError, Global};

/// A log that is filled in part by part, until memory runs out: then it stays so to the end. Each call takes the draft
/// and gives it on, so that a macro is one expression with one answer.
#[derive(Drop)]
pub struct LogDraft {
    /// The log so far.
    pub log: Result<Log, AllocError>,
    /// How many parameters it has.
    pub parameters: u64,
    alloc: Global,
}

impl LogDraft {
    /// A log of this moment, in nanoseconds since the epoch, without text and attributes.
    pub fn new(alloc: Global, level: LogLevel, now: u64) -> LogDraft
        ensures log { IfOk result.log (λ log. log ≡ new_log level [] now) }
        ensures parameters { result.parameters ≡ 0 }
    {
        LogDraft {
            log: Log::new(alloc, level, "", now),
            parameters: 0,
            alloc,
        }
    }

    /// Sets an attribute. It replaces one of the same key.
    pub fn attribute<V: ToValue>(self, key: &str, value: &V) -> LogDraft
        ensures log { Fills (with_attribute key.now (V.value value.now)) self.log result.log }
        ensures parameters { result.parameters ≡ self.parameters }
    {
        let LogDraft {
            log,
            parameters,
            alloc,
        } = self;
        LogDraft {
            log: set_attribute(alloc, log, key, value),
            parameters,
            alloc,
        }
    }

    /// Sets the attribute of the text with its places for parameters.
    pub fn template(self, template: &str) -> LogDraft
        ensures log { Fills (with_attribute template_key (of_value.Text template.now)) self.log result.log }
        ensures parameters { result.parameters ≡ self.parameters }
    {
        self.attribute("sentry.message.template", &template)
    }

    /// Sets the attribute of the next parameter. The first one is number 0.
    pub fn parameter<V: ToValue>(self, value: &V) -> LogDraft
        ensures log { Fills (with_attribute (parameter_key self.parameters) (V.value value.now)) self.log result.log }
        ensures parameters { result.parameters ≡ (self.parameters + 1) % 2 ^ 64 }
    {
        let LogDraft {
            log,
            parameters,
            alloc,
        } = self;
        LogDraft {
            log: set_parameter(alloc, log, parameters, value),
            parameters: parameters.wrapping_add(1),
            alloc,
        }
    }

    /// The log with this text.
    ///
    /// An allocation failed, here or before.
    pub fn body(self, body: Result<String, AllocError>) -> Result<Log, AllocError>
        ensures { IfOk result (λ log. (text : String Global) × (body ≡ Ok text)
            × Fills (λ before. record before { body = string_bytes text }) self.log result) }
    {
        let LogDraft {
            log,
            parameters: _,
            alloc: _,
        } = self;
        set_body(log, body)
    }
}

// The log with an attribute more.
fn set_attribute<V: ToValue>(
    alloc: Global,
    log: Result<Log, AllocError>,
    key: &str,
    value: &V,
) -> Result<Log, AllocError>
    ensures { Fills (with_attribute key.now (V.value value.now)) log result }
{
    let mut log = log?;
    let key = Text::new(alloc, key)?;
    let value = value.to_value(alloc)?;
    log.attributes.insert(key, LogAttribute(value))?;
    Ok(log)
}

// The log with the attribute of a parameter.
fn set_parameter<V: ToValue>(
    alloc: Global,
    log: Result<Log, AllocError>,
    number: u64,
    value: &V,
) -> Result<Log, AllocError>
    ensures { Fills (with_attribute (parameter_key number) (V.value value.now)) log result }
{
    let key = format!(in alloc; "sentry.message.parameter.{number}")?;
    set_attribute(alloc, log, key.as_str(), value)
}

fn set_body(
    log: Result<Log, AllocError>,
    body: Result<String, AllocError>,
) -> Result<Log, AllocError>
    ensures { IfOk result (λ filled. (text : String Global) × (body ≡ Ok text)
        × Fills (λ before. record before { body = string_bytes text }) log result) }
{
    let mut log = log?;
    log.body = Text::from_string(body?)?;
    Ok(log)
}
