//! Metrics.
ghost use Rattle.std.specs.Prelude.{OnOk, codes};
ghost use Rattle.std.specs.Fmt.{signed_decimal};
ghost use Rattle.json.specs.Json.{member, number};
ghost use Rattle.json.specs.Tree.{json_tokens};
ghost use Rattle.sentry_framing.specs.Json.{Adds, Puts, optional};
ghost use Rattle.sentry_envelope.specs.Metrics.{metrics_json, unit_json};

use crate::attributes::put_attributes;
use crate::ids::{put_optional_span_id, put_trace_id};
use crate::write_json::{WriteJson, write_items};
use json::Writer;
use sentry_base::protocol::{Metric, Unit};
use sentry_framing::members::{put_seconds, put_text};
use std::alloc::AllocError;

fn put_unit(out: &mut Writer, unit: &Option<Unit>) -> Result<(), AllocError>
    ensures { OnOk result (Puts out.old out.new (optional unit_json (codes "unit") unit.now)) }
{
    match unit {
        None => Ok(()),
        Some(unit) => {
            put_text(out, "unit", unit.as_str())?;
            Ok(())
        }
    }
}

fn put_amount(out: &mut Writer, metric: &Metric) -> Result<(), AllocError>
    ensures { OnOk result (Puts out.old out.new
        (member (codes "value") (number (signed_decimal metric.now.value)))) }
{
    out.key("value")?;
    out.i64(metric.value)?;
    Ok(())
}

impl WriteJson for Metric {
    ghost use Rattle.sentry_envelope.specs.Metrics.{metric_json};

    ghost json = { metric_json };

    fn write(&self, out: &mut Writer) -> Result<(), AllocError> {
        out.begin_object()?;
        put_text(out, "type", self.metric_type.as_str())?;
        put_text(out, "name", self.name.as_str())?;
        put_amount(out, self)?;
        put_seconds(out, "timestamp", self.timestamp)?;
        put_trace_id(out, "trace_id", self.trace_id)?;
        put_optional_span_id(out, "span_id", self.span_id)?;
        put_unit(out, &self.unit)?;
        put_attributes(out, &self.attributes)?;
        out.end_object()?;
        Ok(())
    }
}

/// Writes a batch of metrics.
pub fn write_metrics(out: &mut Writer, metrics: &[Metric]) -> Result<(), AllocError>
    ensures { OnOk result (Adds out.old out.new (json_tokens (metrics_json metrics.now))) }
{
    out.begin_object()?;
    out.key("items")?;
    write_items(out, metrics)?;
    out.end_object()?;
    Ok(())
}
