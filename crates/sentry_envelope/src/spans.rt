//! Spans.
use crate::breadcrumbs::put_values;
use crate::ids::{put_optional_span_id, put_span_id, put_trace_id};
use crate::statuses::put_status;
use crate::texts::put_optional;
use crate::write_json::{WriteJson, put_text_map};
use json::Writer;
use sentry_base::protocol::Span;
use sentry_framing::members::{put_optional_seconds, put_seconds};
use std::alloc::AllocError;

impl WriteJson for Span {
    ghost use Rattle.sentry_envelope.specs.Spans.{span_json};

    ghost json = { span_json };

    fn write(&self, out: &mut Writer) -> Result<(), AllocError> {
        out.begin_object()?;
        put_span_id(out, "span_id", self.span_id)?;
        put_trace_id(out, "trace_id", self.trace_id)?;
        put_optional_span_id(out, "parent_span_id", self.parent_span_id)?;
        put_optional(out, "op", &self.op)?;
        put_optional(out, "description", &self.description)?;
        put_optional_seconds(out, "timestamp", self.timestamp)?;
        put_seconds(out, "start_timestamp", self.start_timestamp)?;
        put_status(out, self.status)?;
        put_text_map(out, "tags", &self.tags)?;
        put_values(out, "data", &self.data_)?;
        out.end_object()?;
        Ok(())
    }
}
