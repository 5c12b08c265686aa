//! Contexts.
ghost use Rattle.std.specs.Prelude.{◌≡◌, OnOk};
ghost use Rattle.json.specs.Tree.{json_tokens};
ghost use Rattle.sentry_framing.specs.Json.{Adds};
ghost use Rattle.sentry_envelope.specs.Contexts.{os_json, other_json, trace_context_json};

use crate::breadcrumbs::put_values;
use crate::ids::{put_optional_span_id, put_span_id, put_trace_id};
use crate::own_members::{OwnMembers, put_others};
use crate::statuses::put_status;
use crate::texts::put_optional;
use crate::write_json::WriteJson;
use json::Writer;
use sentry_base::protocol::{Context, TraceContext, ValueMap};
use sentry_framing::members::put_text;
use sentry_plain::Text;
use std::alloc::AllocError;

fn write_trace_context(out: &mut Writer, trace: &TraceContext) -> Result<(), AllocError>
    ensures { OnOk result (Adds out.old out.new (json_tokens (trace_context_json trace.now))) }
{
    out.begin_object()?;
    put_text(out, "type", "trace")?;
    put_span_id(out, "span_id", trace.span_id)?;
    put_trace_id(out, "trace_id", trace.trace_id)?;
    put_optional_span_id(out, "parent_span_id", trace.parent_span_id)?;
    put_optional(out, "op", &trace.op)?;
    put_optional(out, "description", &trace.description)?;
    put_values(out, "data", &trace.data_)?;
    put_status(out, trace.status)?;
    put_optional(out, "origin", &trace.origin)?;
    out.end_object()?;
    Ok(())
}

fn write_os(out: &mut Writer, name: &Option<Text>, version: &Option<Text>) -> Result<(), AllocError>
    ensures { OnOk result (Adds out.old out.new (json_tokens (os_json name.now version.now))) }
{
    out.begin_object()?;
    put_text(out, "type", "os")?;
    put_optional(out, "name", name)?;
    put_optional(out, "version", version)?;
    out.end_object()?;
    Ok(())
}

// What a context of no kind that is known here has beside its values: a type.
struct Untyped;

impl OwnMembers for Untyped {
    ghost use Rattle.sentry_envelope.specs.Contexts.{other_own};

    ghost own = { λ _. other_own };

    fn has_own(&self, name: &str) -> bool {
        name == "type"
    }
}

fn write_other(out: &mut Writer, values: &ValueMap) -> Result<(), AllocError>
    ensures { OnOk result (Adds out.old out.new (json_tokens (other_json values.now))) }
{
    out.begin_object()?;
    put_text(out, "type", "unknown")?;
    put_others(out, &Untyped, values)?;
    out.end_object()?;
    Ok(())
}

impl WriteJson for Context {
    ghost use Rattle.sentry_envelope.specs.Contexts.{context_json};

    ghost json = { context_json };

    fn write(&self, out: &mut Writer) -> Result<(), AllocError> {
        match self {
            Context::Trace(trace) => write_trace_context(out, trace),
            Context::Os { name, version } => write_os(out, name, version),
            Context::Other(values) => write_other(out, values),
        }
    }
}
