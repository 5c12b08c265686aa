//! Logs.
ghost use Rattle.std.specs.Prelude.{OnOk};
ghost use Rattle.json.specs.Tree.{json_tokens};
ghost use Rattle.sentry_framing.specs.Json.{Adds};
ghost use Rattle.sentry_envelope.specs.Logs.{logs_json};

use crate::attributes::put_attributes;
use crate::ids::put_optional_trace_id;
use crate::write_json::{WriteJson, write_items};
use json::Writer;
use sentry_base::protocol::Log;
use sentry_framing::members::{put_seconds, put_text};
use std::alloc::AllocError;

impl WriteJson for Log {
    ghost use Rattle.sentry_envelope.specs.Logs.{log_json};

    ghost json = { log_json };

    fn write(&self, out: &mut Writer) -> Result<(), AllocError> {
        out.begin_object()?;
        put_text(out, "level", self.level.as_str())?;
        put_text(out, "body", self.body.as_str())?;
        put_optional_trace_id(out, "trace_id", self.trace_id)?;
        put_seconds(out, "timestamp", self.timestamp)?;
        put_attributes(out, &self.attributes)?;
        out.end_object()?;
        Ok(())
    }
}

/// Writes a batch of logs.
pub fn write_logs(out: &mut Writer, logs: &[Log]) -> Result<(), AllocError>
    ensures { OnOk result (Adds out.old out.new (json_tokens (logs_json logs.now))) }
{
    out.begin_object()?;
    out.key("items")?;
    write_items(out, logs)?;
    out.end_object()?;
    Ok(())
}
