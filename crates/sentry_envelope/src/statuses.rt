//! How spans ended.
ghost use Rattle.std.specs.Prelude.{OnOk, codes};
ghost use Rattle.sentry_framing.specs.Json.{Puts, optional};
ghost use Rattle.sentry_envelope.specs.Statuses.{span_status_json};

use json::Writer;
use sentry_base::protocol::SpanStatus;
use sentry_framing::members::put_text;
use std::alloc::AllocError;

/// Writes how a span ended, if it is known.
pub fn put_status(out: &mut Writer, status: Option<SpanStatus>) -> Result<(), AllocError>
    ensures { OnOk result (Puts out.old out.new (optional span_status_json (codes "status") status)) }
{
    match status {
        None => Ok(()),
        Some(status) => {
            put_text(out, "status", status.as_str())?;
            Ok(())
        }
    }
}
