//! Ids of traces and spans.
ghost use Rattle.std.specs.Prelude.{◌≡◌, ◌*◌, OnOk, length};
ghost use Rattle.hex.specs.Hex.{encode_lower};
ghost use Rattle.json.specs.Json.{member, string};
ghost use Rattle.sentry_framing.specs.Json.{Puts, optional};
ghost use Rattle.sentry_envelope.specs.Ids.{span_id_json, trace_id_json};

use json::Writer;
use sentry_base::protocol::{SpanId, TraceId};
use sentry_framing::members::put_text;
use std::alloc::AllocError;

// Writes the hexadecimal digits of bytes. `digits` is room for them, two for each byte.
fn put_digits(
    out: &mut Writer,
    key: &str,
    bytes: &[u8],
    digits: &mut [u8],
) -> Result<(), AllocError>
    requires { length digits.old ≡ 2 * length bytes.now }
    ensures { OnOk result (Puts out.old out.new (member key.now (string (encode_lower bytes.now)))) }
{
    match hex::encode_to_slice(bytes, digits) {
        Ok(()) => match std::str::from_utf8(digits) {
            Ok(text) => {
                put_text(out, key, text)?;
                Ok(())
            }
            Err(_) => unreachable!(),
        },
        Err(_) => unreachable!(),
    }
}

/// Writes the id of a trace.
pub fn put_trace_id(out: &mut Writer, key: &str, id: TraceId) -> Result<(), AllocError>
    ensures { OnOk result (Puts out.old out.new (member key.now (trace_id_json id))) }
{
    put_digits(out, key, &id.0, &mut [0; 32])?;
    Ok(())
}

/// Writes the id of a trace, if there is one.
pub fn put_optional_trace_id(
    out: &mut Writer,
    key: &str,
    id: Option<TraceId>,
) -> Result<(), AllocError>
    ensures { OnOk result (Puts out.old out.new (optional trace_id_json key.now id)) }
{
    match id {
        None => Ok(()),
        Some(id) => {
            put_trace_id(out, key, id)?;
            Ok(())
        }
    }
}

/// Writes the id of a span.
pub fn put_span_id(out: &mut Writer, key: &str, id: SpanId) -> Result<(), AllocError>
    ensures { OnOk result (Puts out.old out.new (member key.now (span_id_json id))) }
{
    put_digits(out, key, &id.0, &mut [0; 16])?;
    Ok(())
}

/// Writes the id of a span, if there is one.
pub fn put_optional_span_id(
    out: &mut Writer,
    key: &str,
    id: Option<SpanId>,
) -> Result<(), AllocError>
    ensures { OnOk result (Puts out.old out.new (optional span_id_json key.now id)) }
{
    match id {
        None => Ok(()),
        Some(id) => {
            put_span_id(out, key, id)?;
            Ok(())
        }
    }
}
