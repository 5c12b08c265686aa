//! HTTP requests.
ghost use Rattle.std.specs.Prelude.{◌≡◌, OnOk, codes};
ghost use Rattle.json.specs.Tree.{json_tokens};
ghost use Rattle.sentry_framing.specs.Json.{Adds, Puts, optional};
ghost use Rattle.sentry_envelope.specs.Requests.{request_json};

use crate::texts::put_optional;
use crate::write_json::put_text_map;
use json::Writer;
use sentry_base::protocol::Request;
use std::alloc::AllocError;

fn write_request(out: &mut Writer, request: &Request) -> Result<(), AllocError>
    ensures { OnOk result (Adds out.old out.new (json_tokens (request_json request.now))) }
{
    out.begin_object()?;
    put_optional(out, "url", &request.url)?;
    put_optional(out, "method", &request.method)?;
    put_optional(out, "data", &request.data_)?;
    put_optional(out, "query_string", &request.query_string)?;
    put_optional(out, "cookies", &request.cookies)?;
    put_text_map(out, "headers", &request.headers)?;
    put_text_map(out, "env", &request.env)?;
    out.end_object()?;
    Ok(())
}

/// Writes an HTTP request, if there is one.
pub fn put_request(out: &mut Writer, request: &Option<Request>) -> Result<(), AllocError>
    ensures { OnOk result (Puts out.old out.new (optional request_json (codes "request") request.now)) }
{
    match request {
        None => Ok(()),
        Some(request) => {
            out.key("request")?;
            write_request(out, request)?;
            Ok(())
        }
    }
}
