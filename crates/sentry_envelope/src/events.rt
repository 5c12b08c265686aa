//! Events.
ghost use Rattle.std.specs.Prelude.{◌≡◌, OnOk, None, codes, get_or};
ghost use Rattle.json.specs.Json.{array, boolean};
ghost use Rattle.json.specs.Tree.{json_tokens};
ghost use Rattle.sentry_framing.specs.Json.{Adds, Puts, items_of, optional};
ghost use Rattle.sentry_envelope.specs.Breadcrumbs.{breadcrumb_json};
ghost use Rattle.sentry_envelope.specs.Events.{put_list, mechanism_json, stacktrace_json, exception_json, exceptions_json, put_exceptions, event_json};

use crate::breadcrumbs::put_values;
use crate::requests::put_request;
use crate::sdks::put_sdk;
use crate::texts::{put_optional, put_simple};
use crate::users::put_user;
use crate::values::write_value;
use crate::write_json::{put_text_map, write_items};
use json::Writer;
use sentry_base::protocol::{Breadcrumb, Event, Exception, Mechanism, Value};
use sentry_framing::members::{put_boolean, put_seconds, put_text};
use std::alloc::AllocError;

fn put_breadcrumbs(out: &mut Writer, breadcrumbs: &[Breadcrumb]) -> Result<(), AllocError>
    ensures { OnOk result (Puts out.old out.new (put_list breadcrumb_json (codes "breadcrumbs") breadcrumbs.now)) }
{
    if breadcrumbs.is_empty() {
        return Ok(());
    }
    out.key("breadcrumbs")?;
    out.begin_object()?;
    out.key("values")?;
    write_items(out, breadcrumbs)?;
    out.end_object()?;
    Ok(())
}

fn put_handled(out: &mut Writer, handled: Option<bool>) -> Result<(), AllocError>
    ensures { OnOk result (Puts out.old out.new (optional boolean (codes "handled") handled)) }
{
    match handled {
        None => Ok(()),
        Some(handled) => {
            put_boolean(out, "handled", handled)?;
            Ok(())
        }
    }
}

fn write_mechanism(out: &mut Writer, mechanism: &Mechanism) -> Result<(), AllocError>
    ensures { OnOk result (Adds out.old out.new (json_tokens (mechanism_json mechanism.now))) }
{
    out.begin_object()?;
    put_text(out, "type", mechanism.ty.as_str())?;
    put_handled(out, mechanism.handled)?;
    out.end_object()?;
    Ok(())
}

fn put_mechanism(out: &mut Writer, mechanism: &Option<Mechanism>) -> Result<(), AllocError>
    ensures { OnOk result (Puts out.old out.new (optional mechanism_json (codes "mechanism") mechanism.now)) }
{
    match mechanism {
        None => Ok(()),
        Some(mechanism) => {
            out.key("mechanism")?;
            write_mechanism(out, mechanism)?;
            Ok(())
        }
    }
}

fn put_stacktrace(out: &mut Writer, stacktrace: &Option<Value>) -> Result<(), AllocError>
    ensures { OnOk result (Puts out.old out.new
        (optional stacktrace_json (codes "stacktrace") stacktrace.now)) }
{
    match stacktrace {
        None => Ok(()),
        Some(stacktrace) => {
            out.key("stacktrace")?;
            write_value(out, stacktrace)?;
            Ok(())
        }
    }
}

// Writes the stack trace at an index, if there is one.
fn put_stacktrace_at(
    out: &mut Writer,
    stacktraces: &[Option<Value>],
    index: usize,
) -> Result<(), AllocError>
    ensures { OnOk result (Puts out.old out.new
        (optional stacktrace_json (codes "stacktrace") (get_or stacktraces.now index None))) }
{
    if index < stacktraces.len() {
        put_stacktrace(out, &stacktraces[index])?;
    }
    Ok(())
}

fn write_exception(
    out: &mut Writer,
    exception: &Exception,
    stacktraces: &[Option<Value>],
    index: usize,
) -> Result<(), AllocError>
    ensures { OnOk result (Adds out.old out.new
        (json_tokens (exception_json (get_or stacktraces.now index None) exception.now))) }
{
    out.begin_object()?;
    put_text(out, "type", exception.ty.as_str())?;
    put_optional(out, "value", &exception.value)?;
    put_mechanism(out, &exception.mechanism)?;
    put_stacktrace_at(out, stacktraces, index)?;
    out.end_object()?;
    Ok(())
}

fn write_exceptions(
    out: &mut Writer,
    exceptions: &[Exception],
    stacktraces: &[Option<Value>],
) -> Result<(), AllocError>
    ensures { OnOk result (Adds out.old out.new
        (json_tokens (array (exceptions_json stacktraces.now 0 exceptions.now)))) }
{
    out.begin_array()?;
    let mut index = 0;
    while index < exceptions.len() {
        write_exception(out, &exceptions[index], stacktraces, index)?;
        index += 1;
    }
    out.end_array()?;
    Ok(())
}

fn put_exceptions(
    out: &mut Writer,
    exceptions: &[Exception],
    stacktraces: &[Option<Value>],
) -> Result<(), AllocError>
    ensures { OnOk result (Puts out.old out.new (put_exceptions stacktraces.now exceptions.now)) }
{
    if exceptions.is_empty() {
        put_stacktrace_at(out, stacktraces, 0)?;
        return Ok(());
    }
    out.key("exception")?;
    out.begin_object()?;
    out.key("values")?;
    write_exceptions(out, exceptions, stacktraces)?;
    out.end_object()?;
    Ok(())
}

/// Writes an event, with the stack traces of its exceptions.
pub fn write_event(
    out: &mut Writer,
    event: &Event,
    stacktraces: &[Option<Value>],
) -> Result<(), AllocError>
    ensures { OnOk result (Adds out.old out.new
        (json_tokens (event_json stacktraces.now event.now))) }
{
    out.begin_object()?;
    put_simple(out, "event_id", event.event_id)?;
    put_text(out, "level", event.level.as_str())?;
    out.key("fingerprint")?;
    write_items(out, event.fingerprint.as_slice())?;
    put_optional(out, "transaction", &event.transaction)?;
    put_optional(out, "message", &event.message)?;
    put_text(out, "platform", event.platform.as_str())?;
    put_seconds(out, "timestamp", event.timestamp)?;
    put_optional(out, "server_name", &event.server_name)?;
    put_optional(out, "release", &event.release)?;
    put_optional(out, "environment", &event.environment)?;
    put_user(out, &event.user)?;
    put_request(out, &event.request)?;
    put_text_map(out, "contexts", &event.contexts)?;
    put_breadcrumbs(out, event.breadcrumbs.as_slice())?;
    put_exceptions(out, event.exception.as_slice(), stacktraces)?;
    put_text_map(out, "tags", &event.tags)?;
    put_values(out, "extra", &event.extra)?;
    put_sdk(out, &event.sdk)?;
    out.end_object()?;
    Ok(())
}
