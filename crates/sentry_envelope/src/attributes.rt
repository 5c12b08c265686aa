//! Attributes of logs and metrics.
ghost use Rattle.std.specs.Prelude.{◌≡◌, IfOk, OnOk, codes};
ghost use Rattle.std.specs.Str.{IsUtf8};
ghost use Rattle.json.specs.Json.{string};
ghost use Rattle.json.specs.Tree.{json_tokens};
ghost use Rattle.sentry_plain.specs.ValueView.{data_of};
ghost use Rattle.sentry_framing.specs.Json.{Adds, Puts, json_text};
ghost use Rattle.sentry_envelope.specs.Attributes.{attribute_json, type_name, typed_value};
ghost use Rattle.sentry_envelope.specs.Members.{map_json, put_map};
ghost use Rattle.sentry_envelope.specs.Values.{value_json};

use crate::values::write_value;
use json::Writer;
use sentry_base::protocol::{LogAttribute, Value};
use sentry_framing::members::put_text;
use sentry_plain::TextMap;
use std::alloc::{AllocError, Global};

fn type_name(value: &Value) -> &'static str
    ensures { result.now ≡ type_name (data_of value.now) }
{
    match value {
        Value::Bool(_) => "boolean",
        Value::Int(_) => "integer",
        Value::Null | Value::Text(_) | Value::List(_) | Value::Map(_) => "string",
    }
}

// The text of a value's JSON.
fn value_text(alloc: Global, value: &Value) -> Result<Vec<u8>, AllocError>
    ensures text { IfOk result (λ text. text.items ≡ json_text (value_json (data_of value.now))) }
    ensures utf8 { IfOk result (λ text. IsUtf8 text.items) }
{
    let mut out = Writer::new(Vec::new(alloc));
    write_value(&mut out, value)?;
    let text = out.into_inner();
    Ok(text)
}

fn write_value_text(out: &mut Writer, alloc: Global, value: &Value) -> Result<(), AllocError>
    ensures { OnOk result (Adds out.old out.new
        (json_tokens (string (json_text (value_json (data_of value.now)))))) }
{
    let text = value_text(alloc, value)?;
    match std::str::from_utf8(text.as_slice()) {
        Ok(text) => {
            out.string(text)?;
            Ok(())
        }
        Err(_) => unreachable!(),
    }
}

fn write_typed_value(out: &mut Writer, alloc: Global, value: &Value) -> Result<(), AllocError>
    ensures { OnOk result (Adds out.old out.new (json_tokens (typed_value (data_of value.now)))) }
{
    match value {
        Value::Bool(_) | Value::Int(_) | Value::Text(_) => write_value(out, value),
        Value::Null | Value::List(_) | Value::Map(_) => write_value_text(out, alloc, value),
    }
}

fn write_attribute(
    out: &mut Writer,
    alloc: Global,
    attribute: &LogAttribute,
) -> Result<(), AllocError>
    ensures { OnOk result (Adds out.old out.new (json_tokens (attribute_json attribute.now))) }
{
    out.begin_object()?;
    out.key("value")?;
    write_typed_value(out, alloc, &attribute.0)?;
    put_text(out, "type", type_name(&attribute.0))?;
    out.end_object()?;
    Ok(())
}

fn write_attributes(
    out: &mut Writer,
    alloc: Global,
    attributes: &TextMap<LogAttribute>,
) -> Result<(), AllocError>
    ensures { OnOk result (Adds out.old out.new (json_tokens (map_json attribute_json attributes.now))) }
{
    out.begin_object()?;
    for (key, attribute) in attributes.iter() {
        out.key(key)?;
        write_attribute(out, alloc, attribute)?;
    }
    out.end_object()?;
    Ok(())
}

/// Writes the attributes of a log or a metric, if there are any.
pub fn put_attributes(
    out: &mut Writer,
    attributes: &TextMap<LogAttribute>,
) -> Result<(), AllocError>
    ensures { OnOk result (Puts out.old out.new
        (put_map attribute_json (codes "attributes") attributes.now)) }
{
    if attributes.is_empty() {
        return Ok(());
    }
    out.key("attributes")?;
    write_attributes(out, attributes.allocator(), attributes)?;
    Ok(())
}
