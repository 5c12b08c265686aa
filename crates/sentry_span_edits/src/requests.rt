//! What a span says of a request.
ghost use Rattle.std.specs.Prelude.{◌≡◌, [], IfOk, OnOk};
ghost use Rattle.std.specs.Option.{option_map};
ghost use Rattle.sentry_plain.specs.Texts.{put};
ghost use Rattle.sentry_plain.specs.ValueView.{data_of, members_from};
ghost use Rattle.sentry_plain.specs.Values.{map_of};
ghost use Rattle.sentry_span_edits.specs.Requests.{body_data, texts_data, put_body, put_text, put_texts, with_request};

use sentry_base::protocol::Request;
use sentry_plain::{Text, TextMap, Value, ValueMap};
use sentry_texts::json::read_json;
use std::alloc::{AllocError, Global};

/// The value of a body that is JSON of whole numbers of 64 bits; any other body is a text.
pub fn body_value(alloc: Global, body: &str) -> Result<Value, AllocError>
    ensures { IfOk result (λ value. data_of value ≡ body_data body.now) }
{
    match read_json(alloc, body)? {
        Some(value) => Ok(value),
        None => Ok(Value::Text(Text::new(alloc, body)?)),
    }
}

// The texts as a map of values.
fn texts_value(alloc: Global, texts: &TextMap<Text>) -> Result<Value, AllocError>
    ensures { IfOk result (λ value. data_of value ≡ texts_data texts.now) }
{
    let mut values = ValueMap::new(alloc);
    for (key, text) in texts.iter() {
        let key = Text::new(alloc, key)?;
        values.insert(key, Value::Text(text.clone()?))?;
    }
    Ok(Value::Map(values))
}

// Puts in a text, if there is one.
fn put_text(
    alloc: Global,
    values: &mut ValueMap,
    key: &str,
    text: &Option<Text>,
) -> Result<(), AllocError>
    ensures { OnOk result (values.new ≡ put_text key.now text.now values.old) }
{
    let Some(text) = text else {
        return Ok(());
    };
    let key = Text::new(alloc, key)?;
    values.insert(key, Value::Text(text.clone()?))?;
    Ok(())
}

// Puts in the body, if there is one.
fn put_body(alloc: Global, values: &mut ValueMap, body: &Option<Text>) -> Result<(), AllocError>
    ensures { OnOk result (values.new ≡ put_body body.now values.old) }
{
    let Some(body) = body else {
        return Ok(());
    };
    let key = Text::new(alloc, "data")?;
    let value = body_value(alloc, body.as_str())?;
    values.insert(key, value)?;
    Ok(())
}

// Puts in texts, if there are any.
fn put_texts(
    alloc: Global,
    values: &mut ValueMap,
    key: &str,
    texts: &TextMap<Text>,
) -> Result<(), AllocError>
    ensures { OnOk result (values.new ≡ put_texts key.now texts.now values.old) }
{
    if texts.is_empty() {
        return Ok(());
    }
    let key = Text::new(alloc, key)?;
    let value = texts_value(alloc, texts)?;
    values.insert(key, value)?;
    Ok(())
}

/// A copy of the data of a span, with what a request says: its method, URL, body, query and cookies where they are
/// there, and its headers and environment variables where there are any.
#[tactic(auto, unfolding(crate::specs::Requests::with_request))]
pub fn with_request(
    alloc: Global,
    values: &ValueMap,
    request: &Request,
) -> Result<ValueMap, AllocError>
    ensures { IfOk result (λ made. made ≡ with_request request.now values.now) }
{
    let mut made = values.clone()?;
    put_text(alloc, &mut made, "method", &request.method)?;
    put_text(alloc, &mut made, "url", &request.url)?;
    put_body(alloc, &mut made, &request.data_)?;
    put_text(alloc, &mut made, "query_string", &request.query_string)?;
    put_text(alloc, &mut made, "cookies", &request.cookies)?;
    put_texts(alloc, &mut made, "headers", &request.headers)?;
    put_texts(alloc, &mut made, "env", &request.env)?;
    Ok(made)
}
