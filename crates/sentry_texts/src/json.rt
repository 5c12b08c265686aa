//! JSON texts as values.
ghost use Rattle.std.specs.Prelude.{◌≡◌, [], IfOk};
ghost use Rattle.std.specs.Option.{option_map, option_and_then};
ghost use Rattle.serde_json.specs.View.{view, items_view, members_view, number_view};
ghost use Rattle.serde_json.specs.Read.{read};
ghost use Rattle.sentry_plain.specs.ValueView.{data_of};
ghost use Rattle.sentry_texts.specs.Json.{plain_of, items_onto, members_onto, number_of};

use sentry_plain::{Text, Value, ValueMap, Values};
use serde_json::Map;
use std::alloc::{AllocError, Global};

// The value of JSON whose numbers are all whole numbers of 64 bits.
#[cycle(convert)]
fn value_of(alloc: Global, json: &serde_json::Value) -> Result<Option<Value>, AllocError>
    ensures { IfOk result (λ made. option_map data_of made ≡ plain_of (view json.now)) }
{
    match json {
        serde_json::Value::Null => Ok(Some(Value::Null)),
        serde_json::Value::Bool(b) => Ok(Some(Value::Bool(*b))),
        serde_json::Value::Number(number) => Ok(number_of(number)),
        serde_json::Value::String(text) => Ok(Some(Value::Text(Text::new(alloc, text.as_str())?))),
        serde_json::Value::Array(items) => match values_of(alloc, items)? {
            Some(values) => Ok(Some(Value::List(values))),
            None => Ok(None),
        },
        serde_json::Value::Object(members) => match map_of(alloc, members)? {
            Some(map) => Ok(Some(Value::Map(map))),
            None => Ok(None),
        },
    }
}

// The values of the items of an array.
#[cycle(convert)]
fn values_of(alloc: Global, items: &Vec<serde_json::Value>) -> Result<Option<Values>, AllocError>
    ensures { IfOk result (λ made. made ≡ items_onto [] (items_view items.now.items)) }
{
    let mut values = Values::new(alloc);
    for item in items {
        match value_of(alloc, item)? {
            Some(value) => values.push(value)?,
            None => return Ok(None),
        }
    }
    Ok(Some(values))
}

// The values of the members of an object.
#[cycle(convert)]
fn map_of(
    alloc: Global,
    members: &Map<String, serde_json::Value>,
) -> Result<Option<ValueMap>, AllocError>
    ensures { IfOk result (λ made. made ≡ members_onto [] (members_view members.now.entries)) }
{
    let mut map = ValueMap::new(alloc);
    for (key, member) in members.iter() {
        match value_of(alloc, member)? {
            Some(value) => map.insert(Text::from_string(key.clone()?)?, value)?,
            None => return Ok(None),
        }
    }
    Ok(Some(map))
}

// The value of a whole number of 64 bits.
fn number_of(number: &serde_json::Number) -> Option<Value>
    ensures { option_map data_of result ≡ number_of (number_view number.now) }
{
    if number.is_f64() {
        return None;
    }
    match number.as_i128() {
        Some(n) => Some(Value::Int(n)),
        None => None,
    }
}

/// The value of a text that is JSON, or `None` where it is no JSON, or has a number that is not a whole number of 64
/// bits.
pub fn read_json(alloc: Global, text: &str) -> Result<Option<Value>, AllocError>
    ensures { IfOk result (λ made. option_map data_of made ≡ option_and_then plain_of (read text.now)) }
{
    match serde_json::Value::from_str(alloc, text) {
        Ok(json) => value_of(alloc, &json),
        Err(error) => {
            if error.is_memory() {
                Err(AllocError)
            } else {
                Ok(None)
            }
        }
    }
}
