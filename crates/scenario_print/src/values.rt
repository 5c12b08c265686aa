//! Values: a text as it is, any other as compact JSON.
use crate::Shown;
use crate::lists::{PLAIN, push_entries};
use sentry_plain::{Value, ValueMap, Values};
use std::alloc::AllocError;

impl Shown for Value {
    fn push_to(&self, text: &mut String) -> Result<(), AllocError> {
        match self {
            Value::Text(value) => text.push_str(value.as_str()),
            value => push_json(text, value),
        }
    }
}

impl Shown for ValueMap {
    fn push_to(&self, text: &mut String) -> Result<(), AllocError> {
        push_entries(text, self.iter(), PLAIN)
    }
}

#[cycle(json)]
fn push_json(text: &mut String, value: &Value) -> Result<(), AllocError> {
    match value {
        Value::Null => text.push_str("null"),
        Value::Bool(truth) => truth.push_to(text),
        Value::Int(number) => write!(text, "{number}"),
        Value::Text(value) => push_quoted(text, value.as_str()),
        Value::List(values) => push_json_list(text, values),
        Value::Map(map) => push_json_map(text, map),
    }
}

#[cycle(json)]
fn push_json_list(text: &mut String, values: &Values) -> Result<(), AllocError> {
    text.push_str("[")?;
    let mut is_first = true;
    for value in values.as_slice() {
        push_comma(text, is_first)?;
        push_json(text, value)?;
        is_first = false;
    }
    text.push_str("]")
}

#[cycle(json)]
fn push_json_map(text: &mut String, map: &ValueMap) -> Result<(), AllocError> {
    text.push_str("{")?;
    let mut is_first = true;
    for (key, value) in map.iter() {
        push_comma(text, is_first)?;
        push_key(text, key.as_str())?;
        push_json(text, value)?;
        is_first = false;
    }
    text.push_str("}")
}

// Nothing stands before the first value.
fn push_comma(text: &mut String, is_first: bool) -> Result<(), AllocError> {
    if is_first {
        return Ok(());
    }
    text.push_str(",")
}

fn push_key(text: &mut String, key: &str) -> Result<(), AllocError> {
    push_quoted(text, key)?;
    text.push_str(":")
}

fn push_quoted(text: &mut String, value: &str) -> Result<(), AllocError> {
    text.push_str("\"")?;
    for letter in value.chars() {
        push_escaped(text, letter)?;
    }
    text.push_str("\"")
}

fn push_escaped(text: &mut String, letter: char) -> Result<(), AllocError> {
    match letter {
        '"' => text.push_str("\\\""),
        '\\' => text.push_str("\\\\"),
        '\n' => text.push_str("\\n"),
        '\r' => text.push_str("\\r"),
        '\t' => text.push_str("\\t"),
        '\u{8}' => text.push_str("\\b"),
        '\u{c}' => text.push_str("\\f"),
        '\0'..='\u{1f}' => {
            let code = u32::from(letter);
            write!(text, "\\u{code:04x}")
        }
        _ => text.push(letter),
    }
}
