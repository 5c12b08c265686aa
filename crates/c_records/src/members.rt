//! Members of objects by their kind. A member that is null counts as absent, and one of another kind is `Unknown`. What
//! is copied may find no memory.
ghost use Rattle.std.specs.Prelude.{◌≡◌, None, IfOk, IfErr, IfSome};
ghost use Rattle.sentry_base.specs.Names.{level_name};
ghost use Rattle.c_base.specs.Faults.{refusal_of};
ghost use Rattle.c_records.specs.Members.{text_under};

use c_base::fault::CallFault;
use sentry_base::protocol::Level;
use sentry_plain::{Items, Text, TextMap, Value, ValueMap};
use std::alloc::Global;

/// A text.
pub fn text_of(value: &Value) -> Result<Text, CallFault>
    ensures { IfErr result (λ fault. refusal_of fault ≡ None) }
{
    match value {
        Value::Text(text) => Ok(text.clone()?),
        _ => Err(CallFault::Unknown),
    }
}

/// A map.
pub fn map_of(value: &Value) -> Result<&ValueMap, CallFault>
    ensures { IfErr result (λ fault. refusal_of fault ≡ None) }
{
    match value {
        Value::Map(members) => Ok(members),
        _ => Err(CallFault::Unknown),
    }
}

/// A list, also as `{"values": [..]}`.
pub fn list_of(value: &Value) -> Result<&[Value], CallFault>
    ensures { IfErr result (λ fault. refusal_of fault ≡ None) }
{
    match value {
        Value::List(items) => Ok(items.as_slice()),
        Value::Map(members) => match members.get("values") {
            Some(Value::List(items)) => Ok(items.as_slice()),
            _ => Err(CallFault::Unknown),
        },
        _ => Err(CallFault::Unknown),
    }
}

/// A member of any kind; none where it is absent or null.
pub fn member<'a>(members: &'a ValueMap, key: &str) -> Option<&'a Value> {
    match members.get(key) {
        None | Some(Value::Null) => None,
        Some(value) => Some(value),
    }
}

/// A member that is a text; none where it is absent.
pub fn text_member(members: &ValueMap, key: &str) -> Result<Option<Text>, CallFault>
    ensures text { IfOk result (λ text. text ≡ text_under members.now key.now) }
    ensures err { IfErr result (λ fault. refusal_of fault ≡ None) }
{
    match members.get(key) {
        None | Some(Value::Null) => Ok(None),
        Some(Value::Text(text)) => Ok(Some(text.clone()?)),
        Some(_) => Err(CallFault::Unknown),
    }
}

/// A member that is a map, copied; the empty one where it is absent.
pub fn map_member(alloc: Global, members: &ValueMap, key: &str) -> Result<ValueMap, CallFault>
    ensures { IfErr result (λ fault. refusal_of fault ≡ None) }
{
    match member(members, key) {
        None => Ok(ValueMap::new(alloc)),
        Some(value) => {
            let map = map_of(value)?;
            Ok(map.clone()?)
        }
    }
}

/// The texts of a map.
pub fn texts_of(alloc: Global, members: &ValueMap) -> Result<TextMap<Text>, CallFault>
    ensures { IfErr result (λ fault. refusal_of fault ≡ None) }
{
    let mut texts = TextMap::new(alloc);
    for (key, value) in members.iter() {
        let text = text_of(value)?;
        texts.insert(Text::from_string(key.clone()?)?, text)?;
    }
    Ok(texts)
}

/// A member that is a map of texts; the empty one where it is absent.
pub fn texts_member(
    alloc: Global,
    members: &ValueMap,
    key: &str,
) -> Result<TextMap<Text>, CallFault>
    ensures { IfErr result (λ fault. refusal_of fault ≡ None) }
{
    match member(members, key) {
        None => Ok(TextMap::new(alloc)),
        Some(value) => {
            let texts = texts_of(alloc, map_of(value)?)?;
            Ok(texts)
        }
    }
}

/// The texts of a list.
pub fn text_items(alloc: Global, values: &[Value]) -> Result<Items<Text>, CallFault>
    ensures { IfErr result (λ fault. refusal_of fault ≡ None) }
{
    let mut texts = Items::new(alloc);
    for value in values {
        let text = text_of(value)?;
        texts.push(text)?;
    }
    Ok(texts)
}

// The level of this name, if one has it.
fn level_named(name: &str) -> Option<Level>
    ensures { IfSome result (λ level. level_name level ≡ name.now) }
{
    match name {
        "debug" => Some(Level::Debug),
        "info" => Some(Level::Info),
        "warning" => Some(Level::Warning),
        "error" => Some(Level::Error),
        "fatal" => Some(Level::Fatal),
        _ => None,
    }
}

/// A level, by its name.
///
/// `Unknown`: the value is no text, or no level has this name.
pub fn level_of(value: &Value) -> Result<Level, CallFault>
    ensures level { IfOk result (λ level. value.now ≡ Value.Text (level_name level)) }
    ensures err { IfErr result (λ fault. refusal_of fault ≡ None) }
{
    let Value::Text(name) = value else {
        return Err(CallFault::Unknown);
    };
    match level_named(name.as_str()) {
        Some(level) => Ok(level),
        None => Err(CallFault::Unknown),
    }
}

/// A member that is a level; this one where it is absent.
pub fn level_member(members: &ValueMap, key: &str, otherwise: Level) -> Result<Level, CallFault>
    ensures { IfErr result (λ fault. refusal_of fault ≡ None) }
{
    match member(members, key) {
        None => Ok(otherwise),
        Some(value) => level_of(value),
    }
}
