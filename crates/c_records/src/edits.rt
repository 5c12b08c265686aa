//! Edits of a scope: an object with `tags`, `extra` and `contexts`, in which null removes a key, and with `user`,
//! `level`, `fingerprint` and `transaction`, where null removes what was set. What is absent stays.
ghost use Rattle.std.specs.Prelude.{◌≡◌, None, IfErr};
ghost use Rattle.c_base.specs.Faults.{refusal_of};

use crate::members::{level_of, list_of, map_of, text_items, text_of};
use crate::users::user_of;
use c_base::fault::CallFault;
use sentry_base::protocol::Context;
use sentry_plain::{Text, Value, ValueMap};
use sentry_scope::ScopeEdit;
use std::alloc::Global;

// What becomes of a tag.
fn tag_edit<P: Drop>(key: Text, value: &Value) -> Result<ScopeEdit<P>, CallFault>
    ensures { IfErr result (λ fault. refusal_of fault ≡ None) }
{
    if let Value::Null = value {
        return Ok(ScopeEdit::RemoveTag(key));
    }
    let text = text_of(value)?;
    Ok(ScopeEdit::SetTag(key, text))
}

// What becomes of a piece of extra data.
fn extra_edit<P: Drop>(key: Text, value: &Value) -> Result<ScopeEdit<P>, CallFault>
    ensures { IfErr result (λ fault. refusal_of fault ≡ None) }
{
    if let Value::Null = value {
        return Ok(ScopeEdit::RemoveExtra(key));
    }
    let value = value.clone()?;
    Ok(ScopeEdit::SetExtra(key, value))
}

// What becomes of a context.
fn context_edit<P: Drop>(key: Text, value: &Value) -> Result<ScopeEdit<P>, CallFault>
    ensures { IfErr result (λ fault. refusal_of fault ≡ None) }
{
    if let Value::Null = value {
        return Ok(ScopeEdit::RemoveContext(key));
    }
    let map = map_of(value)?;
    let context = Context::Other(map.clone()?);
    Ok(ScopeEdit::SetContext(key, context))
}

/// What an object in an object edits.
#[derive(Clone, Copy)]
enum Entries {
    Tags,
    Extra,
    Contexts,
}

// The edit of one entry.
fn entry_edit<P: Drop>(
    entries: Entries,
    key: Text,
    value: &Value,
) -> Result<ScopeEdit<P>, CallFault>
    ensures { IfErr result (λ fault. refusal_of fault ≡ None) }
{
    match entries {
        Entries::Tags => tag_edit(key, value),
        Entries::Extra => extra_edit(key, value),
        Entries::Contexts => context_edit(key, value),
    }
}

// Appends an edit for each entry of a map.
fn push_entries<P: Drop>(
    edits: &mut Vec<ScopeEdit<P>>,
    entries: Entries,
    members: &ValueMap,
) -> Result<(), CallFault>
    ensures { IfErr result (λ fault. refusal_of fault ≡ None) }
{
    for (key, value) in members.iter() {
        let edit = entry_edit(entries, Text::from_string(key.clone()?)?, value)?;
        edits.reserve(1)?;
        edits.push_reserved(edit);
    }
    Ok(())
}

fn user_edit<P: Drop>(alloc: Global, value: &Value) -> Result<ScopeEdit<P>, CallFault>
    ensures { IfErr result (λ fault. refusal_of fault ≡ None) }
{
    if let Value::Null = value {
        return Ok(ScopeEdit::SetUser(None));
    }
    let user = user_of(alloc, map_of(value)?)?;
    Ok(ScopeEdit::SetUser(Some(user)))
}

fn level_edit<P: Drop>(value: &Value) -> Result<ScopeEdit<P>, CallFault>
    ensures { IfErr result (λ fault. refusal_of fault ≡ None) }
{
    if let Value::Null = value {
        return Ok(ScopeEdit::SetLevel(None));
    }
    let level = level_of(value)?;
    Ok(ScopeEdit::SetLevel(Some(level)))
}

fn fingerprint_edit<P: Drop>(alloc: Global, value: &Value) -> Result<ScopeEdit<P>, CallFault>
    ensures { IfErr result (λ fault. refusal_of fault ≡ None) }
{
    if let Value::Null = value {
        return Ok(ScopeEdit::SetFingerprint(None));
    }
    let texts = text_items(alloc, list_of(value)?)?;
    Ok(ScopeEdit::SetFingerprint(Some(texts)))
}

fn transaction_edit<P: Drop>(value: &Value) -> Result<ScopeEdit<P>, CallFault>
    ensures { IfErr result (λ fault. refusal_of fault ≡ None) }
{
    if let Value::Null = value {
        return Ok(ScopeEdit::SetTransaction(None));
    }
    let name = text_of(value)?;
    Ok(ScopeEdit::SetTransaction(Some(name)))
}

// The edit of what a scope has one of.
fn single_edit<P: Drop>(alloc: Global, name: &str, value: &Value) -> Result<ScopeEdit<P>, CallFault>
    ensures { IfErr result (λ fault. refusal_of fault ≡ None) }
{
    match name {
        "user" => user_edit(alloc, value),
        "level" => level_edit(value),
        "fingerprint" => fingerprint_edit(alloc, value),
        "transaction" => transaction_edit(value),
        _ => Err(CallFault::Unknown),
    }
}

// Appends the edits of one member.
fn push_member<P: Drop>(
    alloc: Global,
    edits: &mut Vec<ScopeEdit<P>>,
    name: &str,
    value: &Value,
) -> Result<(), CallFault>
    ensures { IfErr result (λ fault. refusal_of fault ≡ None) }
{
    match name {
        "tags" => push_entries(edits, Entries::Tags, map_of(value)?),
        "extra" => push_entries(edits, Entries::Extra, map_of(value)?),
        "contexts" => push_entries(edits, Entries::Contexts, map_of(value)?),
        _ => {
            let edit = single_edit(alloc, name, value)?;
            edits.reserve(1)?;
            edits.push_reserved(edit);
            Ok(())
        }
    }
}

/// The edits that an object describes.
///
/// `Unknown`: a member has another name or is of another kind; `OutOfMemory`.
pub fn edits_of<P: Drop>(alloc: Global, members: &ValueMap) -> Result<Vec<ScopeEdit<P>>, CallFault>
    ensures { IfErr result (λ fault. refusal_of fault ≡ None) }
{
    let mut edits = Vec::new(alloc);
    for (name, value) in members.iter() {
        push_member(alloc, &mut edits, name.as_str(), value)?;
    }
    Ok(edits)
}
