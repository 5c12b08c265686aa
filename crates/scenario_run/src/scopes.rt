//! How the top scope of a hub is edited. `configure` serves all of its commands.
use crate::answer::Answer;
use crate::callbacks::Handler;
use crate::caller::Caller;
use crate::copies::Copies;
use crate::fault::Failure;
use crate::scenario::{Scenario, hub_key};
use crate::spans::span_key;
use scenario_commands::scopes::{Entry, Identity, Role, ScopeChange, ScopeCommand};
use sentry_base::protocol::{Attachment, Context, Fresh, User, Value, ValueMap};
use sentry_engine::call::HubCall;
use sentry_plain::{Items, Text};
use sentry_scope::ScopeEdit;
use std::alloc::{AllocError, Global};

/// The words of a text. The empty text has none.
fn split_words(alloc: Global, text: &str) -> Result<Items<Text>, AllocError> {
    let mut list = Items::new(alloc);
    if text.is_empty() {
        return Ok(list);
    }
    for word in text.split(' ') {
        list.push(Text::new(alloc, word)?)?;
    }
    Ok(list)
}

fn fingerprint(alloc: Global, text: Option<&str>) -> Result<Option<Items<Text>>, AllocError> {
    match text {
        Some(text) => Ok(Some(split_words(alloc, text)?)),
        None => Ok(None),
    }
}

fn user(alloc: Global, copies: &mut Copies, identity: Option<Identity<'_>>) -> Option<User> {
    let identity = identity?;
    let mut user = User::new(alloc);
    user.id = copies.text_if_any(identity.id);
    user.email = copies.text_if_any(identity.email);
    user.username = copies.text_if_any(identity.username);
    Some(user)
}

/// A context that is a map of `value` to a text.
fn context(alloc: Global, value: Text) -> Result<Context, AllocError> {
    let mut map = ValueMap::new(alloc);
    map.insert(Text::new(alloc, "value")?, Value::Text(value))?;
    Ok(Context::Other(map))
}

/// A file of this name, which holds the text.
fn attachment(alloc: Global, file: Entry<'_>) -> Result<Attachment, AllocError> {
    Ok(Attachment {
        filename: Text::new(alloc, file.key)?,
        buffer: Items::from_vec(file.value.as_bytes().to_vec(alloc)?),
        content_type: None,
    })
}

fn set_entry(
    alloc: Global,
    copies: &mut Copies,
    role: Role,
    entry: Entry<'_>,
) -> Result<ScopeEdit<Handler>, AllocError> {
    let key = copies.text(entry.key);
    let value = copies.text(entry.value);
    match role {
        Role::Tag => Ok(ScopeEdit::SetTag(key, value)),
        Role::Extra => Ok(ScopeEdit::SetExtra(key, Value::Text(value))),
        Role::Context => Ok(ScopeEdit::SetContext(key, context(alloc, value)?)),
        Role::Tagger => Ok(ScopeEdit::AddEventProcessor(Handler::SetTag { key, value })),
    }
}

fn edit(
    alloc: Global,
    copies: &mut Copies,
    fresh: Fresh,
    change: &ScopeChange<'_>,
) -> Result<ScopeEdit<Handler>, AllocError> {
    match change {
        ScopeChange::Clear => Ok(ScopeEdit::Clear(fresh.trace_id, fresh.span_id)),
        ScopeChange::SetLevel(level) => Ok(ScopeEdit::SetLevel(*level)),
        ScopeChange::SetFingerprint(text) => {
            fingerprint(alloc, *text).map(ScopeEdit::SetFingerprint)
        }
        ScopeChange::SetTransaction(name) => {
            Ok(ScopeEdit::SetTransaction(copies.text_if_any(*name)))
        }
        ScopeChange::SetUser(identity) => { Ok(ScopeEdit::SetUser(user(alloc, copies, *identity))) }
        ScopeChange::SetEntry(role, entry) => set_entry(alloc, copies, *role, *entry),
        ScopeChange::RemoveTag(key) => Ok(ScopeEdit::RemoveTag(copies.text(key))),
        ScopeChange::RemoveExtra(key) => Ok(ScopeEdit::RemoveExtra(copies.text(key))),
        ScopeChange::RemoveContext(key) => Ok(ScopeEdit::RemoveContext(copies.text(key))),
        ScopeChange::ClearBreadcrumbs => Ok(ScopeEdit::ClearBreadcrumbs),
        ScopeChange::AddAttachment(file) => {
            attachment(alloc, *file).map(ScopeEdit::AddAttachment)
        }
        ScopeChange::ClearAttachments => Ok(ScopeEdit::ClearAttachments),
        ScopeChange::AddDropper(prefix) => {
            let dropper = Handler::Drop(copies.text(prefix));
            Ok(ScopeEdit::AddEventProcessor(dropper))
        }
        ScopeChange::SetSpan(span) => Ok(ScopeEdit::SetSpan(span.map(span_key))),
    }
}

impl<E: Caller> Scenario<E> {
    /// Edits the top scope of a hub.
    pub fn configure<'a>(&mut self, command: &ScopeCommand<'_>) -> Result<Answer<'a>, Failure> {
        let mut edits = Items::new(self.alloc);
        let mut copies = Copies::new(self.alloc);
        let edit = edit(self.alloc, &mut copies, self.fresh(), &command.change)?;
        edits.push(copies.finish(edit)?)?;
        let hub = hub_key(command.hub);
        let now = self.moment();
        self.call_hub(HubCall::Configure { hub, edits, now })
    }
}
