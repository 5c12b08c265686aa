//! Lines that edit the top scope of a hub.
use crate::spans::SpanName;
use crate::words::Words;
use sentry_base::protocol::Level;

/// What a line does to the scope of a hub.
#[derive(Clone, Copy)]
pub struct ScopeCommand<'a> {
    pub hub: u64,
    pub change: ScopeChange<'a>,
}

/// One change of a scope.
#[derive(Clone, Copy)]
pub enum ScopeChange<'a> {
    /// `clear H`
    Clear,
    /// `level H LEVEL` or `level H -`
    SetLevel(Option<Level>),
    /// `fingerprint H REST`, of the words of REST, or `fingerprint H -`
    SetFingerprint(Option<&'a str>),
    /// `name H REST` or `unname H`
    SetTransaction(Option<&'a str>),
    /// `user H ID EMAIL USERNAME` or `nouser H`
    SetUser(Option<Identity<'a>>),
    SetEntry(Role, Entry<'a>),
    /// `untag H KEY`
    RemoveTag(&'a str),
    /// `unextra H KEY`
    RemoveExtra(&'a str),
    /// `uncontext H KEY`
    RemoveContext(&'a str),
    /// `nocrumbs H`
    ClearBreadcrumbs,
    /// `attach H NAME REST`
    AddAttachment(Entry<'a>),
    /// `noattach H`
    ClearAttachments,
    /// `dropper H REST`: a processor that drops messages which begin so.
    AddDropper(&'a str),
    /// `setspan H SPAN` or `setspan H -`
    SetSpan(Option<SpanName>),
}

/// What a key and a text are set as.
#[derive(Clone, Copy)]
pub enum Role {
    /// `tag H KEY REST`
    Tag,
    /// `extra H KEY REST`
    Extra,
    /// `context H KEY REST`
    Context,
    /// `tagger H KEY REST`: a processor that sets a tag.
    Tagger,
}

/// A key, and a text at it.
#[derive(Clone, Copy)]
pub struct Entry<'a> {
    pub key: &'a str,
    pub value: &'a str,
}

/// What is told of a user.
#[derive(Clone, Copy)]
pub struct Identity<'a> {
    pub id: Option<&'a str>,
    pub email: Option<&'a str>,
    pub username: Option<&'a str>,
}

impl<'a> ScopeCommand<'a> {
    /// The command of this name, read from the words that follow it.
    pub fn read(name: &str, mut words: Words<'a>) -> Option<ScopeCommand<'a>> {
        let hub = words.number();
        let change = read_change(name, &mut words)?;
        words.end()?;
        Some(ScopeCommand { hub, change })
    }
}

fn read_change<'a>(name: &str, words: &mut Words<'a>) -> Option<ScopeChange<'a>> {
    match name {
        "tag" => Some(ScopeChange::SetEntry(Role::Tag, read_entry(words))),
        "untag" => Some(ScopeChange::RemoveTag(words.word())),
        "extra" => Some(ScopeChange::SetEntry(Role::Extra, read_entry(words))),
        "unextra" => Some(ScopeChange::RemoveExtra(words.word())),
        "context" => Some(ScopeChange::SetEntry(Role::Context, read_entry(words))),
        "uncontext" => Some(ScopeChange::RemoveContext(words.word())),
        "attach" => Some(ScopeChange::AddAttachment(read_entry(words))),
        "dropper" => Some(ScopeChange::AddDropper(words.rest())),
        "tagger" => Some(ScopeChange::SetEntry(Role::Tagger, read_entry(words))),
        _ => read_other_change(name, words),
    }
}

// The forms whose operands aren't a key, an entry or a prefix.
fn read_other_change<'a>(name: &str, words: &mut Words<'a>) -> Option<ScopeChange<'a>> {
    match name {
        "level" => Some(ScopeChange::SetLevel(words.level_or_none())),
        "fingerprint" => Some(ScopeChange::SetFingerprint(words.rest_or_none())),
        "name" => Some(ScopeChange::SetTransaction(Some(words.rest()))),
        "user" => Some(ScopeChange::SetUser(Some(read_identity(words)))),
        "clear" => Some(ScopeChange::Clear),
        "unname" => Some(ScopeChange::SetTransaction(None)),
        "nouser" => Some(ScopeChange::SetUser(None)),
        "nocrumbs" => Some(ScopeChange::ClearBreadcrumbs),
        "noattach" => Some(ScopeChange::ClearAttachments),
        "setspan" => Some(ScopeChange::SetSpan(words.span_or_none())),
        _ => None,
    }
}

/// A key, and the rest of the line as its value.
pub(crate) fn read_entry<'a>(words: &mut Words<'a>) -> Entry<'a> {
    Entry {
        key: words.word(),
        value: words.rest(),
    }
}

fn read_identity<'a>(words: &mut Words<'a>) -> Identity<'a> {
    Identity {
        id: words.word_or_none(),
        email: words.word_or_none(),
        username: words.word_or_none(),
    }
}
