//! The setters of a scope, which collect edits.
ghost use Rattle.std.specs.Prelude.{◌≡◌, [], ◌∷◌, ◌++◌, IfOk, OnOk, OnErr, map, option_map, option_copied};
ghost use Rattle.sentry_scope.specs.declared.scope.edit.ScopeEdit.TheVariants as call;

use sentry_base::protocol::{
    Attachment, Context, Level, SpanId, TraceId, TransactionOrSpanKey, User,
};
use sentry_batches::ToValue;
use sentry_plain::{Items, Text, ValueMap, copy_texts};
use sentry_scope::{Scope, ScopeEdit};
use std::alloc::{AllocError, Global};

/// What names the transaction or the span that is to be active, or none.
pub trait IntoSpanKey: Drop {
    ghost use Rattle.std.specs.Prelude.{Option};
    ghost use Rattle.sentry_base.specs.declared.protocol.keys.TransactionOrSpanKey.{TransactionOrSpanKey};

    ghost span_key: { Self → Option TransactionOrSpanKey };

    /// Its key, if it names one.
    fn into_span_key(self) -> Option<TransactionOrSpanKey>
        ensures { result ≡ span_key self };
}

impl IntoSpanKey for Option<TransactionOrSpanKey> {
    ghost span_key = { λ key. key };

    fn into_span_key(self) -> Option<TransactionOrSpanKey> {
        self
    }
}

/// What can be a context: a `Context`, or a name with a value, which is all that the context has.
pub trait IntoContext: Drop {
    ghost use Rattle.sentry_base.specs.declared.protocol.context.Context.{Context};

    ghost context: { Self → Context };

    /// The context.
    fn into_context(self, alloc: Global) -> Result<Context, AllocError>
        ensures { IfOk result (λ made. made ≡ context self) };
}

impl IntoContext for Context {
    ghost context = { λ same. same };

    fn into_context(self, _alloc: Global) -> Result<Context, AllocError> {
        Ok(self)
    }
}

impl<V: ToValue + Drop> IntoContext for (&str, V) {
    ghost use Rattle.std.specs.Prelude.{[]};
    ghost use Rattle.sentry_plain.specs.Texts.{put};
    ghost use Rattle.sentry_plain.specs.ValueView.{data_of};
    ghost use Rattle.sentry_base.specs.declared.protocol.context.Context.TheVariants as of_context;

    ghost context = { λ pair. of_context.Other (put [] pair.0.now (data_of (V.value pair.1))) };

    fn into_context(self, alloc: Global) -> Result<Context, AllocError> {
        let (name, value) = self;
        let mut values = ValueMap::new(alloc);
        values.insert(Text::new(alloc, name)?, value.to_value(alloc)?)?;
        Ok(Context::Other(values))
    }
}

/// A copy of a scope to read, which stays as it was, and the setters of a scope: each call of one is kept, so that all
/// of them can be done later as one.
pub struct ScopeEdits<P> {
    scope: Scope<P>,
    edits: Items<ScopeEdit<P>>,
}

impl<P: Drop> Drop for ScopeEdits<P> {
    fn drop(self) {
        let ScopeEdits { scope: _, edits: _ } = self;
    }
}

impl<P: Drop> ScopeEdits<P> {
    /// No edits yet of this scope.
    pub fn new(alloc: Global, scope: Scope<P>) -> ScopeEdits<P>
        ensures scope { result.scope ≡ scope }
        ensures edits { result.edits ≡ [] }
    {
        ScopeEdits {
            scope,
            edits: Items::new(alloc),
        }
    }

    /// The calls of setters, in order.
    pub fn into_edits(self) -> Items<ScopeEdit<P>>
        ensures { result ≡ self.edits }
    {
        let ScopeEdits { scope: _, edits } = self;
        edits
    }

    /// The scope as it was.
    pub fn scope(&self) -> &Scope<P>
        ensures { result.now ≡ self.now.scope }
    {
        &self.scope
    }

    /// The user of the scope as it was, if one is set.
    pub fn user(&self) -> Option<&User>
        ensures { option_copied result ≡ self.now.scope.user }
    {
        self.scope.user()
    }

    /// The transaction or the span that is active on the scope as it was, if any.
    pub fn get_span(&self) -> Option<TransactionOrSpanKey>
        ensures { result ≡ self.now.scope.span }
    {
        self.scope.get_span()
    }

    // Keeps one call.
    fn keep(&mut self, edit: ScopeEdit<P>) -> Result<(), AllocError>
        ensures scope { self.new.scope ≡ self.old.scope }
        ensures ok { OnOk result (self.new.edits ≡ self.old.edits ++ edit ∷ []) }
        ensures err { OnErr result (self.new.edits ≡ self.old.edits) }
    {
        self.edits.push(edit)
    }

    fn text(&self, text: &str) -> Result<Text, AllocError>
        ensures { IfOk result (λ made. made ≡ text.now) }
    {
        Text::new(self.edits.allocator(), text)
    }

    /// Makes it a scope that sets nothing, with these ids of its trace.
    pub fn clear(&mut self, trace_id: TraceId, span_id: SpanId) -> Result<(), AllocError>
        ensures scope { self.new.scope ≡ self.old.scope }
        ensures ok { OnOk result (self.new.edits ≡ self.old.edits ++ call.Clear trace_id span_id ∷ []) }
        ensures err { OnErr result (self.new.edits ≡ self.old.edits) }
    {
        self.keep(ScopeEdit::Clear(trace_id, span_id))
    }

    /// Removes all breadcrumbs.
    pub fn clear_breadcrumbs(&mut self) -> Result<(), AllocError>
        ensures scope { self.new.scope ≡ self.old.scope }
        ensures ok { OnOk result (self.new.edits ≡ self.old.edits ++ call.ClearBreadcrumbs ∷ []) }
        ensures err { OnErr result (self.new.edits ≡ self.old.edits) }
    {
        self.keep(ScopeEdit::ClearBreadcrumbs)
    }

    /// Sets or clears the level that overrides the level of events.
    pub fn set_level(&mut self, level: Option<Level>) -> Result<(), AllocError>
        ensures scope { self.new.scope ≡ self.old.scope }
        ensures ok { OnOk result (self.new.edits ≡ self.old.edits ++ call.SetLevel level ∷ []) }
        ensures err { OnErr result (self.new.edits ≡ self.old.edits) }
    {
        self.keep(ScopeEdit::SetLevel(level))
    }

    /// Sets or clears the fingerprint of events that have none of their own.
    pub fn set_fingerprint(&mut self, fingerprint: Option<&[&str]>) -> Result<(), AllocError>
        ensures scope { self.new.scope ≡ self.old.scope }
        ensures ok { OnOk result (self.new.edits ≡ self.old.edits ++ call.SetFingerprint
            (option_map (λ texts. map (λ text. text.now) texts.now) fingerprint.entry) ∷ []) }
        ensures err { OnErr result (self.new.edits ≡ self.old.edits) }
    {
        let fingerprint = match fingerprint {
            None => None,
            Some(texts) => Some(copy_texts(self.edits.allocator(), texts)?),
        };
        self.keep(ScopeEdit::SetFingerprint(fingerprint))
    }

    /// Sets or clears the name of the transaction that events belong to.
    pub fn set_transaction(&mut self, transaction: Option<&str>) -> Result<(), AllocError>
        ensures scope { self.new.scope ≡ self.old.scope }
        ensures ok { OnOk result (self.new.edits
            ≡ self.old.edits ++ call.SetTransaction (option_copied transaction.entry) ∷ []) }
        ensures err { OnErr result (self.new.edits ≡ self.old.edits) }
    {
        let transaction = match transaction {
            None => None,
            Some(name) => Some(self.text(name)?),
        };
        self.keep(ScopeEdit::SetTransaction(transaction))
    }

    /// Sets or clears the user.
    pub fn set_user(&mut self, user: Option<User>) -> Result<(), AllocError>
        ensures scope { self.new.scope ≡ self.old.scope }
        ensures ok { OnOk result (self.new.edits ≡ self.old.edits ++ call.SetUser user ∷ []) }
        ensures err { OnErr result (self.new.edits ≡ self.old.edits) }
    {
        self.keep(ScopeEdit::SetUser(user))
    }

    /// Sets a tag. It replaces a tag with the same key.
    pub fn set_tag(&mut self, key: &str, value: &str) -> Result<(), AllocError>
        ensures scope { self.new.scope ≡ self.old.scope }
        ensures ok { OnOk result (self.new.edits ≡ self.old.edits ++ call.SetTag key.now value.now ∷ []) }
        ensures err { OnErr result (self.new.edits ≡ self.old.edits) }
    {
        let key = self.text(key)?;
        let value = self.text(value)?;
        self.keep(ScopeEdit::SetTag(key, value))
    }

    /// Removes a tag, if the scope has it.
    pub fn remove_tag(&mut self, key: &str) -> Result<(), AllocError>
        ensures scope { self.new.scope ≡ self.old.scope }
        ensures ok { OnOk result (self.new.edits ≡ self.old.edits ++ call.RemoveTag key.now ∷ []) }
        ensures err { OnErr result (self.new.edits ≡ self.old.edits) }
    {
        let key = self.text(key)?;
        self.keep(ScopeEdit::RemoveTag(key))
    }

    /// Sets an extra value: a truth value, a whole number, a text or a `Value`. It replaces a value with the same key.
    pub fn set_extra<V: ToValue + Drop>(&mut self, key: &str, value: V) -> Result<(), AllocError>
        ensures scope { self.new.scope ≡ self.old.scope }
        ensures ok { OnOk result (self.new.edits ≡ self.old.edits ++ call.SetExtra key.now (V.value value) ∷ []) }
        ensures err { OnErr result (self.new.edits ≡ self.old.edits) }
    {
        let key = self.text(key)?;
        let value = value.to_value(self.edits.allocator())?;
        self.keep(ScopeEdit::SetExtra(key, value))
    }

    /// Removes an extra value, if the scope has it.
    pub fn remove_extra(&mut self, key: &str) -> Result<(), AllocError>
        ensures scope { self.new.scope ≡ self.old.scope }
        ensures ok { OnOk result (self.new.edits ≡ self.old.edits ++ call.RemoveExtra key.now ∷ []) }
        ensures err { OnErr result (self.new.edits ≡ self.old.edits) }
    {
        let key = self.text(key)?;
        self.keep(ScopeEdit::RemoveExtra(key))
    }

    /// Sets a context: a `Context`, or a name with a value. It replaces a context with the same key.
    pub fn set_context<K: IntoContext>(&mut self, key: &str, context: K) -> Result<(), AllocError>
        ensures scope { self.new.scope ≡ self.old.scope }
        ensures ok { OnOk result (self.new.edits ≡ self.old.edits ++ call.SetContext key.now (K.context context) ∷ []) }
        ensures err { OnErr result (self.new.edits ≡ self.old.edits) }
    {
        let key = self.text(key)?;
        let context = context.into_context(self.edits.allocator())?;
        self.keep(ScopeEdit::SetContext(key, context))
    }

    /// Removes a context, if the scope has it.
    pub fn remove_context(&mut self, key: &str) -> Result<(), AllocError>
        ensures scope { self.new.scope ≡ self.old.scope }
        ensures ok { OnOk result (self.new.edits ≡ self.old.edits ++ call.RemoveContext key.now ∷ []) }
        ensures err { OnErr result (self.new.edits ≡ self.old.edits) }
    {
        let key = self.text(key)?;
        self.keep(ScopeEdit::RemoveContext(key))
    }

    /// Adds an attachment, which is sent along with each event.
    pub fn add_attachment(&mut self, attachment: Attachment) -> Result<(), AllocError>
        ensures scope { self.new.scope ≡ self.old.scope }
        ensures ok { OnOk result (self.new.edits ≡ self.old.edits ++ call.AddAttachment attachment ∷ []) }
        ensures err { OnErr result (self.new.edits ≡ self.old.edits) }
    {
        self.keep(ScopeEdit::AddAttachment(attachment))
    }

    /// Removes all attachments.
    pub fn clear_attachments(&mut self) -> Result<(), AllocError>
        ensures scope { self.new.scope ≡ self.old.scope }
        ensures ok { OnOk result (self.new.edits ≡ self.old.edits ++ call.ClearAttachments ∷ []) }
        ensures err { OnErr result (self.new.edits ≡ self.old.edits) }
    {
        self.keep(ScopeEdit::ClearAttachments)
    }

    /// Adds a processor, which is called on each event after those that the scope has.
    pub fn add_event_processor(&mut self, processor: P) -> Result<(), AllocError>
        ensures scope { self.new.scope ≡ self.old.scope }
        ensures ok { OnOk result (self.new.edits ≡ self.old.edits ++ call.AddEventProcessor processor ∷ []) }
        ensures err { OnErr result (self.new.edits ≡ self.old.edits) }
    {
        self.keep(ScopeEdit::AddEventProcessor(processor))
    }

    /// Sets or clears the transaction or the span that is active.
    pub fn set_span<S: IntoSpanKey>(&mut self, span: S) -> Result<(), AllocError>
        ensures scope { self.new.scope ≡ self.old.scope }
        ensures ok { OnOk result (self.new.edits ≡ self.old.edits ++ call.SetSpan (S.span_key span) ∷ []) }
        ensures err { OnErr result (self.new.edits ≡ self.old.edits) }
    {
        self.keep(ScopeEdit::SetSpan(span.into_span_key()))
    }
}
