//! The calls on the top scope of a hub.
ghost use Rattle.std.specs.Prelude.{◌≡◌, Some, None, [], ◌∷◌};
ghost use Rattle.sentry_calls.specs.Hubs as call;
ghost use Rattle.sentry_state.specs.Breadcrumbs.{add_breadcrumbs};
ghost use Rattle.sentry_scope.specs.declared.scope.edit.ScopeEdit.TheVariants.{SetTag, SetSpan, Clear, ClearBreadcrumbs, ClearAttachments, AddAttachment};
ghost use Rattle.c_engine.specs.Calls.{Calls, SomeCalls, anything};
ghost use Rattle.c_records.specs.Filters.{filter_meanings};
ghost use Rattle.c_engine.specs.Keys.{hub_key, either_key};
ghost use Rattle.c_engine.specs.Moments.{fresh_of};

use crate::callbacks::NoProcessor;
use crate::moments::fresh_of;
use crate::outbox_engine::{OutboxEngine, either_key, hub_key};
use c_base::fault::CallFault;
use c_base::ids::FreshNumbers;
use c_base::numbers::text;
use sentry_base::protocol::{Attachment, Breadcrumb};
use sentry_plain::{Few, Items, Text};
use sentry_scope::ScopeEdit;
use std::alloc::Global;

// An attachment of a name, a media type (empty: none) and content.
fn attachment_of(
    alloc: Global,
    filename: &[u8],
    content_type: &[u8],
    content: &[u8],
) -> Result<Attachment, CallFault> {
    let filename = Text::new(alloc, text(filename)?)?;
    let mut attachment = Attachment {
        filename,
        buffer: Items::new(alloc),
        content_type: None,
    };
    if !content_type.is_empty() {
        let content_type = Text::new(alloc, text(content_type)?)?;
        attachment.content_type = Some(content_type);
    }
    let mut buffer = Vec::new(alloc);
    buffer.extend_from_slice(content)?;
    attachment.buffer = Items::from_vec(buffer);
    Ok(attachment)
}

impl OutboxEngine {
    /// Does these edits, in order.
    #[tactic(auto, using(crate::proofs::Calling::called, crate::proofs::Calling::refused, crate::proofs::Calling::unasked))]
    pub(crate) fn configure(
        &mut self,
        hub: u64,
        edits: Vec<ScopeEdit<NoProcessor>>,
        now: u64,
    ) -> Result<(), CallFault>
        ensures { Calls self.old self.new result anything (call.configure (hub_key hub) edits.items now) }
    {
        self.outbox.make_room()?;
        let out = self.engine.configure(hub_key(hub), edits, now)?;
        self.outbox.keep(out.sent);
        Ok(())
    }

    // Does one edit.
    #[tactic(auto, using(crate::proofs::Calling::called, crate::proofs::Calling::refused, crate::proofs::Calling::unasked))]
    fn edit(&mut self, hub: u64, edit: ScopeEdit<NoProcessor>, now: u64) -> Result<(), CallFault>
        ensures { Calls self.old self.new result anything (call.configure (hub_key hub) (edit ∷ []) now) }
    {
        self.outbox.make_room()?;
        let out = self.engine.edit_scope(hub_key(hub), edit, now)?;
        self.outbox.keep(out.sent);
        Ok(())
    }

    /// Sets a tag.
    #[tactic(auto, using(crate::proofs::Calling::called, crate::proofs::Calling::refused, crate::proofs::Calling::unasked))]
    pub fn set_tag(&mut self, hub: u64, key: &[u8], value: &[u8], now: u64) -> Result<(), CallFault>
        ensures { Calls self.old self.new result anything
            (call.configure (hub_key hub) (SetTag key.now value.now ∷ []) now) }
    {
        let key = Text::new(self.alloc, text(key)?)?;
        let value = Text::new(self.alloc, text(value)?)?;
        self.edit(hub, ScopeEdit::SetTag(key, value), now)
    }

    /// Gives the scope a transaction or a span.
    #[tactic(auto, using(crate::proofs::Calling::called, crate::proofs::Calling::refused, crate::proofs::Calling::unasked))]
    pub fn set_span(
        &mut self,
        hub: u64,
        is_span: bool,
        number: u64,
        now: u64,
    ) -> Result<(), CallFault>
        ensures { Calls self.old self.new result anything
            (call.configure (hub_key hub) (SetSpan (Some (either_key is_span number)) ∷ []) now) }
    {
        self.edit(
            hub,
            ScopeEdit::SetSpan(Some(either_key(is_span, number))),
            now,
        )
    }

    /// Takes the transaction or span of the scope away.
    #[tactic(auto, using(crate::proofs::Calling::called, crate::proofs::Calling::refused, crate::proofs::Calling::unasked))]
    pub fn clear_span(&mut self, hub: u64, now: u64) -> Result<(), CallFault>
        ensures { Calls self.old self.new result anything
            (call.configure (hub_key hub) (SetSpan None ∷ []) now) }
    {
        self.edit(hub, ScopeEdit::SetSpan(None), now)
    }

    /// Clears the scope to the ids of `fresh`.
    #[tactic(auto, using(crate::proofs::Calling::called, crate::proofs::Calling::refused, crate::proofs::Calling::unasked))]
    pub fn clear_scope(&mut self, hub: u64, fresh: &FreshNumbers) -> Result<(), CallFault>
        ensures { Calls self.old self.new result anything (call.configure (hub_key hub)
            (Clear (fresh_of fresh.entry.now).trace_id (fresh_of fresh.entry.now).span_id ∷ []) fresh.entry.now.now) }
    {
        let numbers = fresh_of(fresh)?;
        self.edit(
            hub,
            ScopeEdit::Clear(numbers.trace_id, numbers.span_id),
            fresh.now,
        )
    }

    /// Takes the breadcrumbs of the scope away.
    #[tactic(auto, using(crate::proofs::Calling::called, crate::proofs::Calling::refused, crate::proofs::Calling::unasked))]
    pub fn clear_breadcrumbs(&mut self, hub: u64, now: u64) -> Result<(), CallFault>
        ensures { Calls self.old self.new result anything
            (call.configure (hub_key hub) (ClearBreadcrumbs ∷ []) now) }
    {
        self.edit(hub, ScopeEdit::ClearBreadcrumbs, now)
    }

    /// Takes the attachments of the scope away.
    #[tactic(auto, using(crate::proofs::Calling::called, crate::proofs::Calling::refused, crate::proofs::Calling::unasked))]
    pub fn clear_attachments(&mut self, hub: u64, now: u64) -> Result<(), CallFault>
        ensures { Calls self.old self.new result anything
            (call.configure (hub_key hub) (ClearAttachments ∷ []) now) }
    {
        self.edit(hub, ScopeEdit::ClearAttachments, now)
    }

    /// Adds an attachment of a name, a media type (empty: none) and content.
    #[tactic(auto, using(crate::proofs::Calling::some))]
    pub fn add_attachment(
        &mut self,
        hub: u64,
        filename: &[u8],
        content_type: &[u8],
        content: &[u8],
        now: u64,
    ) -> Result<(), CallFault>
        ensures { SomeCalls self.old self.new result anything
            (λ attachment. call.configure (hub_key hub) (AddAttachment attachment ∷ []) now) }
    {
        let attachment = attachment_of(self.alloc, filename, content_type, content)?;
        self.edit(hub, ScopeEdit::AddAttachment(attachment), now)
    }

    /// Adds breadcrumbs.
    #[tactic(auto, using(crate::proofs::Calling::called, crate::proofs::Calling::refused, crate::proofs::Calling::unasked))]
    pub(crate) fn add_breadcrumbs(
        &mut self,
        hub: u64,
        breadcrumbs: Few<Breadcrumb>,
    ) -> Result<(), CallFault>
        ensures { Calls self.old self.new result anything
            (add_breadcrumbs filter_meanings (hub_key hub) breadcrumbs) }
    {
        self.outbox.make_room()?;
        let out = self.engine.add_breadcrumbs(hub_key(hub), breadcrumbs)?;
        self.outbox.keep(out.sent);
        Ok(())
    }
}
