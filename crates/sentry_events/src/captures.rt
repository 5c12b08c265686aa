//! What becomes of a captured event: whether it is sent, with which report, and what is lost.
ghost use Rattle.std.specs.Prelude.{◌≡◌, ◌&&◌, IfOk, OnOk, Option, Some, is_some};
ghost use Rattle.std.specs.Option.{option_copied, option_map};
ghost use Rattle.sentry_base.specs.Envelopes.{empty_envelope, with_item};
ghost use Rattle.sentry_base.specs.declared.protocol.envelope.EnvelopeItem.TheVariants as item;
ghost use Rattle.sentry_base.specs.declared.protocol.event.Event.{Event};
ghost use Rattle.sentry_pipeline.specs.Pipeline.{loss_reason};
ghost use Rattle.sentry_state.specs.Books.{pending_report, with_entry, with_entry_if_any};
ghost use Rattle.sentry_base.specs.Envelopes.{with_report};
ghost use Rattle.sentry_state.specs.Outcomes.{Does, named_session};
ghost use Rattle.sentry_state.specs.Worlds.{World, SessionHistory, Stands, stored_session};
ghost use Rattle.sentry_events.specs.Captures.{capture, capture_entry, captured_id, captured_envelopes, sent_event};
ghost use Rattle.sentry_events.specs.Captures.{attachments_of, with_attachments, with_update, event_loss, capture_event};
ghost use Rattle.sentry_events.specs.Captures.{SessionCapture, capture_session, is_application, with_reached};
ghost use Rattle.sentry_events.specs.Captures.{session_after, captured_update, with_captured_session};

use sentry_base::callbacks::EventCallback;
use sentry_base::protocol::{
    Attachment, Category, ClientKey, ClientReport, Envelope, EnvelopeHeaders, EnvelopeItem, Event,
    Fresh, HubKey, Label, Losses, Reason, Refusal, SessionKey, SessionUpdate, Uuid,
};
use sentry_options::{Callbacks, SessionMode};
use sentry_pipeline::pipeline::{Preparation, prepare_event};
use sentry_plain::{Boxed, Items};
use sentry_scope::Scope;
use sentry_sessions::Session;
use sentry_span_table::SpanTable;
use sentry_state::{ClientState, Out, Sent, State};
use std::alloc::{AllocError, Global};

/// Runs a captured event through the pipeline, in place: the event that came through all callbacks is left, or `None`.
/// Returns what became of it, or `None` on an empty slot.
#[tactic(auto, unfolding(crate::specs::Captures::capture))]
pub fn capture<P: EventCallback + Drop, C: Callbacks>(
    alloc: Global,
    client: &ClientState<C>,
    spans: &SpanTable,
    scope: Option<&Scope<P>>,
    fresh: Fresh,
    event: &mut Option<Boxed<Event>>,
) -> Result<Option<Preparation>, AllocError>
    ensures entry { (given : Event) → event.old ≡ Some given → IfOk result (λ preparation.
        option_map (λ p. capture_entry (loss_reason p)) preparation
        ≡ (capture P.gives C.meanings spans.now client.now (option_copied scope.entry) fresh given).entry) }
    ensures reached { (given : Event) → event.old ≡ Some given → OnOk result (event.new ≡
        (capture P.gives C.meanings spans.now client.now (option_copied scope.entry) fresh given).reached) }
    ensures event { (given : Event) → event.old ≡ Some given → IfOk result (λ preparation.
        sent_event preparation event.new
        ≡ (capture P.gives C.meanings spans.now client.now (option_copied scope.entry) fresh given).event) }
{
    if !client.occupied {
        *event = None;
        return Ok(None);
    }
    let preparation = prepare_event(
        alloc,
        client.options.get(),
        &client.sdk,
        spans,
        scope,
        fresh,
        event,
    )?;
    Ok(Some(preparation))
}

/// Drops an event that is not to be sent.
pub fn drop_unsent(preparation: &Option<Preparation>, event: &mut Option<Boxed<Event>>)
    ensures { event.new ≡ sent_event preparation.now event.old }
{
    match preparation {
        Some(Preparation::Kept) => {}
        Some(Preparation::SampledOut) | Some(Preparation::Dropped(_)) | None => *event = None,
    }
}

// Whether an event that became this is sent along with its session's update.
fn takes_update<C>(
    client: &ClientState<C>,
    preparation: &Option<Preparation>,
    event: &Option<Boxed<Event>>,
) -> bool
    ensures { result ≡ (is_some (sent_event preparation.now event.now)
        && is_application client.now.options.plain.session_mode) }
{
    matches!(
        client.options.get().plain.session_mode,
        SessionMode::Application
    ) && matches!(preparation, Some(Preparation::Kept))
        && event.is_some()
}

// Counts an event that came through all callbacks, if it did.
fn count_reached(session: &mut Session, event: &Option<Boxed<Event>>)
    ensures { (state : SessionHistory) → session.old ≡ stored_session state →
        session.new ≡ stored_session (with_reached event.now state) }
{
    if let Some(event) = event {
        session.update_from_event(event.get());
    }
}

// What a capture does to a session: the update that goes out with the event, and the session after it.
#[tactic(auto, unfolding(crate::specs::Captures::capture_session))]
fn capture_session(
    alloc: Global,
    session: &Session,
    takes: bool,
    reached: &Option<Boxed<Event>>,
) -> Result<(Option<Boxed<SessionUpdate>>, Session), AllocError>
    ensures { IfOk result (λ captured. (state : SessionHistory) → session.now ≡ stored_session state →
        (captured.0 ≡ (capture_session takes reached.now state).update)
        × (captured.1 ≡ stored_session (capture_session takes reached.now state).after)) }
{
    let mut after = session.clone()?;
    count_reached(&mut after, reached);
    if !takes {
        return Ok((None, after));
    }
    let update = Boxed::from_option(alloc, after.create_envelope_item()?)?;
    Ok((update, after))
}

/// The id that a capture replies.
pub fn captured_id(event: &Option<Boxed<Event>>) -> Uuid
    ensures { result ≡ captured_id event.now }
{
    match event {
        None => Uuid::nil(),
        Some(event) => event.event_id,
    }
}

// Adds a session's update as the last item, if there is one.
fn add_update(
    envelope: &mut Envelope,
    update: Option<Boxed<SessionUpdate>>,
) -> Result<(), AllocError>
    ensures { OnOk result (envelope.new ≡ with_update update envelope.old) }
{
    match update {
        None => Ok(()),
        Some(update) => envelope.add_item(EnvelopeItem::SessionUpdate(update.into_inner())),
    }
}

// Adds copies of attachments as the last items.
fn add_attachments(envelope: &mut Envelope, attachments: &[Attachment]) -> Result<(), AllocError>
    ensures { OnOk result (envelope.new ≡ with_attachments attachments.now envelope.old) }
{
    for attachment in attachments {
        envelope.add_item(EnvelopeItem::Attachment(attachment.clone()?))?;
    }
    Ok(())
}

// The attachments of a scope, if there is one.
fn attachments_of<P>(scope: Option<&Scope<P>>) -> &[Attachment]
    ensures { result.now ≡ attachments_of (option_copied scope.entry) }
{
    match scope {
        None => &[],
        Some(scope) => scope.attachments.as_slice(),
    }
}

// The envelope of the event that is there, which is taken out. It has no more room than its items take.
fn event_envelope(
    alloc: Global,
    event: &mut Option<Boxed<Event>>,
    update: Option<Boxed<SessionUpdate>>,
    attachments: &[Attachment],
    report: Option<ClientReport>,
) -> Result<Envelope, AllocError>
    ensures { (given : Event) → event.old ≡ Some given → IfOk result (λ envelope. envelope ≡ with_report report
        (with_attachments attachments.now (with_update update (with_item empty_envelope (item.Event given))))) }
{
    let others = usize::from(update.is_some()) + usize::from(report.is_some());
    let room = attachments.len().saturating_add(1 + others);
    let mut items = Vec::with_capacity(alloc, room)?;
    let event_id = Some(captured_id(event));
    if let Some(event) = event.take() {
        items.push_reserved(EnvelopeItem::Event(event));
    }
    let mut envelope = Envelope {
        header: EnvelopeHeaders {
            event_id,
            trace: None,
        },
        items: Items::from_vec(items),
    };
    add_update(&mut envelope, update)?;
    add_attachments(&mut envelope, attachments)?;
    envelope.add_report(report)?;
    Ok(envelope)
}

// What a capture does to the session that a layer names, if it still goes on: the update that goes out with the
// event, and the session after it.
fn capture_named_session<P: Drop, C: Callbacks>(
    state: &State<P, C>,
    name: Option<SessionKey>,
    takes: bool,
    reached: &Option<Boxed<Event>>,
) -> Result<(Option<Boxed<SessionUpdate>>, Option<Session>), AllocError>
    ensures { IfOk result (λ captured. (world : World P C) → Stands state.now world →
        let expected = option_map (capture_session takes reached.now) (named_session world name) in
        (captured.0 ≡ captured_update expected) × (captured.1 ≡ session_after expected)) }
{
    let Some(session) = state.named_session(name) else {
        return Ok((None, None));
    };
    let (update, after) = capture_session(state.alloc, session, takes, reached)?;
    Ok((update, Some(after)))
}

// Writes the session that a layer names as it is after a capture.
fn set_named_session<P: Drop, C: Callbacks>(
    state: &mut State<P, C>,
    name: Option<SessionKey>,
    after: Option<Session>,
)
    ensures in_world { (world : World P C) (captured : Option SessionCapture) → Stands state.old world →
        after ≡ session_after captured → Stands state.new (with_captured_session world name captured) }
    ensures hubs { state.new.hubs ≡ state.old.hubs }
{
    let Some(key) = name else {
        return;
    };
    let Some(after) = after else {
        return;
    };
    state.set_session(key.number, after);
}

/// The envelopes of a capture: the event, which is taken out, the session's update, the attachments of the scope,
/// and the pending report as the last item.
pub fn captured_envelopes<P: Drop, C: Callbacks>(
    state: &State<P, C>,
    key: ClientKey,
    label: Label,
    update: Option<Boxed<SessionUpdate>>,
    scope: Option<&Scope<P>>,
    event: &mut Option<Boxed<Event>>,
) -> Result<Sent, AllocError>
    ensures { (world : World P C) → Stands state.now world → IfOk result (λ sent. sent ≡ captured_envelopes key
        update (attachments_of (option_copied scope.entry)) (pending_report world label) event.old) }
{
    if event.is_none() {
        return Ok(Items::new(state.alloc));
    }
    let report = state.pending_report(label)?;
    let envelope = event_envelope(state.alloc, event, update, attachments_of(scope), report)?;
    let mut sent = Vec::with_capacity(state.alloc, 1)?;
    sent.push_reserved((key, envelope));
    Ok(Items::from_vec(sent))
}

/// Records that an event was lost.
pub fn record_lost_event<P: Drop, C: Callbacks>(
    state: &mut State<P, C>,
    label: Label,
    reason: Reason,
)
    ensures in_world { (world : World P C) → Stands state.old world →
        Stands state.new (with_entry world label (event_loss reason)) }
    ensures hubs { state.new.hubs ≡ state.old.hubs }
    ensures next { state.new.next ≡ state.old.next }
{
    state.record_losses(label, &Losses::of(Category::Error, reason, 1));
}

/// Notes in the book of a label what became of an event.
pub fn note_capture<P: Drop, C: Callbacks>(
    state: &mut State<P, C>,
    label: Label,
    preparation: Option<Preparation>,
)
    ensures in_world { (world : World P C) → Stands state.old world → Stands state.new
        (with_entry_if_any world label (option_map (λ p. capture_entry (loss_reason p)) preparation)) }
    ensures hubs { state.new.hubs ≡ state.old.hubs }
{
    let Some(preparation) = preparation else {
        return;
    };
    match preparation.loss_reason() {
        None => state.mark_reported(label),
        Some(reason) => record_lost_event(state, label, reason),
    }
}

/// Captures the event that is there; none is left.
#[tactic(auto, unfolding(crate::specs::Captures::capture_event))]
pub fn capture_on_hub<P: EventCallback + Drop, C: Callbacks>(
    state: &mut State<P, C>,
    hub: HubKey,
    event: &mut Option<Boxed<Event>>,
    fresh: Fresh,
) -> Result<Out<Uuid>, Refusal>
    ensures { (given : Event) → event.old ≡ Some given →
        Does state.old state.new result (capture_event P.gives C.meanings hub given fresh) }
{
    let Some(held) = state.hub_at(hub) else {
        return Err(Refusal::Stale);
    };
    let Some(key) = held.stack.top.client else {
        return Ok(state.out(Uuid::nil()));
    };
    let Some(client) = state.client_at(key) else {
        return Ok(state.out(Uuid::nil()));
    };
    let label = client.label;
    let scope = Some(&held.stack.top.scope);
    let name = held.stack.top.session;
    let spans = state.span_table();
    let preparation = capture(state.alloc, client, spans, scope, fresh, event)?;
    let takes = takes_update(client, &preparation, event);
    let (update, session) = capture_named_session(state, name, takes, event)?;
    drop_unsent(&preparation, event);
    let reply = captured_id(event);
    let sent = captured_envelopes(state, key, label, update, scope, event)?;
    note_capture(state, label, preparation);
    set_named_session(state, name, session);
    state.set_last_event_id(hub.number, reply);
    Ok(Out { reply, sent })
}
