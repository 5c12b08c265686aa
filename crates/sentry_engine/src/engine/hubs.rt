//! The calls on hubs.
ghost use Rattle.std.specs.Prelude.{◌≡◌, ℕ, true, false, IfOk, IfErr, Some, [], ◌∷◌, is_some, if◌then◌else◌};
ghost use Rattle.std.specs.List.{list_any};
ghost use Rattle.sentry_state.specs.Worlds.{World, Stands};
ghost use Rattle.sentry_state.specs.Breadcrumbs.{add_breadcrumbs};
ghost use Rattle.sentry_state.specs.Outcomes.{Does, DoesWithoutMemory, hub_at};
ghost use Rattle.sentry_events.specs.Captures.{capture_event, message_event};
ghost use Rattle.sentry_calls.specs.Hubs.{is_clear};
ghost use Rattle.sentry_texts.specs.ErrorEvents.{error_event};
ghost use Rattle.sentry_calls.specs.Hubs as call;

use crate::engine::names::rename_all;
use crate::engine::{Engine, Out};
use sentry_base::callbacks::EventCallback;
use sentry_base::protocol::{
    Breadcrumb, ClientKey, ErrorLink, Event, Fresh, HubKey, Level, Refusal, Uuid,
};
use sentry_events::captures::capture_on_hub;
use sentry_options::Callbacks;
use sentry_plain::{Boxed, Few, Text};
use sentry_scope::{EditedScope, Scope, ScopeEdit, Stack, all_name_held_spans};
use sentry_sending::session_ends::release_session;
use sentry_texts::utils::event_from_error;
use std::alloc::{AllocError, Global};

// The event of a message, in a box.
fn message_event(
    alloc: Global,
    message: Text,
    level: Level,
    id: Uuid,
    now: u64,
) -> Result<Boxed<Event>, AllocError>
    ensures { IfOk result (λ event. event ≡ message_event message level id now) }
{
    let mut event = Event::new(alloc, id, now)?;
    event.message = Some(message);
    event.level = level;
    Boxed::new(alloc, event)
}

// The event of an error, in a box.
fn error_event(
    alloc: Global,
    links: &[ErrorLink],
    id: Uuid,
    now: u64,
) -> Result<Boxed<Event>, AllocError>
    ensures { IfOk result (λ event. event ≡ error_event links.now id now) }
{
    Boxed::new(alloc, event_from_error(alloc, links, id, now)?)
}

// Whether an edit clears the scope.
fn is_clear<P>(edit: &ScopeEdit<P>) -> bool
    ensures { result ≡ is_clear edit.now }
{
    matches!(edit, ScopeEdit::Clear(_, _))
}

/// Whether one of the edits clears the scope.
pub fn one_clears<P>(edits: &[ScopeEdit<P>]) -> bool
    ensures { result ≡ list_any is_clear edits.now }
{
    edits.iter().any(|edit| is_clear(edit))
}

// The only item, or all of them back.
fn only<T: Drop>(mut items: Vec<T>) -> Result<T, Vec<T>>
    ensures one { IfOk result (λ item. items.items ≡ item ∷ []) }
    ensures back { IfErr result (λ all. all ≡ items) }
{
    if items.len() != 1 {
        return Err(items);
    }
    items.pop().ok_or(items)
}

// A list of one item.
fn list_of<T: Drop>(alloc: Global, item: T) -> Result<Vec<T>, AllocError>
    ensures { IfOk result (λ items. items.items ≡ item ∷ []) }
{
    let mut items = Vec::new(alloc);
    items.reserve(1)?;
    items.push_reserved(item);
    Ok(items)
}

impl<P: Drop, C: Callbacks> Engine<P, C> {
    /// Adds a hub with one layer, of a client or none and a scope, and answers its key.
    ///
    /// `Stale`: the client isn't held, or the span of the scope isn't. `Full`: the numbers are used up. `OutOfMemory`.
    #[tactic(auto, unfolding(sentry_calls::specs::Hubs::new_hub))]
    pub fn new_hub(
        &mut self,
        client: Option<ClientKey>,
        scope: Scope<P>,
    ) -> Result<Out<HubKey>, Refusal>
        ensures { Does self.old self.new result (call.new_hub client scope) }
    {
        if !self.state.holds(client) {
            return Err(Refusal::Stale);
        }
        if !self.state.holds_span(scope.span) {
            return Err(Refusal::Stale);
        }
        if !self.state.has_hub_number() {
            return Err(Refusal::Full);
        }
        let stack = Stack::from_client_and_scope(self.state.alloc, client, scope);
        let key = self.state.insert_hub(stack)?;
        Ok(self.state.out(key))
    }

    // One edit that doesn't clear the scope. It costs what it changes.
    #[tactic(auto, unfolding(sentry_calls::specs::Hubs::configure))]
    fn configure_one(&mut self, hub: HubKey, edit: ScopeEdit<P>) -> Result<Out<()>, Refusal>
        requires { is_clear edit ≡ false }
        ensures { (now : ℕ) → Does self.old self.new result (call.configure hub (edit ∷ []) now) }
    {
        let Some(held) = self.state.hub_at(hub) else {
            return Err(Refusal::Stale);
        };
        if !edit.names_held_span(self.state.span_table()) {
            return Err(Refusal::Stale);
        }
        let renames = edit.renames(&held.stack.top.scope, self.state.span_table())?;
        self.state.edit_scope(hub.number, edit)?;
        rename_all(&mut self.state, renames);
        Ok(self.state.out(()))
    }

    // Several edits, none of which clears the scope. They are done to a copy, so that all of them are done or none.
    #[tactic(auto, unfolding(sentry_calls::specs::Hubs::configure))]
    fn configure_all(&mut self, hub: HubKey, edits: Vec<ScopeEdit<P>>) -> Result<Out<()>, Refusal>
        requires { list_any is_clear edits.items ≡ false }
        ensures { (now : ℕ) → Does self.old self.new result (call.configure hub edits.items now) }
    {
        let Some(held) = self.state.hub_at(hub) else {
            return Err(Refusal::Stale);
        };
        if !all_name_held_spans(edits.as_slice(), self.state.span_table()) {
            return Err(Refusal::Stale);
        }
        let spans = self.state.span_table();
        let EditedScope { scope, renames } = held.stack.top.scope.with_edits(edits, spans)?;
        self.state.set_scope(hub.number, scope);
        rename_all(&mut self.state, renames);
        Ok(self.state.out(()))
    }

    // Edits one of which clears the scope, which gives up the session of the layer.
    #[tactic(auto, unfolding(sentry_calls::specs::Hubs::configure))]
    fn clear_and_configure(
        &mut self,
        hub: HubKey,
        edits: Vec<ScopeEdit<P>>,
        now: u64,
    ) -> Result<Out<()>, Refusal>
        requires { list_any is_clear edits.items ≡ true }
        ensures { Does self.old self.new result (call.configure hub edits.items now) }
    {
        let Some(held) = self.state.hub_at(hub) else {
            return Err(Refusal::Stale);
        };
        if !all_name_held_spans(edits.as_slice(), self.state.span_table()) {
            return Err(Refusal::Stale);
        }
        let spans = self.state.span_table();
        let EditedScope { scope, renames } = held.stack.top.scope.with_edits(edits, spans)?;
        let sent = release_session(&mut self.state, hub.number, now)?;
        self.state.set_scope(hub.number, scope);
        rename_all(&mut self.state, renames);
        Ok(Out { reply: (), sent })
    }

    /// Does the edits, in order, to the top scope of a hub. If one of them clears the scope, the layer gives up the
    /// session that it names, which ends if no other layer names it. A name that they give the scope becomes that of
    /// the active transaction too, while it is unfinished. `now` is the moment in nanoseconds since the epoch.
    ///
    /// `Stale`: the hub isn't held, or a transaction or a span that an edit makes active isn't. `OutOfMemory`: none of
    /// the edits is done.
    pub fn configure(
        &mut self,
        hub: HubKey,
        edits: Vec<ScopeEdit<P>>,
        now: u64,
    ) -> Result<Out<()>, Refusal>
        ensures { Does self.old self.new result (call.configure hub edits.items now) }
    {
        if one_clears(&edits) {
            return self.clear_and_configure(hub, edits, now);
        }
        match only(edits) {
            Ok(edit) => self.configure_one(hub, edit),
            Err(edits) => self.configure_all(hub, edits),
        }
    }

    /// Does one edit, as `configure` does, and without a list where the edit doesn't clear the scope.
    ///
    /// `Stale`: the hub isn't held, or the transaction or the span that the edit makes active isn't. `OutOfMemory`: the
    /// edit isn't done.
    #[tactic(auto, unfolding(sentry_calls::specs::Hubs::configure))]
    pub fn edit_scope(
        &mut self,
        hub: HubKey,
        edit: ScopeEdit<P>,
        now: u64,
    ) -> Result<Out<()>, Refusal>
        ensures { Does self.old self.new result (call.configure hub (edit ∷ []) now) }
    {
        if !is_clear(&edit) {
            return self.configure_one(hub, edit);
        }
        let Some(_held) = self.state.hub_at(hub) else {
            return Err(Refusal::Stale);
        };
        if !edit.names_held_span(self.state.span_table()) {
            return Err(Refusal::Stale);
        }
        let edits = list_of(self.state.alloc, edit)?;
        self.clear_and_configure(hub, edits, now)
    }

    /// Adds breadcrumbs to the top scope of a hub. Each goes through the `before_breadcrumb` of the top layer's client.
    /// The scope keeps the last `max_breadcrumbs` of all that it then has, which is an option of the client. Without a
    /// client, or without a breadcrumb, nothing changes and no callback is called.
    ///
    /// `Stale`: the hub isn't held. `OutOfMemory`: none of the breadcrumbs is added.
    pub fn add_breadcrumbs(
        &mut self,
        hub: HubKey,
        breadcrumbs: Few<Breadcrumb>,
    ) -> Result<Out<()>, Refusal>
        ensures { Does self.old self.new result (add_breadcrumbs C.meanings hub breadcrumbs) }
    {
        self.state.add_breadcrumbs(hub, breadcrumbs)
    }

    /// The id that the last capture on a hub answered, if its top layer had a client at one.
    ///
    /// `Stale`: the hub isn't held.
    #[tactic(auto, unfolding(sentry_calls::specs::Hubs::last_event_id))]
    pub fn last_event_id(&self, hub: HubKey) -> Result<Out<Option<Uuid>>, Refusal>
        ensures { DoesWithoutMemory self.now self.now result (call.last_event_id hub) }
    {
        let Some(held) = self.state.hub_at(hub) else {
            return Err(Refusal::Stale);
        };
        Ok(self.state.out(held.last_event_id))
    }

    // The refusal of a call on a hub for which there is no memory.
    fn hub_refusal(&self, hub: HubKey) -> Refusal
        ensures { (world : World P C) → Stands self.now world →
            result ≡ if is_some (hub_at world hub) then Refusal.OutOfMemory else Refusal.Stale }
    {
        if self.state.hub_at(hub).is_some() {
            return Refusal::OutOfMemory;
        }
        Refusal::Stale
    }

    /// The client of the top layer, if it has one.
    ///
    /// `Stale`: the hub isn't held.
    #[tactic(auto, unfolding(sentry_calls::specs::Hubs::client))]
    pub fn client(&self, hub: HubKey) -> Result<Out<Option<ClientKey>>, Refusal>
        ensures { DoesWithoutMemory self.now self.now result (call.client hub) }
    {
        let Some(held) = self.state.hub_at(hub) else {
            return Err(Refusal::Stale);
        };
        Ok(self.state.out(held.stack.top.client))
    }

    /// Whether the top layer has a client that is enabled.
    ///
    /// `Stale`: the hub isn't held.
    #[tactic(auto, unfolding(sentry_calls::specs::Hubs::is_active))]
    pub fn is_active(&self, hub: HubKey) -> Result<Out<bool>, Refusal>
        ensures { DoesWithoutMemory self.now self.now result (call.is_active hub) }
    {
        let Some(held) = self.state.hub_at(hub) else {
            return Err(Refusal::Stale);
        };
        let Some(key) = held.stack.top.client else {
            return Ok(self.state.out(false));
        };
        let Some(client) = self.state.client_at(key) else {
            return Ok(self.state.out(false));
        };
        Ok(self.state.out(client.is_enabled()))
    }

    /// A copy of the top scope.
    ///
    /// `Stale`: the hub isn't held. `OutOfMemory`.
    #[tactic(auto, unfolding(sentry_calls::specs::Hubs::scope))]
    pub fn scope(&self, hub: HubKey) -> Result<Out<Boxed<Scope<P>>>, Refusal>
        ensures { Does self.now self.now result (call.scope hub) }
    {
        let Some(held) = self.state.hub_at(hub) else {
            return Err(Refusal::Stale);
        };
        let scope = Boxed::new(self.state.alloc, held.stack.top.scope.clone()?)?;
        Ok(self.state.out(scope))
    }
}

impl<P: EventCallback + Drop, C: Callbacks> Engine<P, C> {
    /// Captures an event on a hub: it goes through the pipeline of the top layer's client, under that layer's scope,
    /// and out in an envelope. If it comes through all callbacks, the layer's session counts it, and in the mode of
    /// applications the envelope takes along what the server is to be told of the session. Its id is the reply; the nil
    /// id if it was dropped, or if the layer has no client, or the client no transport.
    ///
    /// `Stale`: the hub isn't held. `OutOfMemory`.
    #[tactic(auto, unfolding(sentry_events::specs::Captures::capture_event))]
    pub fn capture_event(
        &mut self,
        hub: HubKey,
        event: Event,
        fresh: Fresh,
    ) -> Result<Out<Uuid>, Refusal>
        ensures { Does self.old self.new result (capture_event P.gives C.meanings hub event fresh) }
    {
        match Boxed::new(self.state.alloc, event) {
            Ok(event) => self.capture_boxed_event(hub, event, fresh),
            Err(_) => Err(self.hub_refusal(hub)),
        }
    }

    // The same, of an event in a box.
    pub(crate) fn capture_boxed_event(
        &mut self,
        hub: HubKey,
        event: Boxed<Event>,
        fresh: Fresh,
    ) -> Result<Out<Uuid>, Refusal>
        ensures { Does self.old self.new result (capture_event P.gives C.meanings hub event fresh) }
    {
        capture_on_hub(&mut self.state, hub, &mut Some(event), fresh)
    }

    // The same as `capture_message`, of a text that needs no copy.
    #[tactic(auto, unfolding(sentry_calls::specs::Hubs::capture_message, sentry_events::specs::Captures::capture_event))]
    pub(crate) fn capture_text(
        &mut self,
        hub: HubKey,
        message: Text,
        level: Level,
        fresh: Fresh,
    ) -> Result<Out<Uuid>, Refusal>
        ensures { Does self.old self.new result (call.capture_message P.gives C.meanings hub message level fresh) }
    {
        match message_event(self.state.alloc, message, level, fresh.uuid, fresh.now) {
            Ok(event) => self.capture_boxed_event(hub, event, fresh),
            Err(_) => Err(self.hub_refusal(hub)),
        }
    }

    /// Captures an event of a message and a level on a hub, as `capture_event` does.
    ///
    /// `Stale`: the hub isn't held. `OutOfMemory`.
    #[tactic(auto, unfolding(sentry_calls::specs::Hubs::capture_message, sentry_events::specs::Captures::capture_event))]
    pub fn capture_message(
        &mut self,
        hub: HubKey,
        message: &str,
        level: Level,
        fresh: Fresh,
    ) -> Result<Out<Uuid>, Refusal>
        ensures { Does self.old self.new result (call.capture_message P.gives C.meanings hub message.now level fresh) }
    {
        match Text::new(self.state.alloc, message) {
            Ok(message) => self.capture_text(hub, message, level, fresh),
            Err(_) => Err(self.hub_refusal(hub)),
        }
    }

    /// Captures an error on a hub, as `capture_event` does: the event that `event_from_error` makes of its links, which
    /// are given outermost first.
    ///
    /// `Stale`: the hub isn't held. `OutOfMemory`.
    #[tactic(auto, unfolding(sentry_calls::specs::Hubs::capture_error, sentry_events::specs::Captures::capture_event))]
    pub fn capture_error(
        &mut self,
        hub: HubKey,
        links: &[ErrorLink],
        fresh: Fresh,
    ) -> Result<Out<Uuid>, Refusal>
        ensures { Does self.old self.new result (call.capture_error P.gives C.meanings hub links.now fresh) }
    {
        match error_event(self.state.alloc, links, fresh.uuid, fresh.now) {
            Ok(event) => self.capture_boxed_event(hub, event, fresh),
            Err(_) => Err(self.hub_refusal(hub)),
        }
    }
}
